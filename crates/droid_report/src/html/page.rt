//! A page of HTML around the text of its body: what a browser may do, the title, the rules of style.

ghost use Rattle.std.specs.Prelude.{◌≡◌, Some};
ghost use Rattle.droid_report.specs.Pages.{page_around, style};

use crate::html::page_text::Escaped;
use std::fmt;
use std::fmt::{Display, Formatter, Write};

/// The rules of style of each page: for light and dark screens, narrow ones and paper, in colours that colour-blind
/// people can tell apart. None of its characters is markup: the law `page_is_a_tree` holds only so. What the rules are,
/// no clause says; `browser.py` of `tests/program/report` sees colours and widths, where a browser can be had.
const STYLE: &str = ":root{color-scheme:light dark;--ink:#1b1b1b;--paper:#fff;--line:#bbb;\
    --bar:#0072b2}@media(prefers-color-scheme:dark){:root{--ink:#e8e8e8;--paper:#141414;--line:#555;\
    --bar:#56b4e9}}@media print{:root{--ink:#000;--paper:#fff;--bar:#444}section{break-inside:avoid}}body{margin:0;\
    background:var(--paper);color:var(--ink);font:16px/1.5 system-ui,sans-serif}main{max-width:60rem;margin:auto;\
    padding:1rem}h1,h2,p,td{overflow-wrap:anywhere}table{border-collapse:collapse;width:100%;margin-bottom:2rem}th,\
    td{border-bottom:1px solid var(--line);padding:.25rem .5rem;text-align:left;vertical-align:top}.n{text-align:right;\
    font-variant-numeric:tabular-nums}.b{width:30%}a{color:inherit}svg{display:block;width:100%;\
    height:1.25rem}rect{fill:var(--bar)}@media(max-width:30rem){main{padding:.5rem}th,td{padding:.25rem}.b{width:20%}}";

/// A page of HTML that stands alone: a browser loads nothing for it and runs no script.
#[derive(Clone, Copy)]
pub struct Page<'a> {
    /// Its title.
    pub title: &'a str,
    /// The text of the tree in its body. The law [`page_is_a_tree`](crate::html_laws::page_is_a_tree) says what the
    /// page then is.
    pub body: &'a str,
}

impl Display for Page<'_> {
    ghost output = { λ page. Some (page_around page.title.now page.body.now) };

    /// Writes the head of the page with its title escaped, and the body as it is: it is markup already. `framed` of
    /// `specs/Pages.antt` has the same text; the policy in it forbids a browser to load or run anything.
    #[tactic(auto, unfolding(crate::specs::Pages::page_around, crate::specs::Pages::style))]
    fn fmt<W: Write>(&self, f: &mut Formatter<W>) -> fmt::Result {
        write!(
            f,
            "<!DOCTYPE html><html lang=\"en\"><head><meta charset=\"utf-8\"><meta \
            http-equiv=\"Content-Security-Policy\" content=\"default-src 'none'; style-src 'unsafe-inline'\"><meta \
            name=\"viewport\" content=\"width=device-width, initial-scale=1\"><title>{}</title><style>{}</style></head>\
            <body>{}</body></html>",
            Escaped(self.title),
            STYLE,
            self.body
        )
    }
}
