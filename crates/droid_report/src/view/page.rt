//! The page of a report as text, with the longest lists with which it has at most 300,000 bytes.

ghost use Rattle.std.specs.Prelude.{◌≡◌, [], ◌∷◌, IfOk, List, string_bytes};
ghost use Rattle.droid_report.specs.Pages.{page_text};
ghost use Rattle.droid_report.specs.TableTrees.{body_tree};
ghost use Rattle.droid_report.specs.Trees.{text_of};
ghost use Rattle.droid_report.specs.declared.html.tables.Table.{Table};
ghost use Rattle.droid_report.specs.Orders.{AreOrders};
ghost use Rattle.droid_report.specs.ShownReports.{IsPage, IsPageOf, IsFirstToFit, all_tables};
ghost use Rattle.droid_report.specs.Seen.{tables_seen};
ghost use Rattle.droid_report.specs.declared.view.orders.Orders.{Orders};

use crate::counts::Counts;
use crate::html::page::Page;
use crate::html::tables::{Body, Table};
use crate::html_laws::{page_is_a_tree, tables_are_a_tree};
use crate::view::orders::Orders;
use crate::view::tables::{add_classes, add_extremes, add_groups, add_lists, add_overview};
use std::alloc::{AllocError, Global};

/// How many rows a list of the page has at most: the first of these with which the page has at most [`MOST_BYTES`]; if
/// none fits, 0, and then the pictures show no name of a format either. `IsPage` has the same numbers, which the prover
/// ties. 200 is also how many rows the lists of files keep (`MOST_ROWS` of `lists.rt`). docs/PROMISES.md has them, and
/// `numbers_of.py` of `tests/program/report`, with the 0.
const LIMITS: [usize; 5] = [200, 100, 50, 20, 5];

/// How many bytes a page has at most: 300000 in `IsFirstToFit`, which the prover ties. docs/PROMISES.md, the crate's
/// page and `numbers_of.py` of `tests/program/report` have it too.
const MOST_BYTES: usize = 300_000;

/// Makes the page of a report with this title. `about` says of which CSV it is, and when it was made. The page has at
/// most 300,000 bytes, unless `title` or `about` is too long for that; no clause promises it, since the page without
/// rows in its lists is taken however long it is. Fails only if memory runs out.
pub fn report_page(
    alloc: Global,
    title: &str,
    about: &str,
    counts: &Counts,
) -> Result<String, AllocError>
    ensures { IfOk result (λ page. IsPage title.now about.now counts.now (string_bytes page)) }
{
    let orders = Orders::of(alloc, counts)?;
    let page = fitting(alloc, title, about, counts, &orders, &LIMITS)?;
    Ok(page)
}

/// Makes the page with the first of these limits with which it has at most [`MOST_BYTES`], or, if none does, with no
/// row in its lists, however long it then is.
fn fitting(
    alloc: Global,
    title: &str,
    about: &str,
    counts: &Counts,
    orders: &Orders<'_>,
    limits: &[usize],
) -> Result<String, AllocError>
    ensures { IfOk result (λ page.
        IsFirstToFit (IsPageOf title.now about.now counts.now orders.now) limits.now (string_bytes page)) }
{
    for limit in limits {
        let page = page_with(alloc, title, about, counts, orders, *limit)?;
        if page.len() <= MOST_BYTES {
            return Ok(page);
        }
    }
    let page = page_with(alloc, title, about, counts, orders, 0)?;
    Ok(page)
}

/// Makes the page with at most `limit` rows in each list.
fn page_with(
    alloc: Global,
    title: &str,
    about: &str,
    counts: &Counts,
    orders: &Orders<'_>,
    limit: usize,
) -> Result<String, AllocError>
    ensures { IfOk result (λ page. IsPageOf title.now about.now counts.now orders.now limit (string_bytes page)) }
{
    let tables = report_tables(alloc, counts, orders, limit)?;
    let page = page_of(alloc, title, about, tables.as_slice())?;
    Ok(page)
}

/// Prints a page of these tables, which are in the order of the page.
fn page_of(alloc: Global, title: &str, about: &str, tables: &[Table]) -> Result<String, AllocError>
    ensures { IfOk result (λ page. string_bytes page ≡ page_text title.now (body_tree title.now about.now tables.now)) }
{
    let body = body_of(alloc, title, about, tables)?;
    let page = Page {
        title,
        body: body.as_str(),
    };
    // This and `tables_are_a_tree` do nothing: they are laws that the prover uses here.
    page_is_a_tree();
    let page = format!(in alloc; "{page}")?;
    Ok(page)
}

/// Prints the body of a page: its title, what it is about, and the tables.
fn body_of(alloc: Global, title: &str, about: &str, tables: &[Table]) -> Result<String, AllocError>
    ensures { IfOk result (λ body. string_bytes body ≡ text_of (body_tree title.now about.now tables.now) []) }
{
    // A law for the prover, as above.
    tables_are_a_tree();
    let body = Body {
        title,
        about,
        tables,
    };
    let body = format!(in alloc; "{body}")?;
    Ok(body)
}

/// Makes the tables of a report in the order of the page. `limit` is how many rows each list has at most.
fn report_tables(
    alloc: Global,
    counts: &Counts,
    orders: &Orders<'_>,
    limit: usize,
) -> Result<Vec<Table>, AllocError>
    ensures { IfOk result (λ tables. tables_seen tables.items ≡ all_tables counts.now orders.now limit) }
{
    let mut tables = Vec::new(alloc);
    add_overview(&mut tables, alloc, counts.totals, orders, limit)?;
    add_classes(&mut tables, alloc, &counts.classes, limit)?;
    add_groups(&mut tables, alloc, orders, limit)?;
    add_lists(&mut tables, alloc, counts.totals, &counts.lists, limit)?;
    add_extremes(&mut tables, alloc, counts.totals, &counts.lists, limit)?;
    Ok(tables)
}
