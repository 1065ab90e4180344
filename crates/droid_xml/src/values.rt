//! Reads the values of attributes.

ghost use Rattle.std.specs.Prelude.{◌≡◌, false, IfOk, OnOk};
ghost use Rattle.std.specs.List.{list_any};
ghost use Rattle.std.specs.Option.{option_map};
ghost use Rattle.std.specs.Str.{chars};
ghost use Rattle.std.specs.String.{string_bytes};
ghost use Rattle.droid_xml.specs.Bytes.{is_byte, only_if};
ghost use Rattle.droid_xml.specs.Outcomes.{Gives, required};
ghost use Rattle.droid_xml.specs.Values.{nothing, after_char, plain, spaced, ended, value_of, quoted_by, value_at};
ghost use Rattle.droid_xml.specs.Drafts.{partial};

use crate::bytes::cut_at_byte;
use crate::characters::text_in;
use crate::problem::{Problem, Stop};
use crate::references::referenced;
use std::alloc::{AllocError, Global};

/// A value while it is read.
#[derive(Drop)]
struct Draft {
    text: String,
    /// Inside a reference what stands behind its `&`.
    name: String,
    is_inside: bool,
}

impl Draft {
    /// Begins a value without bytes.
    fn new(alloc: Global) -> Self
        ensures { partial result ≡ nothing }
    {
        Draft {
            text: String::new(alloc),
            name: String::new(alloc),
            is_inside: false,
        }
    }

    /// Takes the next character. Returns whether it may stand there: only the `;` of an unknown reference may not.
    fn take(&mut self, c: char) -> Result<bool, AllocError>
        ensures { IfOk result (λ is_right. after_char (partial self.old) c ≡ only_if is_right (partial self.new)) }
    {
        if !self.is_inside {
            self.take_plain(c)?;
            return Ok(true);
        }
        if c != ';' {
            self.name.push(c)?;
            return Ok(true);
        }
        match referenced(self.name.as_bytes()) {
            Some(stands_for) => {
                self.text.push(stands_for)?;
                self.is_inside = false;
                Ok(true)
            }
            None => Ok(false),
        }
    }

    /// Takes a character outside of references: `&` begins one, white space becomes a space, any other stays.
    fn take_plain(&mut self, c: char) -> Result<(), AllocError>
        requires { self.old.is_inside ≡ false }
        ensures { OnOk result (partial self.new ≡ plain (string_bytes self.old.text) c) }
    {
        if c == '&' {
            self.name.clear();
            self.is_inside = true;
        } else {
            self.text.push(spaced(c))?;
        }
        Ok(())
    }

    /// Returns the value, or `None` if it ends inside a reference.
    fn finish(self) -> Option<String>
        ensures { option_map (λ x. string_bytes x) result ≡ ended (partial self) }
    {
        let Draft {
            text,
            name: _,
            is_inside,
        } = self;
        if is_inside { None } else { Some(text) }
    }
}

/// Returns a space for white space, and any other character as it is.
fn spaced(c: char) -> char
    ensures { result ≡ spaced c }
{
    if matches!(c, ' ' | '\t' | '\r' | '\n') {
        ' '
    } else {
        c
    }
}

/// Replaces the references in the text between quotes, and makes its own white space spaces. A wrong reference is not
/// well-formed.
fn value_of(alloc: Global, text: &str) -> Result<String, Stop>
    ensures { Gives (λ x. string_bytes x) result (required (value_of (chars text.now))) }
{
    let mut draft = Draft::new(alloc);
    let mut is_right = true;
    for c in text.chars() {
        if is_right {
            is_right = draft.take(c)?;
        }
    }
    if !is_right {
        return Err(Stop::Problem(Problem::NotWellFormed));
    }
    let Some(value) = draft.finish() else {
        return Err(Stop::Problem(Problem::NotWellFormed));
    };
    Ok(value)
}

/// Returns whether the text has a `<`.
fn has_less(text: &str) -> bool
    ensures { result ≡ list_any (is_byte 60) text.now }
{
    text.as_bytes().contains(&b'<')
}

/// Reads a value behind its first quote, up to the next `quote`. Returns it and what follows that quote. A `<` in it is
/// not well-formed.
#[tactic(auto, unfolding(crate::specs::Values::quoted_by))]
fn quoted_by(alloc: Global, text: &[u8], quote: u8) -> Result<(String, &[u8]), Stop>
    ensures { Gives (λ x. (string_bytes x.0, x.1.now)) result (required (quoted_by quote text.now)) }
{
    let (raw, rest) = cut_at_byte(text, quote).ok_or(Problem::NotWellFormed)?;
    let raw = text_in(raw).ok_or(Problem::NotWellFormed)?;
    if has_less(raw) {
        return Err(Stop::Problem(Problem::NotWellFormed));
    }
    let value = value_of(alloc, raw)?;
    Ok((value, rest))
}

/// Reads a value in either kind of quotes. Returns it and what follows it.
#[tactic(auto, unfolding(crate::specs::Values::value_at))]
pub fn value_at(alloc: Global, text: &[u8]) -> Result<(String, &[u8]), Stop>
    ensures { Gives (λ x. (string_bytes x.0, x.1.now)) result (required (value_at text.now)) }
{
    match text {
        [b'"', rest @ ..] => quoted_by(alloc, rest, b'"'),
        [b'\'', rest @ ..] => quoted_by(alloc, rest, b'\''),
        _ => Err(Stop::Problem(Problem::NotWellFormed)),
    }
}
