//! Reads one piece at the front of bytes, of whichever kind. Whether it may stand there is judged elsewhere
//! (`open_elements.rt`).

ghost use Rattle.std.specs.Prelude.{◌≡◌};
ghost use Rattle.std.specs.Option.{option_map};
ghost use Rattle.droid_xml.specs.Documents.{piece_at, piece_behind_less};
ghost use Rattle.droid_xml.specs.Outcomes.{Gives};
ghost use Rattle.droid_xml.specs.Pieces.{Part, comment_at, data_at, instruction_text, instruction_at, end_tag_at};
ghost use Rattle.droid_xml.specs.Pieces.{ends_text, text_len, text_at};
ghost use Rattle.droid_xml.specs.Views.{part};

use crate::bytes::{after, cut_at, past_some_space, past_spaces};
use crate::characters::text_in;
use crate::names::name_at;
use crate::problem::{Problem, Stop};
use crate::references::reference_at;
use crate::tags::{Element, start_tag_at};
use std::alloc::Global;

/// A piece of a document.
#[derive(Drop)]
pub enum Piece<'a> {
    /// An element begins.
    Start(Element<'a>),
    /// The innermost element ends. Its name.
    End(&'a str),
    /// Text as it stands. References cut it into several pieces.
    Text(&'a str),
    /// The text of a CDATA section.
    Data(&'a str),
    /// A reference, by the character that it stands for.
    Reference(char),
    /// The text of a comment.
    Comment(&'a str),
    /// A processing instruction: its target, and the text behind it.
    Instruction(&'a str, &'a str),
}

/// Reads a comment behind its `<!--`, up to the first `--`, which `>` has to follow. Returns it and what follows it.
#[tactic(auto, unfolding(crate::specs::Pieces::comment_at))]
fn comment_at(text: &[u8]) -> Option<(Piece<'_>, &[u8])>
    ensures { option_map (λ x. (part x.0, x.1.now)) result ≡ comment_at text.now }
{
    let (comment, rest) = cut_at(text, b"--")?;
    let rest = after(rest, b">")?;
    Some((Piece::Comment(text_in(comment)?), rest))
}

/// Reads a CDATA section behind its `<![CDATA[`, up to the first `]]>`. Returns it and what follows it.
#[tactic(auto, unfolding(crate::specs::Pieces::data_at))]
fn data_at(text: &[u8]) -> Option<(Piece<'_>, &[u8])>
    ensures { option_map (λ x. (part x.0, x.1.now)) result ≡ data_at text.now }
{
    let (data, rest) = cut_at(text, b"]]>")?;
    Some((Piece::Data(text_in(data)?), rest))
}

/// Reads a processing instruction behind its target, up to `?>`. Returns its text, without the white space before it,
/// and what follows the instruction.
#[tactic(auto, unfolding(crate::specs::Pieces::instruction_text))]
fn instruction_text(text: &[u8]) -> Option<(&[u8], &[u8])>
    ensures { option_map (λ x. (x.0.now, x.1.now)) result ≡ instruction_text text.now }
{
    match after(text, b"?>") {
        Some(rest) => Some((b"", rest)),
        None => cut_at(past_some_space(text)?, b"?>"),
    }
}

/// Reads a processing instruction behind its `<?`. Returns it and what follows it. Its target may not be `xml`, in any
/// case: a declaration stands at the front of a document alone.
#[tactic(auto, unfolding(crate::specs::Pieces::instruction_at))]
fn instruction_at(text: &[u8]) -> Option<(Piece<'_>, &[u8])>
    ensures { option_map (λ x. (part x.0, x.1.now)) result ≡ instruction_at text.now }
{
    let (target, rest) = name_at(text)?;
    if target.eq_ignore_ascii_case("xml") {
        return None;
    }
    let (instruction, rest) = instruction_text(rest)?;
    Some((Piece::Instruction(target, text_in(instruction)?), rest))
}

/// Reads an end tag behind its `</`. Returns it and what follows its `>`.
#[tactic(auto, unfolding(crate::specs::Pieces::end_tag_at))]
fn end_tag_at(text: &[u8]) -> Option<(Piece<'_>, &[u8])>
    ensures { option_map (λ x. (part x.0, x.1.now)) result ≡ end_tag_at text.now }
{
    let (name, rest) = name_at(text)?;
    let rest = after(past_spaces(rest), b">")?;
    Some((Piece::End(name), rest))
}

/// Returns whether text ends before this byte: `<` begins a tag, `&` a reference.
fn ends_text(byte: u8) -> bool
    ensures { result ≡ ends_text byte }
{
    byte == b'<' || byte == b'&'
}

/// Counts the bytes before the first `<` or `&`: all, if there is none.
fn text_len(text: &[u8]) -> usize
    ensures { result ≡ text_len text.now }
{
    for (place, byte) in text.iter().enumerate() {
        if ends_text(*byte) {
            return place;
        }
    }
    text.len()
}

/// Reads text up to the next `<` or `&`, or to the end. Returns it and what follows it. It may not have `]]>` in it.
#[tactic(auto, unfolding(crate::specs::Pieces::text_at))]
fn text_at(text: &[u8]) -> Option<(Piece<'_>, &[u8])>
    ensures { option_map (λ x. (part x.0, x.1.now)) result ≡ text_at text.now }
{
    let length = text_len(text);
    let whole = text_in(&text[..length])?;
    if cut_at(whole.as_bytes(), b"]]>").is_some() {
        return None;
    }
    Some((Piece::Text(whole), &text[length..]))
}

/// Reads a piece behind its `<`: a tag, a comment, a CDATA section or an instruction. Returns it and what follows it.
#[tactic(auto, unfolding(crate::specs::Documents::piece_behind_less))]
fn piece_behind_less(alloc: Global, text: &[u8]) -> Result<(Piece<'_>, &[u8]), Stop>
    ensures { Gives (λ x. (part x.0, x.1.now)) result (piece_behind_less text.now) }
{
    if let Some(rest) = after(text, b"!--") {
        return Ok(comment_at(rest).ok_or(Problem::NotWellFormed)?);
    }
    if let Some(rest) = after(text, b"![CDATA[") {
        return Ok(data_at(rest).ok_or(Problem::NotWellFormed)?);
    }
    if after(text, b"!DOCTYPE").is_some() {
        return Err(Stop::Problem(Problem::Doctype));
    }
    if let Some(rest) = after(text, b"?") {
        return Ok(instruction_at(rest).ok_or(Problem::NotWellFormed)?);
    }
    if let Some(rest) = after(text, b"/") {
        return Ok(end_tag_at(rest).ok_or(Problem::NotWellFormed)?);
    }
    let (element, rest) = start_tag_at(alloc, text)?;
    Ok((Piece::Start(element), rest))
}

/// Reads the next piece, by its first byte. Returns it and what follows it. The one caller, `Reader::next`, never
/// passes empty bytes.
#[tactic(auto, unfolding(crate::specs::Documents::piece_at))]
pub fn piece_at(alloc: Global, text: &[u8]) -> Result<(Piece<'_>, &[u8]), Stop>
    ensures { Gives (λ x. (part x.0, x.1.now)) result (piece_at text.now) }
{
    if let Some(rest) = after(text, b"<") {
        return piece_behind_less(alloc, rest);
    }
    if let Some(rest) = after(text, b"&") {
        let (c, rest) = reference_at(rest).ok_or(Problem::NotWellFormed)?;
        return Ok((Piece::Reference(c), rest));
    }
    Ok(text_at(text).ok_or(Problem::NotWellFormed)?)
}
