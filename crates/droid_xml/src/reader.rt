//! Reads a document from its front to its end, piece by piece, and says in which line it has its first problem.

ghost use Rattle.std.specs.Prelude.{◌≡◌, List, length, map, IfOk, IfErr, MatchResult, count_by};
ghost use Rattle.droid_xml.specs.Documents.{IsDocument, declared, line_of, past_mark, prolog, start_of};
ghost use Rattle.droid_xml.specs.Bytes.{is_byte};
ghost use Rattle.droid_xml.specs.Outcomes.{Reads, fault_at};
ghost use Rattle.droid_xml.specs.Pieces.{Part};
ghost use Rattle.droid_xml.specs.Views.{Goes, IsFaultOf, IsMemory, IsProblem, Starts, part, place};

use crate::bytes::after;
use crate::declarations::{declaration_at, declaration_start, is_readable};
use crate::open_elements::Open;
use crate::pieces::{Piece, piece_at};
use crate::problem::{Fault, Problem, Stop};
use std::alloc::Global;

/// Reads a document piece by piece.
#[derive(Drop)]
pub struct Reader<'a> {
    text: &'a [u8],
    rest: &'a [u8],
    open: Open<'a>,
}

impl<'a> Reader<'a> {
    /// Begins a document, whose line ends are line feeds. Skips its byte order mark and its declaration.
    #[tactic(auto, unfolding(crate::specs::Documents::start_of))]
    pub fn new(alloc: Global, text: &'a [u8]) -> Result<Self, Fault>
        ensures start { Starts result (start_of text.now) }
        // It allocates nothing, so memory is not the reason.
        ensures problem { IfErr result IsProblem }
    {
        match prolog(text) {
            Ok(rest) => Ok(Reader {
                text,
                rest,
                open: Open::new(alloc),
            }),
            Err(problem) => Err(Fault::Problem { problem, line: 1 }),
        }
    }

    /// Returns the next piece, or None at the end. A fault changes nothing: it comes again at the next call.
    pub fn next(&mut self, alloc: Global) -> Result<Option<Piece<'a>>, Fault>
        ensures { Goes (place self.old) result (place self.new) }
    {
        if self.rest.is_empty() {
            return self.end();
        }
        let (piece, rest) = match piece_at(alloc, self.rest) {
            Ok(found) => found,
            Err(stop) => return Err(fault(self.text, self.rest, stop)),
        };
        match self.open.take(&piece) {
            Ok(()) => {}
            Err(stop) => return Err(fault(self.text, self.rest, stop)),
        }
        self.rest = rest;
        Ok(Some(piece))
    }

    /// Ends a document of which nothing is left: returns `None`, or a fault if the document may not end there.
    fn end(&self) -> Result<Option<Piece<'a>>, Fault>
        requires { length (place self.now).rest ≡ 0 }
        ensures { Goes (place self.now) result (place self.now) }
    {
        if self.open.is_complete() {
            return Ok(None);
        }
        Err(fault(self.text, self.rest, Stop::Problem(Problem::NotWellFormed)))
    }
}

/// Returns what follows the byte order mark and the declaration, each of which may be missing. A problem is one of the
/// declaration: it is not well-formed, or its encoding cannot be read.
#[tactic(auto, unfolding(crate::specs::Documents::prolog, crate::specs::Documents::declared))]
fn prolog(text: &[u8]) -> Result<&[u8], Problem>
    ensures { Reads (λ x. x.now) result (prolog text.now) }
{
    let text = past_mark(text);
    let Some(start) = declaration_start(text) else {
        return Ok(text);
    };
    let Some((encoding, rest)) = declaration_at(start) else {
        return Err(Problem::NotWellFormed);
    };
    if is_readable(encoding, rest) {
        Ok(rest)
    } else {
        Err(Problem::Encoding)
    }
}

/// Returns what follows the byte order mark of UTF-8, or the whole text if it is missing.
#[tactic(auto, unfolding(crate::specs::Documents::past_mark))]
fn past_mark(text: &[u8]) -> &[u8]
    ensures { result.now ≡ past_mark text.now }
{
    match after(text, b"\xEF\xBB\xBF") {
        Some(rest) => rest,
        None => text,
    }
}

/// Makes a [`Fault`] of a stop: a problem gets the line in which `rest`, an end of `text`, begins.
fn fault(text: &[u8], rest: &[u8], stop: Stop) -> Fault
    ensures { result ≡ fault_at (line_of text.now rest.now) stop }
{
    match stop {
        Stop::Memory => Fault::Memory,
        Stop::Problem(problem) => Fault::Problem {
            problem,
            line: 1 + line_ends(text).saturating_sub(line_ends(rest)),
        },
    }
}

/// Counts the line feeds: no other line end is left in a document.
fn line_ends(text: &[u8]) -> usize
    ensures { result ≡ count_by (is_byte 10) text.now }
{
    let mut count = 0;
    for byte in text {
        if *byte == b'\n' {
            count += 1;
        }
    }
    count
}

/// Reads all pieces of a document, whose line ends are line feeds. After a fault no piece is returned.
pub fn read(alloc: Global, text: &[u8]) -> Result<Vec<Piece<'_>>, Fault>
    // They are the pieces of the document.
    ensures found { IfOk result (λ pieces. IsDocument text.now (map part pieces.items)) }
    // It has no others, and where it has some, nothing but memory stands in the way.
    ensures only { (parts : List Part) → IsDocument text.now parts
        → MatchResult result (λ pieces. map part pieces.items ≡ parts) IsMemory }
    // A problem is the first from the left.
    ensures fault { IfErr result (λ fault. IsFaultOf text.now fault) }
{
    let mut reader = Reader::new(alloc, text)?;
    let mut pieces = Vec::new(alloc);
    // The prover asks for a bound. No document has as many pieces.
    for _ in 0..u64::MAX {
        match reader.next(alloc) {
            Ok(Some(piece)) => pieces.push(piece)?,
            Ok(None) => return Ok(pieces),
            Err(fault) => return Err(fault),
        }
    }
    Err(Fault::Memory)
}
