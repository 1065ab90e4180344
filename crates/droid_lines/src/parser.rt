//! The parser of a line of a script, with a client and a number ([`Line`]) or without ([`VersionedRequest`]).

ghost use Rattle.std.specs.Prelude.{◌≡◌, IfOk, IfSome, IsTrue};
ghost use Rattle.std.specs.Option.{option_map};
ghost use Rattle.droid_frame.specs.Bodies.{Fits};
ghost use Rattle.droid_lines.specs.Lines.{head_at, line_value, numbered_line, request_fits, request_value, text_line};
ghost use Rattle.droid_lines.specs.Lines.{text_request, unnumbered_line, version_at};

use crate::requests::parse_request;
use crate::words::{u32_word, u64_word, word};
use droid_frame::Request;
use std::alloc::{AllocError, Global};
use std::str;

/// A line that holds a request: `CLIENT NUMBER KIND ..`, or that after `v2 `.
#[derive(Drop)]
pub struct Line {
    /// The version of the frame that carries the request: 2 after `v2 `, and 1 otherwise.
    pub version: u8,
    /// The client that sends the request.
    pub client: u32,
    /// The number that the client gives it.
    pub number: u64,
    /// The request.
    pub request: Request,
}

/// The request of a line without client and number.
#[derive(Drop)]
pub struct VersionedRequest {
    /// The version of the frame that carries the request: 2 after `v2 `, and 1 otherwise.
    pub version: u8,
    /// The request.
    pub request: Request,
}

/// Parses a line. `None`: the line is bad, since it is no UTF-8, outside the grammar of its version, or too long for
/// the body of a frame of its version. Fails only if memory runs out for a name, for bytes or for criteria.
#[tactic(auto, unfolding(crate::specs::Lines::line_value))]
pub fn parse_line(alloc: Global, bytes: &[u8]) -> Result<Option<Line>, AllocError>
    ensures value { IfOk result (λ line. line ≡ line_value bytes.now) }
    ensures fits { IfOk result (λ line. IfSome line (λ found. Fits found.version found.request)) }
{
    match str::from_utf8(bytes) {
        Ok(text) => parse_text(alloc, text),
        Err(_) => Ok(None),
    }
}

/// Reads a line, in the version that a word in front may name.
#[tactic(auto, unfolding(crate::specs::Lines::text_line))]
fn parse_text(alloc: Global, text: &str) -> Result<Option<Line>, AllocError>
    ensures value { IfOk result (λ line. line ≡ text_line text.now) }
    ensures fits { IfOk result (λ line. IfSome line (λ found. Fits found.version found.request)) }
{
    let (version, rest) = version_of(text);
    parse_numbered(alloc, version, rest)
}

/// Reads client, number and request of a line of this version, behind `v2 `.
#[tactic(auto, unfolding(crate::specs::Lines::numbered_line, crate::specs::Lines::where_fitting))]
fn parse_numbered(alloc: Global, version: u8, text: &str) -> Result<Option<Line>, AllocError>
    ensures value { IfOk result (λ line. line ≡ numbered_line version text.now) }
    ensures fits { IfOk result (λ line. IfSome line (λ found. Fits found.version found.request)) }
{
    let Some((client, number, kind, rest)) = head(text) else {
        return Ok(None);
    };
    let Some(request) = parse_request(alloc, version, kind, rest)? else {
        return Ok(None);
    };
    if !fits(version, &request) {
        return Ok(None);
    }
    Ok(Some(Line {
        version,
        client,
        number,
        request,
    }))
}

/// Parses a line without client and number: `KIND ..`, or that after `v2 `. `None`: the line is bad. Fails only if
/// memory runs out.
#[tactic(auto, unfolding(crate::specs::Lines::request_value))]
pub fn parse_request_line(
    alloc: Global,
    bytes: &[u8],
) -> Result<Option<VersionedRequest>, AllocError>
    ensures value { IfOk result (λ asked. asked ≡ request_value bytes.now) }
    ensures fits { IfOk result (λ asked. IfSome asked (λ found. Fits found.version found.request)) }
{
    match str::from_utf8(bytes) {
        Ok(text) => request_in(alloc, text),
        Err(_) => Ok(None),
    }
}

/// Reads a line without client and number, in the version that a word in front may name.
#[tactic(auto, unfolding(crate::specs::Lines::text_request))]
fn request_in(alloc: Global, text: &str) -> Result<Option<VersionedRequest>, AllocError>
    ensures value { IfOk result (λ asked. asked ≡ text_request text.now) }
    ensures fits { IfOk result (λ asked. IfSome asked (λ found. Fits found.version found.request)) }
{
    let (version, rest) = version_of(text);
    parse_unnumbered(alloc, version, rest)
}

/// Reads the request of a line of this version without client and number, behind `v2 `.
#[tactic(auto, unfolding(crate::specs::Lines::unnumbered_line, crate::specs::Lines::request_where_fitting))]
fn parse_unnumbered(
    alloc: Global,
    version: u8,
    text: &str,
) -> Result<Option<VersionedRequest>, AllocError>
    ensures value { IfOk result (λ asked. asked ≡ unnumbered_line version text.now) }
    ensures fits { IfOk result (λ asked. IfSome asked (λ found. Fits found.version found.request)) }
{
    let Some((kind, rest)) = word(text) else {
        return Ok(None);
    };
    let Some(request) = parse_request(alloc, version, kind, rest)? else {
        return Ok(None);
    };
    if !fits(version, &request) {
        return Ok(None);
    }
    Ok(Some(VersionedRequest { version, request }))
}

/// Returns the version of a line, and the line without `v2 ` in front. Without these three bytes it is version 1.
#[tactic(auto, unfolding(crate::specs::Lines::version_at))]
fn version_of(text: &str) -> (u8, &str)
    ensures { (result.0, result.1.now) ≡ version_at text.now }
{
    let Some((first, rest)) = word(text) else {
        return (1, text);
    };
    if first == "v2" { (2, rest) } else { (1, text) }
}

/// Returns whether the request fits into a frame of this version.
fn fits(version: u8, request: &Request) -> bool
    ensures test { result ≡ request_fits version request.now }
    ensures fits { IsTrue result → Fits version request.now }
{
    request.fits(version)
}

/// Returns the client, the number, the word of the kind, and the text after the space, which there has to be.
#[tactic(auto, unfolding(crate::specs::Lines::head_at))]
fn head(text: &str) -> Option<(u32, u64, &str, &str)>
    ensures { option_map (λ x. (x.0, x.1, x.2.now, x.3.now)) result ≡ head_at text.now }
{
    let (client, rest) = u32_word(text)?;
    let (number, rest) = u64_word(rest)?;
    let (kind, rest) = word(rest)?;
    Some((client, number, kind, rest))
}
