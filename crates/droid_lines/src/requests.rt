//! The text after the word for each kind of request.

ghost use Rattle.std.specs.Prelude.{◌≡◌, IfOk, codes};
ghost use Rattle.std.specs.Option.{option_map};
ghost use Rattle.std.specs.Result.{result_ok};
ghost use Rattle.hex.specs.Hex.{decode_of};
ghost use Rattle.droid_lines.specs.Requests.{create_words, plain_create_words, hashed_create_words, hash_word};
ghost use Rattle.droid_lines.specs.Requests.{folder_words, file_words, piece_words, finish_words, abandon_words};
ghost use Rattle.droid_lines.specs.Requests.{status_words, request_words, node_place, file_sizes, piece_place};
ghost use Rattle.droid_lines.specs.Requests.{file_place, bytes_word};

use crate::exports::parse_export;
use crate::words::{i64_word, truth_in, u32_in, u32_word, u64_word, word};
use droid_frame::{Blob, HashKind, Request, Text};
use hex::FromHexError;
use std::alloc::{AllocError, Global};

/// Parses the text after a kind's word, in a line of this version. `None`: the text is no request of that kind.
#[tactic(auto, unfolding(crate::specs::Requests::request_words))]
pub fn parse_request(
    alloc: Global,
    version: u8,
    kind: &str,
    text: &str,
) -> Result<Option<Request>, AllocError>
    ensures { IfOk result (λ request. request ≡ request_words version kind.now text.now) }
{
    if kind == "create" {
        Ok(parse_create(version, text))
    } else if kind == "folder" {
        parse_folder(alloc, text)
    } else if kind == "file" {
        parse_file(alloc, text)
    } else if kind == "piece" {
        parse_piece(alloc, text)
    } else if kind == "finish" {
        Ok(parse_finish(text))
    } else if kind == "abandon" {
        Ok(parse_abandon(text))
    } else if kind == "status" {
        Ok(parse_status(text))
    } else if kind == "export" {
        parse_export(alloc, text)
    } else {
        Ok(None)
    }
}

/// Parses `LIMIT ALL` in version 1, and `LIMIT ALL HASH` in version 2, behind `create`.
#[tactic(auto, unfolding(crate::specs::Requests::create_words))]
fn parse_create(version: u8, text: &str) -> Option<Request>
    ensures { result ≡ create_words version text.now }
{
    if version == 1 {
        parse_plain_create(text)
    } else {
        parse_hashed_create(text)
    }
}

/// Parses `LIMIT ALL HASH`: the scan limit in bytes, whether formats that have signatures may be found by extension
/// too, and the kind of hash.
#[tactic(auto, unfolding(crate::specs::Requests::hashed_create_words))]
fn parse_hashed_create(text: &str) -> Option<Request>
    ensures { result ≡ hashed_create_words text.now }
{
    let (scan_limit, rest) = u32_word(text)?;
    let (all, rest) = word(rest)?;
    let match_all = truth_in(all)?;
    let hash = hash_in(rest)?;
    Some(Request::CreateProfile {
        scan_limit,
        match_all,
        hash,
    })
}

/// Parses the kind of hash for a profile's files: `none`, `md5` or `sha256`.
#[tactic(auto, unfolding(crate::specs::Requests::hash_word))]
fn hash_in(word: &str) -> Option<HashKind>
    ensures { result ≡ hash_word word.now }
{
    if word == "none" {
        Some(HashKind::Nothing)
    } else if word == "md5" {
        Some(HashKind::Md5)
    } else if word == "sha256" {
        Some(HashKind::Sha256)
    } else {
        None
    }
}

/// Parses `LIMIT ALL`, as with a hash. The profile gets MD5.
#[tactic(auto, unfolding(crate::specs::Requests::plain_create_words))]
fn parse_plain_create(text: &str) -> Option<Request>
    ensures { result ≡ plain_create_words text.now }
{
    let (scan_limit, rest) = u32_word(text)?;
    let match_all = truth_in(rest)?;
    Some(Request::CreateProfile {
        scan_limit,
        match_all,
        hash: HashKind::Md5,
    })
}

/// Parses `PROFILE PARENT MODIFIED NAME`, behind `folder`. The name is all of the rest, and may be empty.
#[tactic(auto, unfolding(crate::specs::Requests::folder_words))]
fn parse_folder(alloc: Global, text: &str) -> Result<Option<Request>, AllocError>
    ensures { IfOk result (λ request. request ≡ folder_words text.now) }
{
    let Some((profile, parent, modified, name)) = node_place(text) else {
        return Ok(None);
    };
    let name = Text::copy_of(alloc, name)?;
    Ok(Some(Request::AddFolder {
        profile,
        parent,
        modified,
        name,
    }))
}

/// Parses `PROFILE PARENT MODIFIED SIZE PIECESIZE NAME`, behind `file`. The name is all of the rest, and may be empty.
#[tactic(auto, unfolding(crate::specs::Requests::file_words))]
fn parse_file(alloc: Global, text: &str) -> Result<Option<Request>, AllocError>
    ensures { IfOk result (λ request. request ≡ file_words text.now) }
{
    let Some((profile, parent, modified, rest)) = node_place(text) else {
        return Ok(None);
    };
    let Some((size, piece_size, name)) = file_sizes(rest) else {
        return Ok(None);
    };
    let name = Text::copy_of(alloc, name)?;
    Ok(Some(Request::AddFile {
        profile,
        parent,
        modified,
        size,
        piece_size,
        name,
    }))
}

/// Parses `PROFILE FILE INDEX HEX`, behind `piece`.
#[tactic(auto, unfolding(crate::specs::Requests::piece_words))]
fn parse_piece(alloc: Global, text: &str) -> Result<Option<Request>, AllocError>
    ensures { IfOk result (λ request. request ≡ piece_words text.now) }
{
    let Some((profile, file, index, digits)) = piece_place(text) else {
        return Ok(None);
    };
    let Some(bytes) = bytes_in(alloc, digits)? else {
        return Ok(None);
    };
    Ok(Some(Request::Piece {
        profile,
        file,
        index,
        bytes,
    }))
}

/// Parses `PROFILE FILE`, behind `finish`.
#[tactic(auto, unfolding(crate::specs::Requests::finish_words))]
fn parse_finish(text: &str) -> Option<Request>
    ensures { result ≡ finish_words text.now }
{
    let (profile, file) = file_place(text)?;
    Some(Request::Finish { profile, file })
}

/// Parses `PROFILE FILE`, behind `abandon`.
#[tactic(auto, unfolding(crate::specs::Requests::abandon_words))]
fn parse_abandon(text: &str) -> Option<Request>
    ensures { result ≡ abandon_words text.now }
{
    let (profile, file) = file_place(text)?;
    Some(Request::Abandon { profile, file })
}

/// Parses `PROFILE FILE`, behind `status`.
#[tactic(auto, unfolding(crate::specs::Requests::status_words))]
fn parse_status(text: &str) -> Option<Request>
    ensures { result ≡ status_words text.now }
{
    let (profile, file) = file_place(text)?;
    Some(Request::Status { profile, file })
}

/// Parses `PROFILE PARENT MODIFIED`, with which a folder and a file begin. Returns it with the text after the space.
#[tactic(auto, unfolding(crate::specs::Requests::node_place))]
fn node_place(text: &str) -> Option<(u32, u32, i64, &str)>
    ensures { option_map (λ x. (x.0, x.1, x.2, x.3.now)) result ≡ node_place text.now }
{
    let (profile, rest) = u32_word(text)?;
    let (parent, rest) = u32_word(rest)?;
    let (modified, rest) = i64_word(rest)?;
    Some((profile, parent, modified, rest))
}

/// Parses `SIZE PIECESIZE NAME`: two numbers of bytes, and the rest as the name.
#[tactic(auto, unfolding(crate::specs::Requests::file_sizes))]
fn file_sizes(text: &str) -> Option<(u64, u32, &str)>
    ensures { option_map (λ x. (x.0, x.1, x.2.now)) result ≡ file_sizes text.now }
{
    let (size, rest) = u64_word(text)?;
    let (piece_size, name) = u32_word(rest)?;
    Some((size, piece_size, name))
}

/// Parses `PROFILE FILE INDEX`. Returns it with the text after the space.
#[tactic(auto, unfolding(crate::specs::Requests::piece_place))]
fn piece_place(text: &str) -> Option<(u32, u32, u32, &str)>
    ensures { option_map (λ x. (x.0, x.1, x.2, x.3.now)) result ≡ piece_place text.now }
{
    let (profile, rest) = u32_word(text)?;
    let (file, rest) = u32_word(rest)?;
    let (index, rest) = u32_word(rest)?;
    Some((profile, file, index, rest))
}

/// Parses `PROFILE FILE`, with nothing after it.
#[tactic(auto, unfolding(crate::specs::Requests::file_place))]
fn file_place(text: &str) -> Option<(u32, u32)>
    ensures { result ≡ file_place text.now }
{
    let (profile, rest) = u32_word(text)?;
    Some((profile, u32_in(rest)?))
}

/// Parses the bytes of a piece: two hexadecimal digits for each, or `-` for none.
#[tactic(auto, unfolding(crate::specs::Requests::bytes_word))]
fn bytes_in(alloc: Global, word: &str) -> Result<Option<Blob>, AllocError>
    ensures { IfOk result (λ bytes. bytes ≡ bytes_word word.now) }
{
    if word == "-" {
        Ok(Some(Blob::from(Vec::new(alloc))))
    } else if word.is_empty() {
        Ok(None)
    } else {
        decode(alloc, word)
    }
}

/// Reads bytes from hexadecimal digits. `None`: the digits are none, or their number is odd. `decode_of` is the kit's
/// definition of such digits, in either case.
fn decode(alloc: Global, digits: &str) -> Result<Option<Blob>, AllocError>
    ensures { IfOk result (λ bytes. bytes ≡ result_ok (decode_of digits.now)) }
{
    match hex::decode(alloc, digits) {
        Ok(bytes) => Ok(Some(Blob::from(bytes))),
        Err(FromHexError::OutOfMemory) => Err(AllocError),
        Err(_) => Ok(None),
    }
}
