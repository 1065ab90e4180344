//! Makers of requests' frames: `request_frame`, and an appender for each body and field.
//!
//! After an error, which is out of memory, `out` may have some of the bytes; `body_of`, which made it, drops it. A
//! clause `spelled` says that the values have a spelling, as `SpellsRequest` of the frame asks.

mod filter_writer;

ghost use Rattle.std.specs.Prelude.{◌≡◌, ◌++◌, IfOk, OnOk};
ghost use Rattle.std.specs.Str.{IsUtf8};
ghost use Rattle.droid_frame.specs.Bodies.{Fits, HasSpelling, ListsFit, HashFits, SpellsRequest, request_kind};
ghost use Rattle.droid_frame.specs.Bodies.{request_body};
ghost use Rattle.droid_frame.specs.Fields.{IsBytes, u32_bytes, u64_bytes, i64_bytes, truth_bytes, IsU32, IsU64, IsI64};
ghost use Rattle.droid_frame.specs.Filters.{FilterFits, IsFilter, filter_bytes};
ghost use Rattle.droid_frame.specs.Frames.{frame_bytes, spelling};
ghost use Rattle.droid_frame.specs.Hashes.{CarriesHash, hash_field};

use self::filter_writer::append_filter;
use crate::blob::Blob;
use crate::filter::Filter;
use crate::frame::Frame;
use crate::hash_kind::HashKind;
use crate::request::Request;
use crate::text::Text;
use std::alloc::{AllocError, Global};

/// Makes the frame of a request in this version. Fails only when out of memory. Client and number may have any values:
/// a service refuses a number of `NUMBER_LIMIT` or more.
pub fn request_frame(
    alloc: Global,
    version: u8,
    client: u32,
    number: u64,
    request: &Request,
) -> Result<Frame, AllocError>
    requires { Fits version request.now }
    ensures spells { IfOk result (λ frame. SpellsRequest version frame.kind frame.body request.now) }
    ensures version { IfOk result (λ frame. frame.version ≡ version) }
    ensures sender { IfOk result (λ frame. (frame.client ≡ client) × (frame.number ≡ number)) }
    ensures bytes { IfOk result (λ frame.
        frame_bytes frame
        ≡ spelling version (request_kind request.now) client number (request_body version request.now)) }
{
    Ok(Frame {
        version,
        kind: request.kind(),
        client,
        number,
        body: body_of(alloc, version, request)?,
    })
}

/// Makes the body, in a buffer of exactly its length. Fails only when out of memory.
fn body_of(alloc: Global, version: u8, request: &Request) -> Result<Blob, AllocError>
    requires { Fits version request.now }
    ensures { IfOk result (λ body. SpellsRequest version (request_kind request.now) body request.now) }
{
    let len = request.body_len(version).unwrap();
    let mut body = Vec::with_capacity(alloc, len)?;
    append_body(&mut body, version, request)?;
    Ok(Blob::from(body))
}

/// Appends the request's fields, one after the other.
fn append_body(out: &mut Vec<u8>, version: u8, request: &Request) -> Result<(), AllocError>
    requires lists { ListsFit request.now }
    requires hash { HashFits version request.now }
    ensures added { OnOk result (out.new.items ≡ out.old.items ++ request_body version request.now) }
    ensures spelled { OnOk result (HasSpelling version request.now) }
{
    match request {
        Request::CreateProfile {
            scan_limit,
            match_all,
            hash,
        } => append_options(out, version, *scan_limit, *match_all, *hash),
        Request::AddFolder {
            profile,
            parent,
            modified,
            name,
        } => append_folder(out, *profile, *parent, modified, name),
        Request::AddFile {
            profile,
            parent,
            modified,
            size,
            piece_size,
            name,
        } => append_file(out, *profile, *parent, modified, *size, *piece_size, name),
        Request::Piece {
            profile,
            file,
            index,
            bytes,
        } => append_piece(out, *profile, *file, *index, bytes),
        Request::Finish { profile, file } => append_pair(out, *profile, *file),
        Request::Abandon { profile, file } => append_pair(out, *profile, *file),
        Request::Status { profile, file } => append_pair(out, *profile, *file),
        Request::Export {
            profile,
            from,
            max,
            filter,
        } => append_export(out, *profile, *from, *max, filter),
    }
}

/// Appends the body of a CreateProfile: scan limit (four bytes), match_all (one), and the hash's kind.
fn append_options(
    out: &mut Vec<u8>,
    version: u8,
    scan_limit: u32,
    match_all: bool,
    hash: HashKind,
) -> Result<(), AllocError>
    requires { CarriesHash version hash }
    ensures added { OnOk result (out.new.items ≡ out.old.items
        ++ (u32_bytes scan_limit ++ (truth_bytes match_all ++ hash_field version hash))) }
    ensures spelled { OnOk result (IsU32 scan_limit × CarriesHash version hash) }
{
    append_u32(out, scan_limit)?;
    out.push(u8::from(match_all))?;
    append_hash(out, version, hash)?;
    Ok(())
}

/// Appends the kind of a hash in one byte, or nothing in version 1, which has no byte for it.
fn append_hash(out: &mut Vec<u8>, version: u8, hash: HashKind) -> Result<(), AllocError>
    ensures { OnOk result (out.new.items ≡ out.old.items ++ hash_field version hash) }
{
    if version == 1 {
        return Ok(());
    }
    out.push(hash.number())?;
    Ok(())
}

/// Appends the body of an AddFolder: profile, parent (four bytes each), modification time (eight), and the name.
fn append_folder(
    out: &mut Vec<u8>,
    profile: u32,
    parent: u32,
    modified: &i64,
    name: &Text,
) -> Result<(), AllocError>
    ensures added { OnOk result (out.new.items ≡ out.old.items
        ++ (u32_bytes profile ++ (u32_bytes parent ++ (i64_bytes modified.now ++ name.now)))) }
    ensures spelled { OnOk result (IsU32 profile × IsU32 parent × IsI64 modified.now × IsUtf8 name.now) }
{
    append_pair(out, profile, parent)?;
    append_i64(out, modified)?;
    append_name(out, name)?;
    Ok(())
}

/// Appends the body of an AddFile: profile, parent (four bytes each), modification time, size (eight each), piece size
/// (four), and the name.
fn append_file(
    out: &mut Vec<u8>,
    profile: u32,
    parent: u32,
    modified: &i64,
    size: u64,
    piece_size: u32,
    name: &Text,
) -> Result<(), AllocError>
    ensures added { OnOk result (out.new.items ≡ out.old.items
        ++ (u32_bytes profile
        ++ (u32_bytes parent ++ (i64_bytes modified.now ++ (u64_bytes size ++ (u32_bytes piece_size ++ name.now)))))) }
    ensures spelled { OnOk result
        (IsU32 profile × IsU32 parent × IsI64 modified.now × IsU64 size × IsU32 piece_size × IsUtf8 name.now) }
{
    append_pair(out, profile, parent)?;
    append_i64(out, modified)?;
    append_u64(out, size)?;
    append_u32(out, piece_size)?;
    append_name(out, name)?;
    Ok(())
}

/// Appends the body of a Piece: profile, file and index, four bytes each, and the piece's bytes.
fn append_piece(
    out: &mut Vec<u8>,
    profile: u32,
    file: u32,
    index: u32,
    bytes: &Blob,
) -> Result<(), AllocError>
    ensures added { OnOk result (out.new.items ≡ out.old.items
        ++ (u32_bytes profile ++ (u32_bytes file ++ (u32_bytes index ++ bytes.now)))) }
    ensures spelled { OnOk result (IsU32 profile × IsU32 file × IsU32 index × IsBytes bytes.now) }
{
    append_pair(out, profile, file)?;
    append_u32(out, index)?;
    append_bytes(out, bytes)?;
    Ok(())
}

/// Appends the body of an Export: profile (four bytes), from (eight), max (four), and the filter.
fn append_export(
    out: &mut Vec<u8>,
    profile: u32,
    from: u64,
    max: u32,
    filter: &Filter,
) -> Result<(), AllocError>
    requires { FilterFits filter.now }
    ensures added { OnOk result (out.new.items ≡ out.old.items
        ++ (u32_bytes profile ++ (u64_bytes from ++ (u32_bytes max ++ filter_bytes filter.now)))) }
    ensures spelled { OnOk result (IsU32 profile × IsU64 from × IsU32 max × IsFilter filter.now) }
{
    append_u32(out, profile)?;
    append_u64(out, from)?;
    append_u32(out, max)?;
    append_filter(out, filter)?;
    Ok(())
}

/// Appends a big-endian number of four bytes.
fn append_u32(out: &mut Vec<u8>, number: u32) -> Result<(), AllocError>
    ensures added { OnOk result (out.new.items ≡ out.old.items ++ u32_bytes number) }
    ensures spelled { IsU32 number }
{
    out.extend_from_slice(&number.to_be_bytes())
}

/// Appends a big-endian number of eight bytes.
fn append_u64(out: &mut Vec<u8>, wide: u64) -> Result<(), AllocError>
    ensures added { OnOk result (out.new.items ≡ out.old.items ++ u64_bytes wide) }
    ensures spelled { IsU64 wide }
{
    out.extend_from_slice(&wide.to_be_bytes())
}

/// Appends a signed number of eight bytes, in two's complement, big-endian.
fn append_i64(out: &mut Vec<u8>, signed: &i64) -> Result<(), AllocError>
    ensures added { OnOk result (out.new.items ≡ out.old.items ++ i64_bytes signed.now) }
    ensures spelled { IsI64 signed.now }
{
    let signed = *signed;
    out.extend_from_slice(&signed.to_be_bytes())
}

/// Appends a name, without its length: it is the last field of its body.
fn append_name(out: &mut Vec<u8>, name: &Text) -> Result<(), AllocError>
    ensures added { OnOk result (out.new.items ≡ out.old.items ++ name.now) }
    ensures utf8 { IsUtf8 name.now }
{
    let name = name.as_str();
    out.extend_from_slice(name.as_bytes())
}

/// Appends the bytes of a piece, without their length: they are the last field of its body.
fn append_bytes(out: &mut Vec<u8>, bytes: &Blob) -> Result<(), AllocError>
    ensures added { OnOk result (out.new.items ≡ out.old.items ++ bytes.now) }
    ensures are_bytes { IsBytes bytes.now }
{
    out.extend_from_slice(bytes.as_slice())
}

/// Appends two big-endian numbers of four bytes each: a profile, and the parent or the file.
fn append_pair(out: &mut Vec<u8>, first: u32, second: u32) -> Result<(), AllocError>
    ensures { OnOk result (out.new.items ≡ out.old.items ++ (u32_bytes first ++ u32_bytes second)) }
{
    append_u32(out, first)?;
    append_u32(out, second)
}
