//! Writes the line of a file in a list of checksums: the digest in lower-case digits, two spaces, the path, a line
//! feed.

ghost use Rattle.std.specs.Prelude.{◌≡◌, ◌++◌, ◌∷◌, [], OnErr, OnOk};
ghost use Rattle.std.specs.List.{list_any};
ghost use Rattle.hex.specs.Hex.{encode_lower};
ghost use Rattle.droid_fixity.specs.Spellings as spellings;
ghost use Rattle.droid_fixity.specs.Writing.{KeepsFront};
ghost use Rattle.droid_fixity.specs.Writing as writing;

use droid_frame::HashValue;
use std::alloc::AllocError;

/// Appends the line of a file, as `md5sum` and `sha256sum` write it and `md5sum -c` and `sha256sum -c` check it in the
/// folder.
///
/// `path` is the path of the file below the folder, with or without a `/` in front. A file without a hash has no line.
/// If memory runs out, `text` is unchanged.
pub fn add_line(text: &mut Vec<u8>, hash: HashValue, path: &str) -> Result<(), AllocError>
    ensures added { OnOk result (text.new.items ≡ text.old.items ++ writing.line hash path.now) }
    ensures unchanged { OnErr result (text.new.items ≡ text.old.items) }
{
    let before = text.len();
    match add_line_below(text, hash, shown(without_slash(path.as_bytes()))) {
        Ok(()) => Ok(()),
        Err(error) => {
            text.truncate(before);
            Err(error)
        }
    }
}

/// Returns a path without the one slash in front, if it has one, as lists have it.
fn without_slash(path: &[u8]) -> &[u8]
    ensures { result.now ≡ writing.without_slash path.now }
{
    match path.split_first() {
        Some((first, rest)) => { if *first == b'/' { rest } else { path } }
        None => path,
    }
}

/// Returns the path as it is written: `-` as `./-`, because `md5sum -c` would read standard input for `-` alone; any
/// other as it is.
fn shown(path: &[u8]) -> &[u8]
    ensures { result.now ≡ writing.shown path.now }
{
    if path == b"-".as_slice() {
        return b"./-".as_slice();
    }
    path
}

/// Appends the line of a file whose path below the folder is written as `path`; nothing for a file without a hash.
/// After an error `text` may end in part of a line: `add_line` cuts that off.
fn add_line_below(text: &mut Vec<u8>, hash: HashValue, path: &[u8]) -> Result<(), AllocError>
    ensures added { OnOk result (text.new.items ≡ text.old.items ++ writing.line_below hash path.now) }
    ensures front { KeepsFront text.old.items text.new.items }
{
    match hash {
        HashValue::Nothing => Ok(()),
        HashValue::Md5(digest) => add_line_by(text, md5_digits(digest).as_slice(), path),
        HashValue::Sha256(digest) => add_line_by(text, sha256_digits(digest).as_slice(), path),
    }
}

/// Returns the 32 lower-case digits of an MD5. The encoder fails only where the buffer has not two digits for each
/// byte, so never here.
fn md5_digits(digest: [u8; 16]) -> [u8; 32]
    ensures { result ≡ encode_lower digest }
{
    let mut digits = [0; 32];
    match hex::encode_to_slice(digest.as_slice(), &mut digits) {
        Ok(()) => digits,
        Err(_) => unreachable!(),
    }
}

/// Returns the 64 lower-case digits of a SHA-256. The encoder fails only where the buffer has not two digits for each
/// byte, so never here.
fn sha256_digits(digest: [u8; 32]) -> [u8; 64]
    ensures { result ≡ encode_lower digest }
{
    let mut digits = [0; 64];
    match hex::encode_to_slice(digest.as_slice(), &mut digits) {
        Ok(()) => digits,
        Err(_) => unreachable!(),
    }
}

/// Appends the line with these digits: an escaped one if the path has a byte that asks for it.
fn add_line_by(text: &mut Vec<u8>, digits: &[u8], path: &[u8]) -> Result<(), AllocError>
    ensures added { OnOk result (text.new.items ≡ text.old.items ++ writing.line_by digits.now path.now) }
    ensures front { KeepsFront text.old.items text.new.items }
{
    if has_escaped(path) {
        add_escaped_line(text, digits, path)
    } else {
        add_plain_line(text, digits, path)
    }
}

/// Returns whether a path has a byte that is escaped: then its whole line is written in the escaped form.
fn has_escaped(path: &[u8]) -> bool
    ensures { result ≡ list_any spellings.is_escaped path.now }
{
    path.iter().any(|byte| is_escaped(*byte))
}

/// Returns whether a byte of a path is written with a backslash: a backslash, a line feed or a carriage return.
fn is_escaped(byte: u8) -> bool
    ensures { result ≡ spellings.is_escaped byte }
{
    byte == b'\\' || byte == b'\n' || byte == b'\r'
}

/// Appends the line of a file whose path has nothing to escape. After an error `text` may end in part of it.
fn add_plain_line(text: &mut Vec<u8>, digits: &[u8], path: &[u8]) -> Result<(), AllocError>
    ensures added { OnOk result (text.new.items ≡ text.old.items ++ writing.plain_line digits.now path.now) }
    ensures front { KeepsFront text.old.items text.new.items }
{
    add_digits(text, digits)?;
    text.extend_from_slice(path)?;
    text.push(b'\n')?;
    Ok(())
}

/// Appends the line of a file whose path is escaped, with a backslash in front of the digits. After an error `text` may
/// end in part of it.
fn add_escaped_line(text: &mut Vec<u8>, digits: &[u8], path: &[u8]) -> Result<(), AllocError>
    ensures added { OnOk result
        (text.new.items ≡ text.old.items ++ 92 ∷ writing.plain_line digits.now (spellings.escaped path.now)) }
    ensures front { KeepsFront text.old.items text.new.items }
{
    text.push(b'\\')?;
    add_digits(text, digits)?;
    add_escaped(text, path)?;
    text.push(b'\n')?;
    Ok(())
}

/// Appends the digits and the two spaces that stand before the path.
fn add_digits(text: &mut Vec<u8>, digits: &[u8]) -> Result<(), AllocError>
    ensures added { OnOk result (text.new.items ≡ text.old.items ++ (digits.now ++ 32 ∷ 32 ∷ [])) }
    ensures front { KeepsFront text.old.items text.new.items }
{
    text.extend_from_slice(digits)?;
    text.extend_from_slice(b"  ")?;
    Ok(())
}

/// Appends a path, its backslashes, line feeds and carriage returns as `\\`, `\n` and `\r`.
fn add_escaped(text: &mut Vec<u8>, path: &[u8]) -> Result<(), AllocError>
    ensures added { OnOk result (text.new.items ≡ text.old.items ++ spellings.escaped path.now) }
    ensures front { KeepsFront text.old.items text.new.items }
{
    for byte in path {
        add_escaped_byte(text, *byte)?;
    }
    Ok(())
}

/// Appends a byte of a path: two characters if it is escaped, otherwise itself. The three cases are those of
/// `is_escaped`.
fn add_escaped_byte(text: &mut Vec<u8>, byte: u8) -> Result<(), AllocError>
    ensures added { OnOk result (text.new.items ≡ text.old.items ++ spellings.escaped_byte byte) }
    ensures front { KeepsFront text.old.items text.new.items }
{
    if byte == b'\\' {
        text.extend_from_slice(b"\\\\")?;
    } else if byte == b'\n' {
        text.extend_from_slice(b"\\n")?;
    } else if byte == b'\r' {
        text.extend_from_slice(b"\\r")?;
    } else {
        text.push(byte)?;
    }
    Ok(())
}
