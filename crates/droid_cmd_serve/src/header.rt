//! The header of the journal of the program's service: version 4 for new files, 3 or 4 as a file has it.
//!
//! It has the limits of the service (`LIMITS` of `fresh.rt`), the MD5 of the registry's bytes, and 16 random bytes.
//! docs/FORMATS.md has both forms. In clauses 4096 is the most bytes of a header that `droid_journal` takes, and 4080
//! that without the random bytes.

ghost use Rattle.std.specs.Prelude.{◌≡◌, ◌≤◌, ℕ, List, IfErr, IfOk, IsTrue, length, take};
ghost use Rattle.std.specs.Str.{bytes_eq};
ghost use Rattle.md5.specs.Md5.{md5};
ghost use Rattle.droid_cmd_serve.specs.Journals.{IsHeaderOf, IsNewHeaderOf, completed, header_text, header_text_before};
ghost use Rattle.droid_journal.specs.Headers.{IsMemoryOrRead};
ghost use Rattle.droid_journal.specs.Chains as chains;
ghost use Rattle.droid_journal.specs.Opening.{HasHeader};

use droid_journal::{Fault, LogFile, checked, header_for};
use md5::{Digest, Md5};
use std::alloc::{AllocError, Global};

/// How many bytes the first line of a journal has, of version 3 and of 4. The prover ties it to the lines.
const LINE: usize = 21;

/// The first line of a journal.
const FIRST_LINE: &str = "droid_desk journal 4\n";

/// The first line of a journal of version 3.
const FIRST_LINE_BEFORE: &str = "droid_desk journal 3\n";

/// The first lines of a journal of version 3: what it is, and the limits of the service that wrote it.
const FIRST_LINES_BEFORE: &str = "\
droid_desk journal 3
64 profiles, 100000 nodes, 64 unfinished files
";

/// Room for further limits, all zero. With the line of 21 bytes, 12 bytes of limits and 16 of MD5 the text has 80.
const NO_LIMITS: [u8; 31] = [0; 31];

/// Makes the header that a journal of the registry with these bytes has in this file: in the form of version 3 if the
/// file begins with its first line, or else in that of version 4. Of its random bytes the file's own stay, and the
/// missing ones are those of `random`.
pub(crate) fn header_in<F: LogFile>(
    alloc: Global,
    file: &F,
    registry: &[u8],
    random: &[u8; 16],
) -> Result<Vec<u8>, Fault>
    requires found { F.is_found file.now }
    ensures is_of { (s : List ℕ) → F.has file.now s → IfOk result (λ header. IsHeaderOf registry.now header.items) }
    // The header of the file's own journal, if it has one of this registry.
    ensures same { (s header : List ℕ) → F.has file.now s → IsHeaderOf registry.now header → HasHeader header s
        → IfOk result (λ it. it.items ≡ header) }
    ensures size { IfOk result (λ header. length header.items ≤ 4096) }
    ensures fault { IfErr result IsMemoryOrRead }
{
    let before = match is_before(file) {
        Ok(before) => before,
        Err(_) => return Err(Fault::Read),
    };
    if before {
        return header_before(alloc, file, registry, random);
    }
    header_present(alloc, file, registry, random)
}

/// Makes the header of a new journal, of version 4, of the registry with these bytes. Fails only if memory runs out.
pub(crate) fn new_header(
    alloc: Global,
    registry: &[u8],
    random: &[u8; 16],
) -> Result<Vec<u8>, AllocError>
    ensures { IfOk result (λ header. IsNewHeaderOf registry.now header.items) }
{
    let mut front = header_text(alloc, registry)?;
    front.extend_from_slice(random)?;
    let whole = checked(front)?;
    Ok(whole)
}

/// Returns whether a file begins with the first line of version 3. An empty or shorter file does not.
fn is_before<F: LogFile>(file: &F) -> Result<bool, Fault>
    requires found { F.is_found file.now }
    ensures line { (s : List ℕ) → F.has file.now s
        → IfOk result (λ before. before ≡ bytes_eq (take 21 s) chains.first_line_before) }
    ensures fault { IfErr result (λ fault. fault ≡ Fault.Read) }
{
    let mut line = [0u8; LINE];
    let Ok(count) = file.read_at(0, &mut line) else {
        return Err(Fault::Read);
    };
    let before = is_first_line_before(&line[..count]);
    Ok(before)
}

/// Returns whether these bytes are the first line of version 3.
fn is_first_line_before(line: &[u8]) -> bool
    ensures { result ≡ bytes_eq line.now chains.first_line_before }
{
    line == FIRST_LINE_BEFORE.as_bytes()
}

/// Makes the header of version 3 that a journal of the registry with these bytes has in this file. Its text is followed
/// by the random bytes, and there is no check value.
fn header_before<F: LogFile>(
    alloc: Global,
    file: &F,
    registry: &[u8],
    random: &[u8; 16],
) -> Result<Vec<u8>, Fault>
    requires found { F.is_found file.now }
    ensures text { (s : List ℕ) → F.has file.now s
        → IfOk result (λ header. header.items ≡ completed (header_text_before registry.now) s random.now) }
    ensures size { IfOk result (λ header. length header.items ≤ 4096) }
    ensures fault { IfErr result IsMemoryOrRead }
{
    let text = header_text_before(alloc, registry)?;
    match header_for(alloc, file, &text, random) {
        Ok(header) => Ok(header),
        Err(fault) => Err(fault),
    }
}

/// Makes the header of version 4 that a journal of the registry with these bytes has in this file, or is to have in a
/// new one: text, random bytes and check value.
fn header_present<F: LogFile>(
    alloc: Global,
    file: &F,
    registry: &[u8],
    random: &[u8; 16],
) -> Result<Vec<u8>, Fault>
    requires found { F.is_found file.now }
    ensures text { (s : List ℕ) → F.has file.now s
        → IfOk result (λ header. header.items ≡ chains.checked (completed (header_text registry.now) s random.now)) }
    ensures size { IfOk result (λ header. length header.items ≤ 4096) }
    ensures fault { IfErr result IsMemoryOrRead }
{
    let text = header_text(alloc, registry)?;
    let front = match header_for(alloc, file, &text, random) {
        Ok(front) => front,
        Err(fault) => return Err(fault),
    };
    let header = checked(front)?;
    Ok(header)
}

/// Spells the fixed part of a journal's header: its first line, the limits of the service in four bytes each, and the
/// MD5 of the registry's bytes. Fails only if memory runs out, as the next one. The three numbers are those of
/// `LIMITS`, profiles, nodes and unfinished files; the clause ties them to `specs/Journals.antt`, and nothing to
/// `LIMITS`.
fn header_text(alloc: Global, registry: &[u8]) -> Result<Vec<u8>, AllocError>
    ensures text { IfOk result (λ text. text.items ≡ header_text registry.now) }
    ensures size { IfOk result (λ text. length text.items ≡ 80) }
{
    let digest = digest_of(registry);
    let mut text = Vec::from_slice(alloc, FIRST_LINE.as_bytes())?;
    text.extend_from_slice(&64u32.to_be_bytes())?;
    text.extend_from_slice(&100_000u32.to_be_bytes())?;
    text.extend_from_slice(&64u32.to_be_bytes())?;
    text.extend_from_slice(&NO_LIMITS)?;
    text.extend_from_slice(&digest)?;
    Ok(text)
}

/// Spells the fixed part of the header of a journal of version 3: its first lines, and the MD5 of the registry's bytes.
fn header_text_before(alloc: Global, registry: &[u8]) -> Result<Vec<u8>, AllocError>
    ensures text { IfOk result (λ text. text.items ≡ header_text_before registry.now) }
    ensures size { IfOk result (λ text. length text.items ≤ 4080) }
{
    let digest = digest_of(registry);
    let mut text = Vec::from_slice(alloc, FIRST_LINES_BEFORE.as_bytes())?;
    text.extend_from_slice(&digest)?;
    Ok(text)
}

/// Computes the MD5 (RFC 1321) of a registry's bytes.
fn digest_of(bytes: &[u8]) -> [u8; 16]
    ensures { result ≡ md5 bytes.now }
{
    let mut hasher = Md5::new();
    hasher.update(bytes);
    hasher.finalize()
}
