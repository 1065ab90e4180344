//! What follows from the header of a journal: its form, its start value and the place of its first record; and the
//! check value of the header itself.

ghost use Rattle.std.specs.Prelude.{◌≡◌, ◌++◌, IfOk};
ghost use Rattle.droid_journal.specs.Chains as chains;

use crate::records::comparison::is_same;
use crate::records::place::Place;
use md5::{Digest, Md5};
use std::alloc::AllocError;

/// The first line of a journal of version 3.
const FIRST_LINE_BEFORE: [u8; 21] = *b"droid_desk journal 3\n";

/// How many bytes the first line has: those of `FIRST_LINE_BEFORE`, as its type says.
const LINE: usize = 21;

/// The form of a journal.
#[derive(Clone, Copy)]
pub enum Form {
    /// Version 3: no marks. It is read, and gone on with.
    Before,
    /// Version 4.
    Present,
}

/// What all check values of a journal depend on.
#[derive(Clone, Copy)]
pub struct Key {
    /// The form of the journal.
    pub form: Form,
    /// The MD5 (RFC 1321) of its header.
    pub start: [u8; 16],
}

/// Computes the MD5 of a header: the start value of the journal, and the check value before its first record.
fn start_of(header: &[u8]) -> [u8; 16]
    ensures { result ≡ chains.first_check header.now }
{
    let mut hasher = Md5::new();
    hasher.update(header);
    hasher.finalize()
}

/// Returns the form of a journal with this header: version 3 if it begins with the first line of that, otherwise 4,
/// also for a header that is shorter than the line.
fn form_of(header: &[u8]) -> Form
    ensures { result ≡ chains.form_of header.now }
{
    if header.len() < LINE {
        return Form::Present;
    }
    let (line, _) = header.split_at(LINE);
    let before = is_same(line, FIRST_LINE_BEFORE.as_slice());
    if before {
        return Form::Before;
    }
    Form::Present
}

/// Computes what all check values of a journal with this header depend on.
pub fn key_of(header: &[u8]) -> Key
    ensures { result ≡ chains.key_of header.now }
{
    Key {
        form: form_of(header),
        start: start_of(header),
    }
}

/// Returns the place of the first record of a journal with this header.
pub fn first_place(header: &[u8]) -> Place
    ensures { result ≡ chains.first_place header.now }
{
    Place {
        at: header.len() as u64,
        check: start_of(header),
        records: 0,
    }
}

/// Appends to the bytes of a header of version 4 their check value, the MD5 of them all. Fails only if memory runs out.
pub fn checked(header: Vec<u8>) -> Result<Vec<u8>, AllocError>
    ensures { IfOk result (λ x. x.items ≡ chains.checked header.items) }
{
    let mut header = header;
    let mut hasher = Md5::new();
    hasher.update(&header);
    let check = hasher.finalize();
    header.extend_from_slice(&check)?;
    Ok(header)
}
