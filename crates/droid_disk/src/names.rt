//! Reads the names in a folder, and splits them where the zero bytes stand.

ghost use Rattle.std.specs.Prelude.{◌≡◌, ◌∷◌, ◌++◌, [], IfOk, IfSome, OnOk, filter};
ghost use Rattle.droid_disk.specs.Names.{is_entry, names_of};

use droid_frame::{Blob, InputFault, Noted, read_to_end};
use droid_tree::TreeFault;
use std::alloc::{AllocError, Global};
use std::io::Read;

/// How many bytes the names of one folder can have together, each with its zero byte: one less than 64 MiB. A folder
/// with more is unreadable. No clause and no test holds the number, and it is tied to no other.
const NAMES_LIMIT: usize = 67_108_863;

/// Reads the names of an open folder, without `.` and `..`. The kit gives them as bytes: each name, and a zero byte
/// after it. Fails with `Unreadable` if that can't be read or is too long.
pub(crate) fn read_names<D: Read + Drop>(alloc: Global, dir: D) -> Result<Vec<Blob>, TreeFault>
    ensures { IfOk result (λ names. IfSome (D.remaining dir) (λ bytes. names.items ≡ names_of bytes)) }
{
    match read_to_end(alloc, &mut Noted::new(dir), NAMES_LIMIT) {
        Ok(bytes) => match names_in(alloc, bytes.as_slice()) {
            Ok(names) => Ok(names),
            Err(_) => Err(TreeFault::Memory),
        },
        Err(InputFault::Memory) => Err(TreeFault::Memory),
        Err(InputFault::TooLong) => Err(TreeFault::Unreadable),
        Err(InputFault::Read) => Err(TreeFault::Unreadable),
    }
}

/// Returns the names in the bytes, each ended by a zero byte, without `.` and `..`. Fails only if memory runs out.
fn names_in(alloc: Global, bytes: &[u8]) -> Result<Vec<Blob>, AllocError>
    ensures { IfOk result (λ names. names.items ≡ names_of bytes.now) }
{
    let mut names = Vec::new(alloc);
    for name in bytes.split(|byte| *byte == 0) {
        add_entry(alloc, &mut names, name)?;
    }
    Ok(names)
}

/// Appends a name, unless it is empty, as behind the last zero byte, or `.` or `..`. Fails only if memory runs out.
#[tactic(auto, using(crate::proofs::FilteredParts::none_more, crate::proofs::FilteredParts::one_more))]
fn add_entry(alloc: Global, names: &mut Vec<Blob>, name: &[u8]) -> Result<(), AllocError>
    ensures { OnOk result (names.new.items ≡ names.old.items ++ filter is_entry (name.now ∷ [])) }
{
    if !is_entry(name) {
        return Ok(());
    }
    names.push(Blob::copy_of(alloc, name)?)?;
    Ok(())
}

/// Returns whether a name is that of an entry, and not empty, `.` or `..`.
fn is_entry(name: &[u8]) -> bool
    ensures { result ≡ is_entry name.now }
{
    !name.is_empty() && name != b".".as_slice() && name != b"..".as_slice()
}
