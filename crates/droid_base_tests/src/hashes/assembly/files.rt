//! The calls of an assembly, with only the clauses that tests need, so that tests are proved quickly.

ghost use Rattle.std.specs.Prelude.{◌≡◌, IsSome, OnErr, OnOk, None};

use droid_assembly::{Assembly, Incomplete, PutFault, Spent};
use droid_frame::{Blob, HashValue};

/// Makes a piece the pending one.
pub fn put(assembly: &mut Assembly, index: u32, bytes: Blob) -> Result<(), PutFault>
    requires { assembly.old.pending ≡ None }
    ensures ok { OnOk result (IsSome assembly.new.pending) }
    ensures err { OnErr result (assembly.new.pending ≡ None) }
{
    assembly.put(index, bytes)
}

/// Keeps the pending piece.
pub fn settle(assembly: &mut Assembly) -> Spent
    requires { IsSome assembly.old.pending }
    ensures { assembly.new.pending ≡ None }
{
    assembly.settle()
}

/// Drops the pending piece.
pub fn take_back(assembly: &mut Assembly)
    requires { IsSome assembly.old.pending }
    ensures { assembly.new.pending ≡ None }
{
    assembly.take_back();
}

/// How a file ends: its hash and its windows, or the index of its first missing piece.
pub type End = Result<(HashValue, &'static str, &'static str), u32>;

/// Returns whether a file of this size ends so.
pub fn ends(assembly: &mut Assembly, size: u64, end: End) -> bool
    requires { assembly.old.pending ≡ None }
    ensures { assembly.new.pending ≡ None }
{
    match (assembly.seal(), end) {
        (Ok(sealed), Ok((hash, first, last))) => {
            let windows = assembly.windows();
            let right = windows.first == first.as_bytes() && windows.last == last.as_bytes();
            right && sealed.size == size && sealed.hash == hash
        }
        (Err(Incomplete { missing }), Err(wanted)) => missing == wanted,
        _ => false,
    }
}
