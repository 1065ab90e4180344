//! Memory: only `new` allocates, reports out of memory, and succeeds when it is called again.

ghost use Rattle.std.specs.Prelude.{◌≡◌, IfOk, None};

use crate::hashes::assembly::files::{ends, put, settle, take_back};
use crate::hashes::assembly::steps::MD5_OF_ABC;
use droid_assembly::Assembly;
use droid_frame::{Blob, HashKind, HashValue};
use std::alloc::{AllocError, Global};
use std::test::Fail;

fn blob(alloc: Global, bytes: &[u8]) -> Result<Blob, AllocError> {
    Blob::copy_of(alloc, bytes).or_else(|_| Blob::copy_of(alloc, bytes))
}

/// Makes an assembly for `abc` in pieces of two.
fn empty_assembly(alloc: Global) -> Result<Assembly, AllocError>
    ensures { IfOk result (λ assembly. assembly.pending ≡ None) }
{
    Assembly::new(alloc, 3, 2, 2, HashKind::Md5).or_else(|_| Assembly::new(
        alloc,
        3,
        2,
        2,
        HashKind::Md5,
    ))
}

/// Makes every call after `new`, with pieces that were allocated before. Returns whether each does what it has to.
fn call_each(assembly: &mut Assembly, first: Blob, again: Blob, last: Blob) -> bool
    requires { assembly.old.pending ≡ None }
{
    if put(assembly, 1, last).is_err() {
        return false;
    }
    let passed = settle(assembly).len();
    if put(assembly, 0, first).is_err() {
        return false;
    }
    let pending = assembly.pending();
    take_back(assembly);
    let incomplete = assembly.seal().is_err();
    if put(assembly, 0, again).is_err() {
        return false;
    }
    let spent = settle(assembly);
    let handed = spent.len() == 2 && spent.get(0).is_some() && spent.get(2).is_none();
    let views = (assembly.held(), assembly.missing(), assembly.kept_bytes());
    let end = Ok((HashValue::Md5(MD5_OF_ABC), "ab", "bc"));
    let right = passed == 0 && pending == Some(0) && incomplete && handed && views == (2, 2, 4);
    right && ends(assembly, 3, end) && ends(assembly, 3, end)
}

// This test passes if any one allocation fails: tests/memory makes each fail in turn.
#[test]
fn each_growth_refused(rt: HostRuntime) -> Result<(), Fail> {
    let alloc = rt.alloc();
    let mut assembly = empty_assembly(alloc)?;
    let (first, again, last) = (blob(alloc, b"ab")?, blob(alloc, b"ab")?, blob(alloc, b"c")?);
    assert!(rt; call_each(&mut assembly, first, again, last));
    Ok(())
}

// This test and the one above make the same number of allocations, so no call after `new` allocates: tests/memory
// counts both.
#[test]
fn growths_without_calls(rt: HostRuntime) -> Result<(), Fail> {
    let alloc = rt.alloc();
    let assembly = empty_assembly(alloc)?;
    let (first, again, last) = (blob(alloc, b"ab")?, blob(alloc, b"ab")?, blob(alloc, b"c")?);
    let lengths = (first.len(), again.len(), last.len());
    assert!(rt; assembly.held() == 0 && lengths == (2, 2, 1));
    Ok(())
}
