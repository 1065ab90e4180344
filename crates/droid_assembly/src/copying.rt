//! Copies bytes into memory that is reserved for them.

ghost use Rattle.std.specs.Prelude.{◌≡◌, ◌≤◌, ◌+◌, ◌++◌, length, drop, take, vec_len, vec_capacity};

use std::mem;

/// Appends bytes to a window. There must be room for them, so nothing is allocated. Without bytes it returns at once,
/// for speed: after the window is full this is the usual case.
#[inline(always)]
pub(crate) fn append(window: &mut Vec<u8>, bytes: &[u8])
    requires { vec_len window.old + length bytes.now ≤ vec_capacity window.old }
    ensures items { window.new.items ≡ window.old.items ++ bytes.now }
    ensures capacity { vec_capacity window.new ≡ vec_capacity window.old }
{
    if bytes.len() > 0 {
        append_some(window, bytes);
    }
}

/// Does the work of `append`. `push_reserved` is used because its contract says that the memory stays the same. The
/// buffer is moved into a local variable so that the compiler can vectorize the loop.
#[inline(never)]
fn append_some(window: &mut Vec<u8>, bytes: &[u8])
    requires { vec_len window.old + length bytes.now ≤ vec_capacity window.old }
    ensures items { window.new.items ≡ window.old.items ++ bytes.now }
    ensures capacity { vec_capacity window.new ≡ vec_capacity window.old }
{
    let alloc = *window.allocator();
    let mut filled = mem::replace(window, Vec::new(alloc));
    for byte in bytes {
        filled.push_reserved(*byte);
    }
    *window = filled;
}

/// Replaces the bytes of the block from index `at` on, as many as there are in `bytes`.
#[inline(always)]
pub(crate) fn overwrite(block: &mut [u8], at: usize, bytes: &[u8])
    requires { at + length bytes.now ≤ length block.old }
    ensures { block.new ≡ take at block.old ++ bytes.now ++ drop (at + length bytes.now) block.old }
{
    // For one byte a call would cost more than the copy.
    if bytes.len() == 1 {
        block[at] = bytes[0];
    } else {
        copy_over(block, at, bytes);
    }
}

/// Does the work of `overwrite` by a call of the kit's copy, for any number of bytes.
#[inline(never)]
fn copy_over(block: &mut [u8], at: usize, bytes: &[u8])
    requires { at + length bytes.now ≤ length block.old }
    ensures { block.new ≡ take at block.old ++ bytes.now ++ drop (at + length bytes.now) block.old }
{
    block[at..at + bytes.len()].copy_from_slice(bytes);
}
