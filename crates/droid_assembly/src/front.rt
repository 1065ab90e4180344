//! The front of a file: what is kept of the bytes before the first missing piece, and how these bytes reach it.
//!
//! A clause `ensures*` with `sem 𝓛` is of the kit: it holds once the loan of the result has ended.

ghost use Rattle.std.specs.Prelude.{◌≡◌, ◌++◌, [], ℕ, List, IfOk, vec_capacity};
ghost use Rattle.droid_assembly.specs.Fronts.{IsFront, FrontKnows};
ghost use Rattle.droid_assembly.specs.FrontLending.{StaysUnchanged, BufferStays, LendsItems};
ghost use Rattle.droid_frame.specs.RunningHashes.{running_kind, HoldsAll};
ghost use Rattle.droid_frame.specs.Hashes.{hash};
ghost use Rattle.std.specs.Borrow.{sem};

use crate::copying::append;
use crate::windows::Windows;
use circular_buffer::HeapCircularBuffer;
use droid_frame::{HashKind, HashValue, RunningHash};
use std::alloc::{AllocError, Global};

/// What the assembly keeps of the front of a file, the bytes before the first missing piece: the first and the last of
/// them, and the hash of all of them so far.
#[derive(Drop)]
pub(crate) struct Front {
    first: Vec<u8>,
    last: HeapCircularBuffer<u8>,
    hash: RunningHash,
    width: usize,
}

impl Front {
    /// Makes an empty front, with room for `width` bytes in each window, and a hash of this kind. Fails only when out
    /// of memory.
    pub(crate) fn with_room(
        alloc: Global,
        width: usize,
        kind: HashKind,
    ) -> Result<Front, AllocError>
        ensures sound { IfOk result IsFront }
        ensures width { IfOk result (λ front. front.width ≡ width) }
        ensures first_reserved { IfOk result (λ front. vec_capacity front.first ≡ width) }
        ensures last_reserved { IfOk result (λ front. front.last.capacity ≡ width) }
        ensures kind { IfOk result (λ front. running_kind front.hash ≡ kind) }
        ensures knows { IfOk result (λ front. FrontKnows front []) }
    {
        Ok(Front {
            first: Vec::with_capacity(alloc, width)?,
            last: HeapCircularBuffer::with_capacity(alloc, width)?,
            hash: RunningHash::of(kind),
            width,
        })
    }

    /// Adds the next bytes of the file: to the first window as far as there is room, to the last one in the place of
    /// the oldest bytes, and to the hash. Allocates nothing.
    pub(crate) fn take(&mut self, bytes: &[u8])
        requires { IsFront self.old }
        ensures sound { IsFront self.new }
        ensures width { self.new.width ≡ self.old.width }
        ensures kind { running_kind self.new.hash ≡ running_kind self.old.hash }
        ensures knows { (before : List ℕ) → FrontKnows self.old before → FrontKnows self.new (before ++ bytes.now) }
    {
        let count = bytes.len().min(self.width - self.first.len());
        append(&mut self.first, &bytes[..count]);
        self.last.extend_from_slice(bytes);
        self.hash.update(bytes);
    }

    /// Returns the hash of the bytes so far. After this call the running hash covers nothing that is promised, so the
    /// only caller, `hash_of` of `assembly`, keeps the value.
    pub(crate) fn finish(&mut self) -> HashValue
        ensures value { (before : List ℕ) → HoldsAll self.old.hash before
            → result ≡ hash (running_kind self.old.hash) before }
        ensures kind { running_kind self.new.hash ≡ running_kind self.old.hash }
        ensures first { self.new.first ≡ self.old.first }
        ensures last { self.new.last ≡ self.old.last }
        ensures width { self.new.width ≡ self.old.width }
    {
        self.hash.finish()
    }

    /// Returns the two windows of the bytes so far. Moves the last bytes so that they are in order in memory, which no
    /// clause sees.
    pub(crate) fn windows(&mut self) -> Windows<'_>
        // Holds once the loan of the result has ended.
        ensures* unchanged { sem 𝓛 (StaysUnchanged self.entry) }
        ensures first { result.first.now ≡ self.old.first.items }
        ensures last { result.last.now ≡ self.old.last.items }
    {
        Windows {
            first: self.first.as_slice(),
            last: straight(&mut self.last),
        }
    }
}

/// Moves the bytes of a buffer into one slice, and lends it. The buffer then has what was written into the slice.
fn lend(buffer: &mut HeapCircularBuffer<u8>) -> &mut [u8]
    ensures* writes_back { sem 𝓛 (LendsItems buffer.entry result) }
    ensures value { result.now ≡ buffer.old.items }
{
    buffer.make_contiguous()
}

/// Moves the bytes of a buffer into one slice, and lends it to be read. A function of its own, since its proof by hand
/// follows its body.
fn straight(buffer: &mut HeapCircularBuffer<u8>) -> &[u8]
    ensures* unchanged { sem 𝓛 (BufferStays buffer.entry) }
    ensures value { result.now ≡ buffer.old.items }
{
    lend(buffer)
}
