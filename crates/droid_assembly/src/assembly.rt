//! The pieces of one unfinished file: takes them in any order, and makes the file's windows and its hash of them. The
//! 16 of the clauses is `AHEAD` of `places`; the prover ties them.

ghost use Rattle.std.specs.Prelude.{◌≡◌, ◌+◌, ◌-◌, ◌*◌, ◌^◌, ◌<◌, ◌≤◌, ◌↔◌, ◌++◌, ◌∷◌, [], ℕ, List, length, min, IsOk};
ghost use Rattle.std.specs.Prelude.{IfOk, IfErr, OnOk, OnErr, IsErrOf, IsTrue, IsSome, None, Some, option_map};
ghost use Rattle.std.specs.Prelude.{MatchBool};
ghost use Rattle.std.specs.Bool.{OnFalse};
ghost use Rattle.droid_assembly.specs.Pieces.{Piece, AreSizes, IsDue, HasIndex, LacksIndex, held as held_of};
ghost use Rattle.droid_assembly.specs.Pieces.{missing as missing_of, kept_bytes as kept_of, file_bytes, first_window};
ghost use Rattle.droid_assembly.specs.Pieces.{last_window};
ghost use Rattle.droid_assembly.specs.State.{StandsFor, IsComplete, IsOfSameFile, IsUnchanged, IsHashOf, count_of};
ghost use Rattle.droid_assembly.specs.State.{hash_kind_of, with_pending, pending_bytes as pending_len, slot};
ghost use Rattle.droid_assembly.specs.Kept.{pieces_from};
ghost use Rattle.droid_frame.specs.RunningHashes.{running_kind};
ghost use Rattle.droid_frame.specs.Hashes.{hash, IsHashValue};
ghost use Rattle.std.specs.Borrow.{sem};

use crate::fault::{Incomplete, PutFault};
use crate::front::Front;
use crate::needless_pieces::Spent;
use crate::places::{AHEAD, arrive, empty_places};
use crate::seal::Sealed;
use crate::windows::Windows;
use droid_frame::{Blob, HashKind, HashValue};
use std::alloc::{AllocError, Global};
use std::marker::Model;

/// The pieces of one unfinished file. They can come in any order.
///
/// [`put`](Assembly::put) makes a piece pending. The caller then commits it elsewhere, and calls
/// [`settle`](Assembly::settle) to keep the piece, or [`take_back`](Assembly::take_back) to drop it. The assembly keeps
/// no piece before the first missing one: it keeps their first and last bytes (the windows) and their hash so far.
pub struct Assembly {
    size: u64,
    piece_size: u32,
    scan_limit: u32,
    held: u32,
    missing: u32,
    settled_bytes: u64,
    front: Front,
    hashed: Option<HashValue>,
    // The settled pieces after the first missing one. A piece is at its index modulo 16.
    waiting: Vec<Option<Blob>>,
    pending: Option<(u32, Blob)>,
}

// Written by hand, so that the crates above do not prove again how each part is dropped.
impl Drop for Assembly {
    fn drop(self) {
        let Assembly {
            size: _size,
            piece_size: _piece_size,
            scan_limit: _scan_limit,
            held: _held,
            missing: _missing,
            settled_bytes: _settled_bytes,
            front: _front,
            hashed: _hashed,
            waiting: _waiting,
            pending: _pending,
        } = self;
    }
}

impl Model for Assembly {
    ghost use Rattle.droid_assembly.specs.State.{State};

    ghost Value = { State };

    ghost use Rattle.droid_assembly.specs.Kept.{IsConsistent};
    ghost use Rattle.droid_assembly.specs.Fields.{state_of};

    ghost view = { state_of };

    ghost invariant = { λ a. IsConsistent (state_of a) a.front };
}

impl Assembly {
    ghost use Rattle.droid_assembly.specs.Lending.{StaysUnchanged};

    /// Makes an assembly without pieces, for a file of `size` bytes in pieces of `piece_size` bytes. Each window has
    /// `scan_limit` bytes, and the file gets this kind of hash. The limits on the sizes are this project's own. It
    /// reserves two windows and sixteen places for pieces, and fails only when out of memory. No later call allocates.
    pub fn new(
        alloc: Global,
        size: u64,
        piece_size: u32,
        scan_limit: u32,
        hash: HashKind,
    ) -> Result<Assembly, AllocError>
        requires { AreSizes size piece_size scan_limit }
        ensures size { IfOk result (λ assembly. assembly.size ≡ size) }
        ensures piece_size { IfOk result (λ assembly. assembly.piece_size ≡ piece_size) }
        ensures scan_limit { IfOk result (λ assembly. assembly.scan_limit ≡ scan_limit) }
        ensures hash { IfOk result (λ assembly. hash_kind_of assembly ≡ hash) }
        ensures none_pending { IfOk result (λ assembly. assembly.pending ≡ None) }
        ensures reserved { IfOk result (λ assembly. assembly.reserved
            ≡ record { first = min size scan_limit; last = min size scan_limit; waiting = 16 }) }
        ensures stands { IfOk result (λ assembly. StandsFor assembly []) }
    {
        let width = size.min(u64::from(scan_limit)) as usize;
        Ok(Assembly {
            size,
            piece_size,
            scan_limit,
            held: 0,
            missing: 0,
            settled_bytes: 0,
            front: Front::with_room(alloc, width, hash)?,
            hashed: None,
            waiting: empty_places(alloc)?,
            pending: None,
        })
    }

    /// Makes the piece of this index, with these bytes, the pending one. On a fault it returns the bytes, and the
    /// assembly is unchanged.
    pub fn put(&mut self, index: u32, bytes: Blob) -> Result<(), PutFault>
        requires { self.old.pending ≡ None }
        // The first of these faults that applies is returned.
        ensures bad_piece { IsErrOf result (PutFault.BadPiece bytes)
            ↔ (¬ IsDue self.old.size self.old.piece_size (index, bytes)) }
        ensures piece_held { (pieces : List Piece) → StandsFor self.old pieces
            → (IsErrOf result (PutFault.PieceHeld bytes)
            ↔ (IsDue self.old.size self.old.piece_size (index, bytes) × HasIndex pieces index)) }
        ensures too_far_ahead { (pieces : List Piece) → StandsFor self.old pieces
            → let missing = missing_of (count_of self.old) pieces in
            (IsErrOf result (PutFault.TooFarAhead missing bytes)
            ↔ (IsDue self.old.size self.old.piece_size (index, bytes) × LacksIndex pieces index
            × (missing + 16 ≤ index))) }
        ensures ok { (pieces : List Piece) → StandsFor self.old pieces
            → let missing = missing_of (count_of self.old) pieces in
            (IsOk result
            ↔ (IsDue self.old.size self.old.piece_size (index, bytes) × LacksIndex pieces index
            × (index < missing + 16))) }

        // What stands afterwards.
        ensures pending { OnOk result (self.new ≡ with_pending self.old (Some (index, bytes))) }
        ensures err { OnErr result (self.new ≡ self.old) }
        ensures stands { (pieces : List Piece) → StandsFor self.old pieces → StandsFor self.new pieces }
    {
        if !self.is_due(index, &bytes) {
            return Err(PutFault::BadPiece { bytes });
        }
        if self.is_held(index) {
            return Err(PutFault::PieceHeld { bytes });
        }
        let missing = self.missing();
        if index >= missing + AHEAD {
            return Err(PutFault::TooFarAhead { missing, bytes });
        }
        self.pending = Some((index, bytes));
        Ok(())
    }

    /// Returns the index of the pending piece, or `None` if no piece is pending.
    pub fn pending(&self) -> Option<u32>
        ensures { result ≡ option_map (λ piece. piece.0) self.now.pending }
    {
        self.pending.as_ref().map(|piece| piece.0)
    }

    /// Drops the pending piece. The assembly is then as it was before its `put`.
    pub fn take_back(&mut self)
        requires { IsSome self.old.pending }
        ensures as_before { self.new ≡ with_pending self.old None }
        ensures stands { (pieces : List Piece) → StandsFor self.old pieces → StandsFor self.new pieces }
    {
        self.pending = None;
    }

    /// Keeps the pending piece. Returns the pieces that the assembly no longer needs, in order of index. Allocates
    /// nothing.
    #[inline(always)]
    pub fn settle(&mut self) -> Spent
        requires { IsSome self.old.pending }
        ensures stands { (pieces : List Piece) (piece : Piece) → StandsFor self.old pieces
            → self.old.pending ≡ Some piece → StandsFor self.new (pieces ++ piece ∷ []) }
        ensures same_file { IsOfSameFile self.old self.new }
        ensures none_pending { self.new.pending ≡ None }

        // These are the pieces from the old first missing index up to the new one.
        ensures spent { (pieces : List Piece) (piece : Piece) → StandsFor self.old pieces
            → self.old.pending ≡ Some piece
            → let before = missing_of (count_of self.old) pieces in
            let after = missing_of (count_of self.old) (pieces ++ piece ∷ []) in
            result ≡ pieces_from before (after - before) (pieces ++ piece ∷ []) }
        ensures few { length result ≤ 16 }
    {
        let (index, bytes) = self.pending.take().unwrap();
        self.held += 1;
        self.settled_bytes += bytes.len() as u64;
        let (waiting, front) = (&mut self.waiting, &mut self.front);
        arrive(waiting, front, &mut self.missing, index, bytes)
    }

    /// Returns the number of settled pieces.
    pub fn held(&self) -> u32
        ensures count { (pieces : List Piece) → StandsFor self.now pieces → result ≡ held_of pieces }

        // Each assembly stands for some list of pieces.
        ensures stands { (pieces : List Piece) × StandsFor self.now pieces }

        // At most 16 of them come after the first missing one.
        ensures few { result ≤ 2 ^ 20 + 16 }
    {
        self.held
    }

    /// Returns the index of the first missing piece, or the number of pieces if none is missing.
    pub fn missing(&self) -> u32
        ensures least { (pieces : List Piece) → StandsFor self.now pieces
            → result ≡ missing_of (count_of self.now) pieces }
        ensures within { result ≤ count_of self.now }
        ensures complete { IsComplete self.now ↔ (result ≡ count_of self.now) }
    {
        self.missing
    }

    /// Returns the number of bytes kept: those of the two windows, of the waiting pieces and of the pending piece.
    pub fn kept_bytes(&self) -> u64
        ensures kept { (pieces : List Piece) → StandsFor self.now pieces
            → result ≡ kept_of self.now.scan_limit (count_of self.now) pieces + pending_len self.now.pending }
        ensures bound { result ≤ 2 * min self.now.scan_limit self.now.size + 16 * self.now.piece_size }

        // The largest number for any sizes, and for any sizes with pieces of at most 1,048,576 bytes.
        ensures most { result ≤ 67239936 }
        ensures most_of_small { self.now.piece_size ≤ 1048576 → result ≤ 16908288 }
    {
        let passed = self
            .size
            .min(u64::from(self.missing) * u64::from(self.piece_size));
        let windows = 2 * passed.min(u64::from(self.scan_limit));
        windows + (self.settled_bytes - passed) + self.pending_bytes()
    }

    /// Returns the size and the hash of the whole file, or the index of the first missing piece. It can be called
    /// again, with the same result. Allocates nothing.
    pub fn seal(&mut self) -> Result<Sealed, Incomplete>
        requires { self.old.pending ≡ None }
        ensures complete { IsOk result ↔ IsComplete self.old }
        ensures all_there { (pieces : List Piece) → StandsFor self.old pieces
            → (IsOk result ↔ (missing_of (count_of self.old) pieces ≡ count_of self.old)) }
        ensures size { (pieces : List Piece) → StandsFor self.old pieces
            → IfOk result (λ sealed. sealed.size ≡ length (file_bytes (count_of self.old) pieces)) }
        ensures same_size { IfOk result (λ sealed. sealed.size ≡ self.old.size) }
        ensures hash { (pieces : List Piece) → StandsFor self.old pieces
            → IfOk result (λ sealed.
            sealed.hash ≡ hash (hash_kind_of self.old) (file_bytes (count_of self.old) pieces)) }
        ensures length { IfOk result (λ sealed. IsHashValue sealed.hash) }
        ensures incomplete { (pieces : List Piece) → StandsFor self.old pieces
            → IfErr result (λ fault. fault.missing ≡ missing_of (count_of self.old) pieces) }
        ensures some_missing { (pieces : List Piece) → StandsFor self.old pieces
            → OnErr result (missing_of (count_of self.old) pieces < count_of self.old) }

        // What stands afterwards.
        ensures still_complete { OnOk result (IsComplete self.new) }
        ensures unchanged { IsUnchanged self.old self.new }
        ensures err { OnErr result (self.new ≡ self.old) }
    {
        if self.missing() < self.count() {
            return Err(Incomplete {
                missing: self.missing(),
            });
        }
        Ok(Sealed {
            size: self.size,
            hash: hash_of(&mut self.hashed, &mut self.front),
        })
    }

    /// Returns the first and the last bytes of the whole file, up to the scan limit each. It can be called again, with
    /// the same result. Allocates nothing.
    pub fn windows(&mut self) -> Windows<'_>
        requires complete { IsComplete self.old }
        requires none_pending { self.old.pending ≡ None }
        // Holds once the loan of the result has ended.
        ensures* unchanged { sem 𝓛 (StaysUnchanged self.entry) }
        ensures first { (pieces : List Piece) → StandsFor self.old pieces
            → result.first.now ≡ first_window self.old.scan_limit (file_bytes (count_of self.old) pieces) }
        ensures last { (pieces : List Piece) → StandsFor self.old pieces
            → result.last.now ≡ last_window self.old.scan_limit (file_bytes (count_of self.old) pieces) }
        ensures first_len { length result.first.now ≡ min self.old.scan_limit self.old.size }
        ensures last_len { length result.last.now ≡ min self.old.scan_limit self.old.size }
    {
        self.front.windows()
    }

    /// Returns whether the file has a piece of this index and this length: each has `piece_size` bytes, and the last
    /// one the rest.
    fn is_due(&self, index: u32, bytes: &Blob) -> bool
        ensures { IsTrue result ↔ IsDue self.now.size self.now.piece_size (index, bytes.now) }
    {
        // A product is cheaper than the number of pieces, which needs a division.
        let piece_size = u64::from(self.piece_size);
        let start = u64::from(index) * piece_size;
        if start >= self.size {
            return false;
        }
        bytes.len() as u64 == piece_size.min(self.size - start)
    }

    /// Returns whether the piece of this index is settled: it has gone to the front, or waits in its place.
    fn is_held(&self, index: u32) -> bool
        ensures held { (pieces : List Piece) → StandsFor self.now pieces
            → MatchBool result (HasIndex pieces index) (LacksIndex pieces index) }
        ensures free { OnFalse result (self.now.first_missing ≤ index) }
        ensures place { OnFalse result (index < self.now.first_missing + 16 → slot self.now.waiting index ≡ None) }
    {
        if index < self.missing {
            return true;
        }
        index - self.missing < AHEAD && self.waiting[(index % AHEAD) as usize].is_some()
    }

    /// Returns the number of pieces of the whole file, whether they are there or not; 0 for an empty file.
    fn count(&self) -> u32
        ensures { result ≡ count_of self.now }
    {
        self.size.div_ceil(u64::from(self.piece_size)) as u32
    }

    /// Returns the number of bytes of the pending piece; 0 if none is pending.
    fn pending_bytes(&self) -> u64
        ensures { result ≡ pending_len self.now.pending }
    {
        match &self.pending {
            Some((_, bytes)) => bytes.len() as u64,
            None => 0,
        }
    }
}

/// Returns the kept hash. If none is kept yet, ends the running hash and keeps its value, so that `seal` can be called
/// again.
fn hash_of(kept: &mut Option<HashValue>, front: &mut Front) -> HashValue
    ensures value { (before : List ℕ) → IsHashOf kept.old front.old.hash before
        → result ≡ hash (running_kind front.old.hash) before }
    ensures kind { running_kind front.new.hash ≡ running_kind front.old.hash }
    ensures kept { kept.new ≡ Some result }
    ensures first { front.new.first ≡ front.old.first }
    ensures last { front.new.last ≡ front.old.last }
    ensures width { front.new.width ≡ front.old.width }
{
    if let Some(value) = *kept {
        return value;
    }
    let value = front.finish();
    *kept = Some(value);
    value
}
