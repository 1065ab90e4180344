//! The unfinished files of a service, as a list. Each call on one of them names its place in the list, which
//! [`UnfinishedFiles::place_of`] finds, and hands it to the file's assembly in droid_assembly.
//!
//! In the clauses 64 is the most unfinished files of a service (`Limits`), 65536 the largest scan limit
//! (`is_scan_limit`), 16 how far ahead a piece may be (`AHEAD` of droid_assembly), and 2 ^ 20 the most pieces of a file
//! (`is_too_large`). `Service::kept_bytes` says what 67239936 and 16908288 are made of.

ghost use Rattle.std.specs.Prelude.{◌≡◌, ◌≢◌, ◌+◌, ◌*◌, ◌^◌, ◌<◌, ◌≤◌, ◌↔◌, ◌++◌, ◌∷◌, [], ℕ, List, length, min, Ok};
ghost use Rattle.std.specs.Prelude.{Err, Some, None, IsTrue, IsOk, IfOk, IfSome, OnOk, OnErr, IsErrOf, IsSome, is_some};
ghost use Rattle.std.specs.Prelude.{false};
ghost use Rattle.std.specs.Bool.{OnFalse};
ghost use Rattle.std.specs.List.{slice_get, remove};
ghost use Rattle.droid_assembly.specs.Pieces.{Piece, IsDue, HasIndex, LacksIndex, held as held_of};
ghost use Rattle.droid_assembly.specs.Pieces.{missing as missing_of, kept_bytes as kept_of};
ghost use Rattle.droid_assembly.specs.State.{StandsFor, IsComplete, IsOfSameFile, IsUnchanged, count_of, with_pending};
ghost use Rattle.droid_assembly.specs.State.{pending_bytes};
ghost use Rattle.droid_core.specs.Identifying.{Identifies, IsWellFormed};

use crate::unfinished::fault::IdentifyFault;
use crate::unfinished::file::UnfinishedFile;
use crate::unfinished::finding::Finding;
use crate::unfinished::whole::identify_whole;
use droid_assembly::{Assembly, PutFault};
use droid_frame::Blob;
use droid_pronom::Registry;
use std::alloc::{AllocError, Global};
use std::marker::Model;

/// The unfinished files of a service, each with the pieces that were taken of it. A file is found by
/// the number of its profile and its own number there, which no two of them share.
pub struct UnfinishedFiles {
    files: Vec<UnfinishedFile>,
    limit: u32,
}

// Frees its two fields, as a derived `Drop` would. Written by hand, so that the crates above do not prove again how
// each part is dropped. No clause says more.
impl Drop for UnfinishedFiles {
    fn drop(self) {
        let UnfinishedFiles {
            files: _files,
            limit: _limit,
        } = self;
    }
}

impl Model for UnfinishedFiles {
    ghost use Rattle.droid_core.specs.Files.{OpenFiles};

    ghost Value = { OpenFiles };

    ghost use Rattle.droid_core.specs.Kept.{files_of, IsKept};

    ghost view = { files_of };

    ghost invariant = { IsKept };
}

impl UnfinishedFiles {
    ghost use Rattle.droid_core.specs.Files.{OpenFile, AreDistinct, IsAt, At, Turns, IsAlikeBut, is_of, open_at};

    /// Creates an empty list with room for `limit` files. Fails only if there is no memory. Of the other calls only
    /// `identify` takes memory.
    pub fn new(alloc: Global, limit: u32) -> Result<UnfinishedFiles, AllocError>
        requires { limit ≤ 64 }
        ensures none { IfOk result (λ all. all.files ≡ []) }
        ensures limit { IfOk result (λ all. all.limit ≡ limit) }
    {
        Ok(UnfinishedFiles {
            files: Vec::with_capacity(alloc, limit as usize)?,
            limit,
        })
    }

    /// Returns the number of files, at most the limit and so at most 64.
    pub fn len(&self) -> u32
        ensures count { result ≡ length self.now.files }
        ensures within { result ≤ self.now.limit }
        ensures few { self.now.limit ≤ 64 }
    {
        self.files.len() as u32
    }

    /// Returns whether there is no file.
    pub fn is_empty(&self) -> bool
        ensures { IsTrue result ↔ (self.now.files ≡ []) }
    {
        self.files.is_empty()
    }

    /// Returns whether the limit is reached, so that no file can be added.
    pub fn is_full(&self) -> bool
        ensures full { IsTrue result ↔ (length self.now.files ≡ self.now.limit) }
        ensures room { OnFalse result (length self.now.files < self.now.limit) }
    {
        self.len() == self.limit
    }

    /// Returns the place of the file with this number in this profile, counted from 0, or `None` if it is not in the
    /// list.
    pub fn place_of(&self, profile: u32, file: u32) -> Option<usize>
        ensures none { (result ≡ None) ↔ (open_at profile file self.now.files ≡ None) }
        ensures place { IfSome result (λ place. slice_get self.now.files place ≡ open_at profile file self.now.files) }
        ensures within { IfSome result (λ place. place < length self.now.files) }
        ensures distinct { AreDistinct self.now.files }
    {
        self.files
            .iter()
            .position(|other| other.profile == profile && other.file == file)
    }

    /// Adds a file at the end, in a place that [`UnfinishedFiles::new`] reserved: takes no memory. It must not be in
    /// the list yet.
    pub fn add(&mut self, profile: u32, file: u32, assembly: Assembly)
        requires room { length self.old.files < self.old.limit }
        requires fresh { open_at profile file self.old.files ≡ None }
        requires narrow { assembly.scan_limit ≤ 65536 }
        ensures files { self.new.files
            ≡ self.old.files ++ record { profile = profile; file = file; assembly = assembly } ∷ [] }
        ensures limit { self.new.limit ≡ self.old.limit }
    {
        self.files
            .push(UnfinishedFile {
                profile,
                file,
                assembly,
            })
            .unwrap();
    }

    /// Removes the file at this place with all its pieces. The files after it move up by one place.
    pub fn remove(&mut self, place: usize)
        requires { place < length self.old.files }
        ensures files { self.new.files ≡ remove self.old.files place }
        ensures gone { (file : OpenFile) → IsAt self.old.files place file
            → open_at file.profile file.file self.new.files ≡ None }
        ensures others { (file : OpenFile) (profile number : ℕ) → IsAt self.old.files place file
            → is_of profile number file ≡ false
            → open_at profile number self.new.files ≡ open_at profile number self.old.files }
        ensures count { length self.new.files + 1 ≡ length self.old.files }
        ensures limit { self.new.limit ≡ self.old.limit }
    {
        self.files.remove(place);
    }

    /// Makes this piece the pending one of the file at this place. If the piece is refused, its bytes are handed back
    /// and nothing changes; if several reasons apply, the first in the order of `Assembly::put` is given.
    pub fn put(&mut self, place: usize, index: u32, bytes: Blob) -> Result<(), PutFault>
        requires within { place < length self.old.files }
        requires none_pending { At self.old place (λ file. file.pending ≡ None) }
        ensures bad_piece { At self.old place (λ file. IsErrOf result (PutFault.BadPiece bytes)
            ↔ (¬ IsDue file.size file.piece_size (index, bytes))) }
        ensures piece_held { At self.old place (λ file. (pieces : List Piece) → StandsFor file pieces
            → (IsErrOf result (PutFault.PieceHeld bytes)
            ↔ (IsDue file.size file.piece_size (index, bytes) × HasIndex pieces index))) }
        ensures too_far_ahead { At self.old place (λ file. (pieces : List Piece) → StandsFor file pieces
            → let missing = missing_of (count_of file) pieces in
            (IsErrOf result (PutFault.TooFarAhead missing bytes)
            ↔ (IsDue file.size file.piece_size (index, bytes) × LacksIndex pieces index × (missing + 16 ≤ index)))) }
        ensures ok { At self.old place (λ file. (pieces : List Piece) → StandsFor file pieces
            → let missing = missing_of (count_of file) pieces in
            (IsOk result
            ↔ (IsDue file.size file.piece_size (index, bytes) × LacksIndex pieces index × (index < missing + 16)))) }

        // What stands afterwards.
        ensures pending { OnOk result
            (Turns self.old self.new place (λ before after. after ≡ with_pending before (Some (index, bytes)))) }
        ensures err { OnErr result (self.new ≡ self.old) }
        ensures stands { Turns self.old self.new place (λ before after.
            (pieces : List Piece) → StandsFor before pieces → StandsFor after pieces) }
        ensures others { IsAlikeBut place self.old self.new }
    {
        self.files[place].assembly.put(index, bytes)
    }

    /// Drops the pending piece of the file at this place, which is then as it was before `put`.
    pub fn take_back(&mut self, place: usize)
        requires within { place < length self.old.files }
        requires pending { At self.old place (λ file. IsSome file.pending) }
        ensures as_before { Turns self.old self.new place (λ before after. after ≡ with_pending before None) }
        ensures stands { Turns self.old self.new place (λ before after.
            (pieces : List Piece) → StandsFor before pieces → StandsFor after pieces) }
        ensures others { IsAlikeBut place self.old self.new }
    {
        self.files[place].assembly.take_back();
    }

    /// Takes the pending piece of the file at this place for good, and drops the pieces that are no longer needed.
    pub fn settle(&mut self, place: usize)
        requires within { place < length self.old.files }
        requires pending { At self.old place (λ file. IsSome file.pending) }
        ensures stands { Turns self.old self.new place (λ before after.
            (pieces : List Piece) (piece : Piece) → StandsFor before pieces
            → before.pending ≡ Some piece → StandsFor after (pieces ++ piece ∷ [])) }
        ensures same_file { Turns self.old self.new place IsOfSameFile }
        ensures none_pending { Turns self.old self.new place (λ before after. after.pending ≡ None) }
        ensures others { IsAlikeBut place self.old self.new }
    {
        self.files[place].assembly.settle();
    }

    /// Returns the number of settled pieces of the file at this place; a pending one is not counted.
    pub fn held(&self, place: usize) -> u32
        requires { place < length self.now.files }
        ensures count { At self.now place (λ file.
            (pieces : List Piece) → StandsFor file pieces → result ≡ held_of pieces) }

        // Each of the files stands for some list of pieces.
        ensures stands { At self.now place (λ file. (pieces : List Piece) × StandsFor file pieces) }
        ensures few { result ≤ 2 ^ 20 + 16 }
    {
        self.files[place].assembly.held()
    }

    /// Returns the smallest index that is not settled of the file at this place, or the number of its pieces if all
    /// are.
    pub fn missing(&self, place: usize) -> u32
        requires { place < length self.now.files }
        ensures least { At self.now place (λ file.
            (pieces : List Piece) → StandsFor file pieces → result ≡ missing_of (count_of file) pieces) }
        ensures within { At self.now place (λ file. result ≤ count_of file) }
        ensures complete { At self.now place (λ file. IsComplete file ↔ (result ≡ count_of file)) }
    {
        self.files[place].assembly.missing()
    }

    /// Returns whether a piece of the file at this place is pending: it was put, and is neither settled nor taken back.
    pub fn has_pending(&self, place: usize) -> bool
        requires { place < length self.now.files }
        ensures { At self.now place (λ file. result ≡ is_some file.pending) }
    {
        self.files[place].assembly.pending().is_some()
    }

    /// Returns the number of bytes that are kept of the file at this place: those of its two windows, of its waiting
    /// pieces and of the pending one.
    pub fn kept_bytes(&self, place: usize) -> u64
        requires { place < length self.now.files }
        ensures kept { At self.now place (λ file. (pieces : List Piece) → StandsFor file pieces
            → result ≡ kept_of file.scan_limit (count_of file) pieces + pending_bytes file.pending) }
        ensures bound { At self.now place (λ file. result ≤ 2 * min file.scan_limit file.size + 16 * file.piece_size) }
        ensures most { result ≤ 67239936 }
        ensures most_of_small { At self.now place (λ file. file.piece_size ≤ 1048576 → result ≤ 16908288) }
    {
        self.files[place].assembly.kept_bytes()
    }

    /// Identifies the file at this place by its name and its first and last bytes, if no piece is missing. Returns its
    /// size, its hash and the formats that the registry finds. It may be called again, and no other call returns
    /// anything else because of it.
    pub fn identify(
        &mut self,
        alloc: Global,
        place: usize,
        registry: &Registry,
        name: &str,
        match_all: bool,
    ) -> Result<Finding, IdentifyFault>
        requires within { place < length self.old.files }
        requires none_pending { At self.old place (λ file. file.pending ≡ None) }
        ensures identifies { At self.old place (λ file. Identifies registry.now name.now match_all file result) }
        ensures well_formed { IfOk result IsWellFormed }

        // What stands afterwards.
        ensures unchanged { Turns self.old self.new place IsUnchanged }
        ensures others { IsAlikeBut place self.old self.new }
    {
        let file = &mut self.files[place].assembly;
        identify_whole(alloc, file, registry, name, match_all)
    }
}
