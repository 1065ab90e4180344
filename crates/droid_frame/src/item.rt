//! Folders and files, as a list has them or as they were found, and what differs between two of one path.

ghost use Rattle.std.specs.Prelude.{◌≡◌, not};
ghost use Rattle.droid_frame.specs.Items as items;

use crate::blob::Blob;
use crate::hash_value::HashValue;
use crate::node_kind::NodeKind;

/// A folder or a file, as a list has it or as it was found.
#[derive(Drop)]
pub struct Item {
    /// The bytes of the path: `/` and the names, `/` between them.
    pub path: Blob,
    /// Whether it is a folder or a file.
    pub kind: NodeKind,
    /// The number of bytes of a file, if it is known.
    pub length: Option<u64>,
    /// The moment of the last change in UTC, as `2026-01-31T23:59:59`, if it is known.
    pub modified: Option<[u8; 19]>,
    /// The hash of a file's bytes, if it is known.
    pub hash: HashValue,
}

/// What differs between two items of one path.
#[derive(Clone, Copy)]
pub struct Changes {
    /// One is a folder and the other a file.
    pub kind: bool,
    /// The lengths differ. They are compared only where both items have one.
    pub length: bool,
    /// The hashes differ. They are compared only where both items have one of one kind.
    pub hash: bool,
}

impl Changes {
    /// Returns whether anything differs: kind, length or hash. Two moments may differ all the same.
    pub fn is_any(self) -> bool
        ensures { result ≡ items.is_any self }
    {
        self.kind || self.length || self.hash
    }
}

impl Item {
    /// Compares an item of a list with the item of the same path that was found. What one of the two does not have is
    /// not compared.
    pub fn changes_to(&self, found: &Item) -> Changes
        ensures { result ≡ items.changes_between self.now found.now }
    {
        Changes {
            kind: !(self.kind.is_file() == found.kind.is_file()),
            length: self.has_other_length(found),
            hash: self.has_other_hash(found),
        }
    }

    /// Returns whether both items have a length and the lengths differ. If one has none, nothing differs.
    pub fn has_other_length(&self, found: &Item) -> bool
        ensures { result ≡ items.other_length self.now.length found.now.length }
    {
        match (self.length, found.length) {
            (Some(before), Some(after)) => before != after,
            _ => false,
        }
    }

    /// Returns whether both items have a hash of one kind and the hashes differ. Where the kinds differ, or neither has
    /// a hash, nothing differs.
    pub fn has_other_hash(&self, found: &Item) -> bool
        ensures { result ≡ items.other_hash self.now.hash found.now.hash }
    {
        self.hash.kind().number() == found.hash.kind().number()
            && self.hash.as_slice() != found.hash.as_slice()
    }

    /// Returns whether both items have a hash, of one kind. Only then their bytes can be compared.
    pub fn both_hashed(&self, found: &Item) -> bool
        ensures { result ≡ items.both_hashed self.now found.now }
    {
        self.hash.kind().number() != 0 && self.hash.kind().number() == found.hash.kind().number()
    }

    /// Returns whether both items have a length, so that the lengths can be compared.
    pub fn both_sized(&self, found: &Item) -> bool
        ensures { result ≡ items.both_sized self.now found.now }
    {
        match (self.length, found.length) {
            (Some(_), Some(_)) => true,
            _ => false,
        }
    }

    /// Returns whether both items have a moment of the last change and the moments differ. [`Changes`] leaves moments
    /// out: a copy has other moments and the same bytes.
    pub fn has_other_moment(&self, found: &Item) -> bool
        ensures { result ≡ items.other_moment self.now.modified found.now.modified }
    {
        match (&self.modified, &found.modified) {
            (Some(before), Some(after)) => before.as_slice() != after.as_slice(),
            _ => false,
        }
    }
}
