//! Records of an export: what its rows show of one folder or file.

ghost use Rattle.std.specs.Prelude.{◌≡◌, IfOk};

use crate::hash_value::HashValue;
use crate::method::Method;
use crate::node_kind::NodeKind;
use crate::text::Text;
use crate::texts::Texts;
use std::alloc::{AllocError, Global};

/// A folder or a finished file, with everything that its rows in the export show.
#[derive(Drop)]
pub struct Record {
    /// The node's number, from 1 in its profile.
    pub id: u32,
    /// The number of the folder that contains it, or 0 at the top level.
    pub parent: u32,
    /// `/` followed by the names from the top level down, joined by `/`.
    pub path: Text,
    /// The node's own name.
    pub name: Text,
    /// Whether it is a file or a folder.
    pub kind: NodeKind,
    /// The size of the file in bytes. A folder has 0.
    pub size: u64,
    /// When it was modified, in seconds since 1970-01-01T00:00:00 UTC; negative before that.
    pub modified: i64,
    /// How the formats were found. A folder has `Unidentified`.
    pub method: Method,
    /// Whether none of the file's formats lists its extension. A folder has `false`.
    pub mismatch: bool,
    /// The hash of the file's bytes. A folder has `Nothing`.
    pub hash: HashValue,
    /// The identifiers (PUIDs) of the formats, in the registry's order. A folder has none.
    pub puids: Texts,
}

impl Record {
    /// Copies the value, with its path, name and identifiers. Fails only when out of memory.
    pub fn try_clone(&self, alloc: Global) -> Result<Record, AllocError>
        ensures { IfOk result (λ copy. copy ≡ self.now) }
    {
        Ok(Record {
            id: self.id,
            parent: self.parent,
            path: self.path.try_clone(alloc)?,
            name: self.name.try_clone(alloc)?,
            kind: self.kind,
            size: self.size,
            modified: self.modified,
            method: self.method,
            mismatch: self.mismatch,
            hash: self.hash,
            puids: self.puids.try_clone(alloc)?,
        })
    }
}
