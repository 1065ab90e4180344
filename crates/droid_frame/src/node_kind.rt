//! Kinds of node: a file or a folder.

ghost use Rattle.std.specs.Prelude.{◌≡◌};
ghost use Rattle.droid_frame.specs.Filters.{is_file, node_kind_number};

/// The kind of a node in a profile.
#[derive(Clone, Copy, PartialEq, Eq)]
pub enum NodeKind {
    /// A file, with bytes.
    File,
    /// A folder.
    Folder,
}

impl NodeKind {
    /// Returns the number of the kind in a criterion's bytes: 0 for a file, 1 for a folder. `node_kind_at` of
    /// `reading/filters.rt` reads it back.
    pub fn number(self) -> u8
        ensures { result ≡ node_kind_number self }
    {
        match self {
            NodeKind::File => 0,
            NodeKind::Folder => 1,
        }
    }

    /// Returns whether the node is a file, and not a folder.
    pub fn is_file(self) -> bool
        ensures { result ≡ is_file self }
    {
        match self {
            NodeKind::File => true,
            NodeKind::Folder => false,
        }
    }
}
