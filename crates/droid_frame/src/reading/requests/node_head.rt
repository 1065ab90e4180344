//! The fields that AddFolder and AddFile begin with.

ghost use Rattle.std.specs.Prelude.{◌≡◌, IfSome};
ghost use Rattle.std.specs.Option.{option_map};
ghost use Rattle.droid_frame.specs.Ends.{IsEnd};
ghost use Rattle.droid_frame.specs.NodeHeads.{node_head_at};

use crate::reading::fields::{i64_at, u32_at};

/// The first fields of AddFolder and AddFile.
#[derive(Clone, Copy)]
pub(crate) struct NodeHead {
    /// The number of the profile.
    pub(crate) profile: u32,
    /// The number of the folder that contains the node, or 0 at the top level.
    pub(crate) parent: u32,
    /// When the node was modified, in seconds since 1970-01-01T00:00:00 UTC; negative before that.
    pub(crate) modified: i64,
}

/// Reads profile, parent (four bytes each) and modification time (eight), and returns them and the bytes after them.
/// `None` if fewer bytes are left.
#[tactic(auto, unfolding(crate::specs::NodeHeads::node_head_at))]
pub(crate) fn node_head_at(bytes: &[u8]) -> Option<(NodeHead, &[u8])>
    ensures value { option_map (λ x. (x.0, x.1.now)) result ≡ node_head_at bytes.now }
    // For callers that count how far they read: the rest is the end of `bytes`.
    ensures rest { IfSome result (λ x. IsEnd bytes.now x.1.now) }
{
    let (profile, rest) = u32_at(bytes)?;
    let (parent, rest) = u32_at(rest)?;
    let (modified, rest) = i64_at(rest)?;
    let head = NodeHead {
        profile,
        parent,
        modified,
    };
    Some((head, rest))
}
