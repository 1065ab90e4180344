//! What a submission knows of its folders and files, for the comparison; and how many of the files it did not read.

ghost use Rattle.std.specs.Prelude.{◌≡◌, ◌++◌, [], ◌∷◌, cond, IfOk, OnOk};
ghost use Rattle.droid_cmd_submit.specs.KnownNodes.{known_of_node, known_of_nodes, node_kind, unread_in};

use droid_frame::NodeKind;
use droid_lists::Known;
use droid_tree::EntryKind;
use droid_upload::Node;
use std::alloc::{AllocError, Global};

/// Returns what is known of the folders and files that were submitted, in their order. Their paths are moved, not
/// copied. Fails only if memory runs out.
pub(crate) fn known_of_nodes(alloc: Global, nodes: Vec<Node>) -> Result<Vec<Known>, AllocError>
    ensures { IfOk result (λ known. known.items ≡ known_of_nodes nodes.items) }
{
    let mut known = Vec::with_capacity(alloc, nodes.len())?;
    for node in nodes {
        add_known(&mut known, node)?;
    }
    Ok(known)
}

/// Appends what is known of a folder or file. The caller has reserved room for all.
fn add_known(known: &mut Vec<Known>, node: Node) -> Result<(), AllocError>
    ensures { OnOk result (known.new.items ≡ known.old.items ++ known_of_node node ∷ []) }
{
    let one = known_of_node(node);
    known.push(one)?;
    Ok(())
}

/// Returns what is known of a folder or file: all of the node but whether it was read.
fn known_of_node(node: Node) -> Known
    ensures { result ≡ known_of_node node }
{
    let Node {
        number,
        parent,
        path,
        kind,
        modified,
        len,
        found,
        ..
    } = node;
    Known {
        number,
        parent,
        path,
        kind: node_kind(kind),
        size: len,
        modified,
        found,
    }
}

/// Returns the kind of a node for an entry of a folder. Only folders and files are submitted, so the other kinds never
/// come.
fn node_kind(kind: EntryKind) -> NodeKind
    ensures { result ≡ node_kind kind }
{
    match kind {
        EntryKind::Folder => NodeKind::Folder,
        EntryKind::File => NodeKind::File,
        EntryKind::Link => NodeKind::File,
        EntryKind::Other => NodeKind::File,
        EntryKind::TooLong => NodeKind::File,
    }
}

/// Returns how many files are in the profile and were not read in this run, since an earlier one finished them. A
/// folder counts as read.
pub(crate) fn unread_in(nodes: &[Node]) -> usize
    ensures { result ≡ unread_in nodes.now }
{
    let mut count = 0usize;
    for node in nodes {
        count += one_if(!node.is_read);
    }
    count
}

/// Returns 1 if `truth` is true, and 0 if not: what one node adds to a count.
fn one_if(truth: bool) -> usize
    ensures { result ≡ cond truth 1 0 }
{
    if truth {
        return 1;
    }
    0
}
