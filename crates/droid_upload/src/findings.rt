//! What a submission has found so far: the folders to visit, and the nodes of the profile.

ghost use Rattle.std.specs.Prelude.{◌≡◌, ◌++◌, [], ◌∷◌, IfOk, OnOk};
ghost use Rattle.droid_upload.specs.Kids.{file_node, folder_node, is_taken_file, nodes_of_file};

use crate::node::Node;
use crate::upload::{Destination, Uploaded, UploadedFile};
use droid_frame::Text;
use droid_hash::no_finding;
use droid_tree::{EntryKind, FolderEntry, PendingFolder, add_pending};
use std::alloc::{AllocError, Global};
use std::collections::VecDeque;

/// What a submission has found so far.
#[derive(Drop)]
pub(crate) struct Found {
    /// The folders that are not visited yet, in the order in which they were found.
    pub pending: VecDeque<PendingFolder>,
    /// The folders and files that are in the profile, in the order in which they were submitted.
    pub nodes: Vec<Node>,
}

/// Adds the node of a folder that is in the profile under this number, and the folder to those that are pending. After
/// an error one may be there without the other: `submit_tree` drops both.
pub(crate) fn add_folder_node(
    alloc: Global,
    found: &mut Found,
    into: Destination,
    path: Text,
    number: u32,
    entry: &FolderEntry,
) -> Result<(), AllocError>
    ensures pending { OnOk result
        (found.new.pending.items ≡ found.old.pending.items ++ record { path = path; number = number } ∷ []) }
    ensures nodes { OnOk result
        (found.new.nodes.items ≡ found.old.nodes.items ++ folder_node into path number entry.now ∷ []) }
{
    let node = Node {
        number,
        parent: into.folder,
        path: path.try_clone(alloc)?,
        kind: EntryKind::Folder,
        modified: entry.modified,
        len: 0,
        found: no_finding(),
        is_read: true,
    };
    found.nodes.push(node)?;
    add_pending(&mut found.pending, path, number)?;
    Ok(())
}

/// Adds the node of a file if it is in the profile, by the outcome of its upload. Returns whether it is there as it is
/// in the tree: not if its hash differs.
pub(crate) fn add_file_node(
    found: &mut Found,
    into: Destination,
    path: Text,
    entry: &FolderEntry,
    uploaded: Uploaded,
) -> Result<bool, AllocError>
    ensures taken { IfOk result (λ taken. taken ≡ is_taken_file uploaded) }
    ensures nodes { OnOk result
        (found.new.nodes.items ≡ found.old.nodes.items ++ nodes_of_file into path entry.now uploaded) }
    ensures pending { found.new.pending.items ≡ found.old.pending.items }
{
    match uploaded {
        Uploaded::Taken(file) => {
            push_file_node(found, into, path, entry, file)?;
            Ok(true)
        }
        Uploaded::Differs(file) => {
            push_file_node(found, into, path, entry, file)?;
            Ok(false)
        }
        Uploaded::Skipped => Ok(false),
    }
}

/// Adds the node of a file that is in the profile, with what the service said of it.
fn push_file_node(
    found: &mut Found,
    into: Destination,
    path: Text,
    entry: &FolderEntry,
    file: UploadedFile,
) -> Result<(), AllocError>
    ensures nodes { OnOk result
        (found.new.nodes.items ≡ found.old.nodes.items ++ file_node into path entry.now file ∷ []) }
    ensures pending { found.new.pending.items ≡ found.old.pending.items }
{
    let node = Node {
        number: file.number,
        parent: into.folder,
        path,
        kind: EntryKind::File,
        modified: entry.modified,
        len: entry.len,
        found: file.found,
        is_read: file.is_read,
    };
    found.nodes.push(node)?;
    Ok(())
}
