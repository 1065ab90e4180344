//! Queries of a store, compared with rows of tables.

use crate::store::rows::{Kept, NOTHING, Node, Options};
use crate::store::words::are_words;
use droid_frame::{NodeKind, Record};
use droid_store::{NodeState, ProfileRow, Store};

/// Whether the reply is kept under its client and number.
pub fn has_reply(store: &mut Store, kept: &Kept<'_>) -> bool {
    let (client, number, version, byte, kind, body) = *kept;
    match store.reply_of(client, number) {
        Ok(Some(entry)) => {
            (entry.client, entry.number) == (client, number)
                && (entry.version, entry.kind) == (version, kind)
                && entry.mark == [byte; 16]
                && entry.body.as_slice() == body
        }
        _ => false,
    }
}

/// Whether the profile has these options and this many nodes.
pub fn has_profile(store: &mut Store, profile: u32, options: &Options, nodes: u32) -> bool {
    let (scan_limit, match_all, hash) = *options;
    let row = ProfileRow {
        scan_limit,
        match_all,
        nodes,
        hash,
    };
    match store.profile(profile) {
        Ok(found) => found == Some(row),
        Err(_) => false,
    }
}

/// Whether the node is shown in this state, and its name has its number; or neither is there.
pub fn shows(store: &mut Store, node: &Node<'_>, state: Option<NodeState>) -> bool {
    let ((profile, id, parent, _, name, _), (_, piece_size), _) = *node;
    let Ok(child) = store.child(profile, parent, name) else {
        return false;
    };
    let Ok(found) = store.node(profile, id) else {
        return false;
    };
    match (&found, state) {
        (Some(row), Some(state)) => {
            child == Some(id)
                && (row.state, row.piece_size) == (state, piece_size)
                && is_record(&row.item, node, state)
        }
        (None, None) => child.is_none(),
        _ => false,
    }
}

/// Whether the record shows the node in this state, field by field.
pub fn is_record(record: &Record, node: &Node<'_>, state: NodeState) -> bool {
    let ((_, id, parent, modified, name, path), (size, _), found) = *node;
    let is_finished = state == NodeState::Finished;
    let (method, mismatch, hash, identifiers) = if is_finished { found } else { NOTHING };
    let is_folder = state == NodeState::Folder;
    let kind = if is_folder {
        NodeKind::Folder
    } else {
        NodeKind::File
    };
    (record.id, record.parent, record.modified, record.size) == (id, parent, modified, size)
        && (record.kind, record.method, record.mismatch) == (kind, method, mismatch)
        && record.hash.as_slice() == hash
        && record.name.as_str() == name
        && record.path.as_str() == path
        && are_words(&record.puids, identifiers)
}
