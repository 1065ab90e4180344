// The last test also passes if any one allocation is refused: tests/memory refuses each in turn.
//! One profile with a folder, a file that is finished and one that is abandoned, by commands of both versions: all that
//! the store shows after each. Out of memory: a call that fails for it leaves the rows as they were, and the same call
//! again does its work.

use crate::store::commands::commit;
use crate::store::queries::{has_profile, has_reply, is_record, shows};
use crate::store::rows::{
    ABANDONED, Change, FINISHED, Kept, MADE, NODE, NOTHING, Node, Options, TAKEN,
};
use droid_frame::{HashKind, Method};
use droid_store::{Counts, NodeState, Store, StoreFault};
use std::alloc::Global;

const OPTIONS: Options = (65_536, false, HashKind::Md5);

const IN: Node<'static> = ((1, 1, 0, 0, "in", "/in"), (0, 0), NOTHING);

/// The digest is that of `message digest` (RFC 1321, its test suite).
const M_TXT: Node<'static> = (
    (1, 2, 1, -1, "m.txt", "/in/m.txt"),
    (14, 20),
    (
        Method::Signature,
        true,
        b"\xf9\x6b\x69\x7d\x7c\xb7\x93\x8d\x52\x5a\x2f\x31\xaa\xf1\x61\xd0",
        "dev/1 dev/3",
    ),
);

const OTHER: Node<'static> = ((1, 3, 0, 86_399, "other", "/other"), (4, 3), NOTHING);

const NODES: [Node<'static>; 3] = [IN, M_TXT, OTHER];

const COMMANDS: [(Kept<'static>, Change<'static>); 7] = [
    (
        (1, 1, 1, 0x11, MADE, b"\0\0\0\x01"),
        Change::Profile(1, OPTIONS),
    ),
    ((1, 2, 2, 0x22, NODE, b"\0\0\0\x01"), Change::Node(IN)),
    ((1, 3, 1, 0x33, NODE, b"\0\0\0\x02"), Change::Node(M_TXT)),
    ((1, 4, 2, 0x44, TAKEN, b"\0\0\0\x01"), Change::Piece),
    (
        (1, 5, 2, 0x55, FINISHED, b"\x01\x01"),
        Change::Finish(M_TXT),
    ),
    ((1, 6, 1, 0x66, NODE, b"\0\0\0\x03"), Change::Node(OTHER)),
    ((1, 7, 2, 0x77, ABANDONED, b""), Change::Abandon(OTHER)),
];

/// The states of the nodes: none, a folder, an unfinished and a finished file.
const N: Option<NodeState> = None;

const D: Option<NodeState> = Some(NodeState::Folder);

const U: Option<NodeState> = Some(NodeState::Unfinished);

const F: Option<NodeState> = Some(NodeState::Finished);

/// Before the first command, and after each: how many profiles and unfinished files there are, how many nodes the
/// profile has accepted, and the state of each node.
const SHOWN: [(u64, u64, u32, &[Option<NodeState>]); 8] = [
    (0, 0, 0, &[N, N, N]),
    (1, 0, 0, &[N, N, N]),
    (1, 0, 1, &[D, N, N]),
    (1, 1, 2, &[D, U, N]),
    (1, 1, 2, &[D, U, N]),
    (1, 0, 2, &[D, F, N]),
    (1, 1, 3, &[D, F, U]),
    (1, 0, 3, &[D, F, N]),
];

/// Profiles and numbers of no node.
const NO_NODES: [(u32, u32); 8] = [
    (0, 0),
    (0, 1),
    (0, 2),
    (1, 0),
    (1, 4),
    (2, 0),
    (2, 1),
    (2, 2),
];

/// Profiles, folders and names of no node. A service refuses those that are empty, have a zero byte or 256 bytes.
const NO_NAMES: [(u32, u32, &str); 12] = [
    (0, 0, "out"),
    (1, 0, "out"),
    (2, 0, "out"),
    (1, 0, ""),
    (1, 0, "in\u{0}"),
    (1, 0, "\u{0}"),
    (
        1,
        0,
        "aaaaaaaaaaaaaaaaaaaaaaaaaaaaaaaaaaaaaaaaaaaaaaaaaaaaaaaaaaaaaaaaaaaaaaaaaaaaaaaaaaaaaaaaaaaaaaaaaaaaaaaaaaaaaa\
        aaaaaaaaaaaaaaaaaaaaaaaaaaaaaaaaaaaaaaaaaaaaaaaaaaaaaaaaaaaaaaaaaaaaaaaaaaaaaaaaaaaaaaaaaaaaaaaaaaaaaaaaaaaaaaa\
        aaaaaaaaaaaaaaaaaaaaaaaaaaaaaaaaaaa",
    ),
    (0, 0, "in"),
    (2, 0, "in"),
    (1, 1, "in"),
    (1, 4_294_967_295, "in"),
    (4_294_967_295, 0, "in"),
];

/// Whether the store shows by every query what it has to show after as many commands.
fn look(store: &mut Store, after: usize) -> bool {
    let Some(shown) = SHOWN.get(after) else {
        return false;
    };
    let (profiles, unfinished, nodes, states) = *shown;
    let counts = Counts {
        profiles,
        unfinished,
        accepted: after as u64,
    };
    let mut all = matches!(store.counts(), Ok(found) if found == counts);
    all &= if profiles == 0 {
        matches!(store.profile(1), Ok(None))
    } else {
        has_profile(store, 1, &OPTIONS, nodes)
    };
    for (place, (kept, _)) in COMMANDS.iter().enumerate() {
        let (client, number, ..) = *kept;
        all &= if place < after {
            has_reply(store, kept)
        } else {
            matches!(store.reply_of(client, number), Ok(None))
        };
    }
    for (node, state) in NODES.iter().zip(states.iter()) {
        all &= shows(store, node, *state);
    }
    all && lists(store, states) && has_no_more(store)
}

/// Whether the folders and finished files are the records of the profile, in order.
fn lists(store: &mut Store, states: &[Option<NodeState>]) -> bool {
    let Ok(records) = store.records(1) else {
        return false;
    };
    let mut all = true;
    let mut at = 0usize;
    for (node, state) in NODES.iter().zip(states.iter()) {
        match *state {
            None | Some(NodeState::Unfinished) => {}
            Some(state) => {
                all &= match records.get(at) {
                    Some(record) => is_record(record, node, state),
                    None => false,
                };
                at = at.wrapping_add(1);
            }
        }
    }
    all & (records.len() == at)
}

/// Whether nothing else is there.
fn has_no_more(store: &mut Store) -> bool {
    let mut all = true;
    for profile in [0, 2, 4_294_967_295] {
        all &= matches!(store.profile(profile), Ok(None));
        all &= matches!(store.records(profile), Ok(records) if records.is_empty());
    }
    for (profile, id) in &NO_NODES {
        all &= matches!(store.node(*profile, *id), Ok(None));
    }
    for (profile, parent, name) in &NO_NAMES {
        all &= matches!(store.child(*profile, *parent, name), Ok(None));
    }
    all
}

/// Gives the store the command after as many others, once more if memory runs out. The store then shows what it showed
/// before, and after it what it should.
fn give(
    alloc: Global,
    store: &mut Store,
    before: usize,
    command: &(Kept<'static>, Change<'static>),
) -> bool {
    let (kept, change) = command;
    match commit(alloc, store, kept, change) {
        Ok(()) => true,
        Err(StoreFault::Memory) => {
            look(store, before)
                && commit(alloc, store, kept, change).is_ok()
                && look(store, before.wrapping_add(1))
        }
        Err(_) => false,
    }
}

/// Whether the store takes each command, and shows what it should after as many commands and more.
fn shows_all(alloc: Global, from: usize) -> bool {
    let made = match Store::in_memory(alloc) {
        Ok(store) => Ok(store),
        Err(_) => Store::in_memory(alloc),
    };
    let Ok(mut store) = made else {
        return false;
    };
    let mut all = from > 0 || look(&mut store, 0);
    for (before, command) in COMMANDS.iter().enumerate() {
        all &= give(alloc, &mut store, before, command);
        let after = before.wrapping_add(1);
        all &= after < from || look(&mut store, after) || look(&mut store, after);
    }
    all
}

#[test]
fn after_each_command(rt: HostRuntime) {
    assert!(rt; shows_all(rt.alloc(), 0));
}

#[test]
fn each_growth_of_the_store(rt: HostRuntime) {
    assert!(rt; shows_all(rt.alloc(), 6));
}
