// Each test passes too if any one allocation is refused: tests/memory refuses each in turn.
//! Out of memory in a script: either the script ends and its first lines were handled, or one request is answered so.

use crate::requests::steps::{LARGEST, answer_in_the_end, service};
use droid_core::Service;
use droid_lines::Tally;
use droid_script::{ScriptFault, script};
use std::alloc::Global;

/// A profile, a folder, a bad line, a file with no byte, and its end.
const LINES: &[u8] =
    b"1 1 create 65536 0\n1 2 folder 1 0 0 in\nhello\n1 3 file 1 0 0 0 4 e.txt\n1 4 finish 1 2\n";

/// The same in version 2.
const LINES_IN_2: &[u8] =
    b"v2 1 1 create 65536 0 md5\nv2 1 2 folder 1 0 0 in\nv2 hello\nv2 1 3 file 1 0 0 0 4 e.txt\nv2 1 4 finish 1 2\n";

/// Asks for an export by its length and its first byte, which says how many requests were accepted.
const SHOW: &str = "9 9 export 1 0 1";

/// What the lines print, and what is shown then: if no request is refused for memory, and if one of the four is.
/// Without a profile, and without a file, what follows is refused too.
const PRINTED: [(&str, &str); 5] = [
    (
        "made 1\nnode 1\nbad line\nnode 2\nfinished Extension false d41d8cd98f00b204e9800998ecf8427e dev/4\n",
        "part 4 471 1\n\"",
    ),
    (
        "refused 18\nrefused 3\nbad line\nrefused 3\nrefused 3\n",
        "refused 3\n",
    ),
    (
        "made 1\nrefused 18\nbad line\nnode 1\nrefused 4\n",
        "part 2 193 1\n\"",
    ),
    (
        "made 1\nnode 1\nbad line\nrefused 18\nrefused 4\n",
        "part 2 296 1\n\"",
    ),
    (
        "made 1\nnode 1\nbad line\nnode 2\nrefused 18\n",
        "part 3 296 1\n\"",
    ),
];

/// The first bytes of that, printed if memory ends after some lines, and what is shown then: the next may have been
/// handled.
const FRONTS: [(usize, &str, &str); 5] = [
    (0, "refused 3\n", "part 1 193 1\n\""),
    (7, "part 1 193 1\n\"", "part 2 296 1\n\""),
    (14, "part 2 296 1\n\"", "part 2 296 1\n\""),
    (23, "part 2 296 1\n\"", "part 3 296 1\n\""),
    (30, "part 3 296 1\n\"", "part 4 471 1\n\""),
];

/// Whether a script that handled all lines, of which at most one request was refused for memory, printed this.
fn is_handled(printed: &[u8], shown: &[u8]) -> bool {
    for (text, state) in PRINTED {
        if printed == text.as_bytes() && shown == state.as_bytes() {
            return true;
        }
    }
    false
}

/// Whether a script that ran out of memory after its first lines printed this.
fn is_front(printed: &[u8], shown: &[u8]) -> bool {
    let (whole, _) = PRINTED[0];
    for (count, state, next) in FRONTS {
        if printed.len() == count && (shown == state.as_bytes() || shown == next.as_bytes()) {
            return whole.as_bytes().starts_with(printed);
        }
    }
    false
}

/// Runs these lines, into a buffer, so that printing takes no memory, and shows the service then. Returns whether they
/// were handled; `None` if the script ended for memory. Neither if the test itself had no memory.
fn run_lines(alloc: Global, service: &mut Service, lines: &[u8]) -> Option<Option<bool>> {
    let mut buffer = [0u8; 128];
    let (mut lines, mut left) = (lines, buffer.as_mut_slice());
    let ended = script(alloc, service, &mut lines, &mut left);
    let count = 128usize.saturating_sub(left.len());
    let printed = &buffer[..count.min(128)];
    let shown = answer_in_the_end(alloc, service, SHOW)?;
    match ended {
        Ok(Tally { lines: 5, bad: 1 }) => Some(Some(is_handled(printed, shown.as_slice()))),
        Err(ScriptFault::Memory) if is_front(printed, shown.as_slice()) => Some(None),
        _ => Some(Some(false)),
    }
}

/// Whether these lines come out right with an empty service. If they ended early, the same again comes to its end.
fn is_run(alloc: Global, lines: &[u8]) -> Option<bool> {
    let mut service = service(alloc, LARGEST, 256)?;
    let mut handled = run_lines(alloc, &mut service, lines)?;
    if handled.is_none() {
        handled = run_lines(alloc, &mut service, lines)?;
    }
    Some(handled == Some(true))
}

/// Begins anew if the test itself had no memory.
fn is_run_in_the_end(alloc: Global, lines: &[u8]) -> bool {
    match is_run(alloc, lines) {
        Some(right) => right,
        None => is_run(alloc, lines) == Some(true),
    }
}

#[test]
fn each_growth_of_a_script(rt: HostRuntime) {
    assert!(rt; is_run_in_the_end(rt.alloc(), LINES));
}

#[test]
fn each_growth_of_version_2(rt: HostRuntime) {
    assert!(rt; is_run_in_the_end(rt.alloc(), LINES_IN_2));
}
