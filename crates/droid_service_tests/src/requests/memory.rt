// Each test passes too if any one allocation is refused: tests/memory refuses each in turn.
//! Out of memory: a refused request is answered so, and the same request again is answered as it would have been.

use crate::requests::steps::{
    CREATE, LARGEST, Step, answer_in_the_end, frame_of, printed, service,
};
use droid_core::Service;
use std::alloc::Global;

const FINISHED: &str = "finished Signature false f96b697d7cb7938d525a2f31aaf161d0 dev/1,dev/3\n";

/// The pieces of a file out of order, how far it is, its end, what comes again, a file that is abandoned, and an
/// export.
const OUT_OF_ORDER: &[Step] = &[
    CREATE,
    ("1 2 file 1 0 0 14 4 m.msg", "node 1\n"),
    ("1 3 piece 1 1 3 7374", "taken 1\n"),
    ("1 4 piece 1 1 1 61676520", "taken 2\n"),
    ("1 5 piece 1 1 0 6d657373", "taken 3\n"),
    ("1 6 piece 1 1 2 64696765", "taken 4\n"),
    ("1 8 status 1 1", "progress 4 4\n"),
    ("1 7 finish 1 1", FINISHED),
    ("1 4 piece 1 1 1 61676520", "taken 2\n"),
    ("1 7 finish 1 1", FINISHED),
    ("1 9 file 1 0 0 14 4 other", "node 2\n"),
    ("1 10 abandon 1 2", "abandoned\n"),
    ("1 11 export 1 0 1", "part 9 530 1\n\""),
];

/// A file that is finished, requests after that, and exports by filters.
const WORKED_ROW: &[Step] = &[
    CREATE,
    ("1 2 file 1 0 0 14 14 m.msg", "node 1\n"),
    ("1 3 piece 1 1 0 6d65737361676520646967657374", "taken 1\n"),
    ("1 4 finish 1 1", FINISHED),
    (
        "1 5 export 1 496 1048576",
        "part 4 530 34\n61d0\",\"2\",\"dev/3\",\"\",\"Letters\",\"\"\n",
    ),
    ("1 5 finish 1 1", "refused 12\n"),
    ("1 5 folder 1 0 0 in", "node 2\n"),
    ("1 6 export 1 0 1 all type=Folder", "part 5 296 1\n\""),
    (
        "1 6 export 1 0 1 any puid=dev/3 type=Folder",
        "part 5 633 1\n\"",
    ),
    (
        "1 6 export 1 0 1 all ext=MSG atleast=15",
        "part 5 193 1\n\"",
    ),
];

/// Whether each step is answered as it should be, at once or when it comes again. `None` if the test itself had no
/// memory.
fn passes(alloc: Global, places: usize, steps: &[Step<'_>]) -> Option<bool> {
    let mut service = service(alloc, LARGEST, places)?;
    let mut right = true;
    for step in steps {
        let (line, wanted) = *step;
        let text = answer_in_the_end(alloc, &mut service, line)?;
        right &= text.as_slice() == wanted.as_bytes();
    }
    Some(right)
}

/// Begins anew if the test itself had no memory.
fn pass(alloc: Global, steps: &[Step<'_>]) -> bool {
    let mut right = true;
    for places in [1usize, 256] {
        let mut passed = passes(alloc, places, steps);
        if passed.is_none() {
            passed = passes(alloc, places, steps);
        }
        right &= passed == Some(true);
    }
    right
}

#[test]
fn one_after_the_other(rt: HostRuntime) {
    assert!(rt; pass(rt.alloc(), OUT_OF_ORDER));
}

#[test]
fn worked_row(rt: HostRuntime) {
    assert!(rt; pass(rt.alloc(), WORKED_ROW));
}

/// Asks for an export by its length and its first byte, which says how many requests were accepted.
const SHOW: &str = "1 9 export 1 0 1";

/// What is shown if the profile and a folder were accepted, and if nothing was.
const FOLDER: &str = "part 2 296 1\n\"";

const NOTHING: &str = "refused 3\n";

/// What a run prints, and what is shown then: if no request is refused for memory, if one is, and if there is no memory
/// for the list of replies, so that no request was handled.
const RUNS: [(&str, &str); 6] = [
    ("made 1\nnode 1\nnode 1\nrefused 2\n", FOLDER),
    ("refused 18\nrefused 3\nrefused 3\nrefused 3\n", NOTHING),
    ("made 1\nrefused 18\nnode 1\nrefused 2\n", FOLDER),
    ("made 1\nnode 1\nrefused 18\nrefused 2\n", FOLDER),
    ("made 1\nnode 1\nnode 1\nrefused 18\n", FOLDER),
    ("", NOTHING),
];

/// Runs requests in a version: a profile, a folder, the same again, another folder under its number. Returns at which
/// place of `RUNS` stands what comes of it, or past its end.
fn place_of_run(alloc: Global, service: &mut Service, is_second: bool) -> Option<usize> {
    let lines = if is_second {
        [
            "v2 1 1 create 65536 0 md5",
            "v2 1 2 folder 1 0 0 in",
            "v2 1 2 folder 1 0 0 in",
            "v2 1 2 folder 1 0 0 out",
        ]
    } else {
        [
            "1 1 create 65536 0",
            "1 2 folder 1 0 0 in",
            "1 2 folder 1 0 0 in",
            "1 2 folder 1 0 0 out",
        ]
    };
    let mut frames = Vec::new(alloc);
    for line in lines {
        frames.push(frame_of(alloc, line)?).ok()?;
    }
    let mut text = Vec::new(alloc);
    if let Ok(replies) = service.run(frames) {
        for reply in replies {
            let line = printed(alloc, reply)?;
            text.extend_from_slice(line.as_slice()).ok()?;
        }
    }
    let shown = answer_in_the_end(alloc, service, SHOW)?;
    for (place, row) in RUNS.iter().enumerate() {
        let (printed, state) = *row;
        if text.as_slice() == printed.as_bytes() && shown.as_slice() == state.as_bytes() {
            return Some(place);
        }
    }
    Some(RUNS.len())
}

/// Whether an empty service runs the requests, at once or when they come again.
fn is_run(alloc: Global, is_second: bool) -> Option<bool> {
    let mut service = service(alloc, LARGEST, 256)?;
    let first = place_of_run(alloc, &mut service, is_second)?;
    if first == 0 {
        return Some(true);
    }
    let again = place_of_run(alloc, &mut service, is_second)?;
    Some(first < RUNS.len() && again == 0)
}

/// Begins anew if the test itself had no memory.
fn is_run_in_the_end(alloc: Global, is_second: bool) -> bool {
    match is_run(alloc, is_second) {
        Some(right) => right,
        None => is_run(alloc, is_second) == Some(true),
    }
}

#[test]
fn in_one_run(rt: HostRuntime) {
    assert!(rt; is_run_in_the_end(rt.alloc(), false));
}

#[test]
fn in_one_run_of_version_2(rt: HostRuntime) {
    assert!(rt; is_run_in_the_end(rt.alloc(), true));
}
