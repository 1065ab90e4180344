//! Limits of profiles, of nodes and of unfinished files that are smaller than the program's.

use crate::requests::steps::{CREATE, Step, answer, is_answered, service};
use droid_core::Limits;
use std::alloc::Global;

const ONE_FOLDER: &[Step] = &[
    CREATE,
    ("1 2 folder 1 0 0 in", "node 1\n"),
    ("1 3 folder 1 0 0 out", "refused 17 nodes\n"),
    ("1 2 folder 1 0 0 in", "node 1\n"),
];

const ONE_ABANDONED: &[Step] = &[
    CREATE,
    ("1 2 file 1 0 0 4 4 x", "node 1\n"),
    ("1 3 abandon 1 1", "abandoned\n"),
    ("1 4 file 1 0 0 4 4 x", "refused 17 nodes\n"),
];

const ANOTHER_PROFILE: &[Step] = &[
    CREATE,
    ("2 1 create 65536 0", "refused 17 profiles\n"),
    CREATE,
    ("1 1 create 1 0", "refused 2\n"),
];

const NO_PROFILE: &[Step] = &[("1 1 create 65536 0", "refused 17 profiles\n")];

// The first file is abandoned, and then the second is finished.
const ABANDONED_AND_FINISHED: &[Step] = &[
    CREATE,
    ("1 2 file 1 0 0 4 4 x", "node 1\n"),
    ("1 3 file 1 0 0 0 4 y.txt", "refused 17 unfinished\n"),
    ("1 4 abandon 1 1", "abandoned\n"),
    ("1 3 file 1 0 0 0 4 y.txt", "node 2\n"),
    ("1 5 file 1 0 0 4 4 z", "refused 17 unfinished\n"),
    (
        "1 6 finish 1 2",
        "finished Extension false d41d8cd98f00b204e9800998ecf8427e dev/4\n",
    ),
    ("1 5 file 1 0 0 4 4 z", "node 3\n"),
];

const ANOTHER: Step = ("2 1 create 1 0", "made 2\n");

const FILE: Step = ("3 0 file 1 0 0 4 4 f0", "node 1\n");

const FILE_2: Step = ("3 1 file 2 0 0 4 4 f1", "node 1\n");

const MORE: Step = ("3 100 file 1 0 0 4 4 x", "refused 17 unfinished\n");

const MORE_2: Step = ("3 100 file 2 0 0 0 1 x", "refused 17 unfinished\n");

/// The limits of profiles, of nodes and of unfinished files, and the steps. The last limit is that of the whole
/// service: in each of two profiles one more is too many.
const LIMITED: [(u32, u32, u32, &[Step]); 8] = [
    (64, 1, 64, ONE_FOLDER),
    (64, 1, 64, ONE_ABANDONED),
    (1, 100_000, 64, ANOTHER_PROFILE),
    (0, 0, 0, NO_PROFILE),
    (64, 100_000, 1, ABANDONED_AND_FINISHED),
    (2, 100_000, 0, &[CREATE, ANOTHER, MORE, MORE_2]),
    (2, 100_000, 1, &[CREATE, ANOTHER, FILE, MORE, MORE_2]),
    (
        2,
        100_000,
        2,
        &[CREATE, ANOTHER, FILE, FILE_2, MORE, MORE_2],
    ),
];

/// Whether a service that caches one reply and one that caches 256 answer each step so, at once and once more; and then
/// all steps alike, and those of accepted commands as before.
fn are_answered(alloc: Global, limits: Limits, steps: &[Step<'_>]) -> Option<bool> {
    let mut few = service(alloc, limits, 1)?;
    let mut many = service(alloc, limits, 256)?;
    let mut right = true;
    for step in steps {
        for _ in 0..2u32 {
            right &= is_answered(alloc, &mut few, step) & is_answered(alloc, &mut many, step);
        }
    }
    for step in steps {
        let (line, wanted) = *step;
        let text = answer(alloc, &mut few, line)?;
        let is_refusal = matches!(wanted.as_bytes().first(), Some(b'r'));
        right &= is_refusal | (text.as_slice() == wanted.as_bytes());
        let other = answer(alloc, &mut many, line)?;
        right &= text.as_slice() == other.as_slice();
    }
    Some(right)
}

#[test]
fn limits(rt: HostRuntime) {
    for (place, row) in LIMITED.iter().enumerate() {
        let (profiles, nodes, unfinished, steps) = *row;
        let limits = Limits {
            profiles,
            nodes,
            unfinished,
        };
        let right = are_answered(rt.alloc(), limits, steps);
        assert!(rt; right == Some(true), "row {place}");
    }
}
