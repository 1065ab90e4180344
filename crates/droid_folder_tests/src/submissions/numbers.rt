//! The numbers of requests that no run of `submit` sends, against numbers that Python computed, with its hashlib, from
//! the definition. tests/program/submissions/submit_known_numbers.py has those of all others, which the program sends.

use droid_remote::number_of;

/// The name of the submission.
const NAME: &str = "/home/ann/Übersicht";

/// The attempt, the kind and the body of a request, and its number.
type Numbered = (u32, u8, &'static [u8], u64);

const NUMBERED: &[Numbered] = &[
    // CreateProfile and AddFolder under another attempt.
    (7, 1, b"\0\x01\0\0\0\x01", 5_083_807_469_733_581_610),
    (
        1,
        2,
        b"\0\0\0\x01\0\0\0\0\0\0\0\0\0\0\0\0data",
        5_636_157_419_640_613_386,
    ),
    // A Piece without bytes, one under another attempt, and one with the greatest fields.
    (0, 4, b"\0\0\0\x01\0\0\0\x01\0\0\0\0", 35_184_373_137_408),
    (1, 4, b"\0\0\0\x01\0\0\0\x01\0\0\0\0abc", 35_184_373_137_408),
    (
        0,
        4,
        b"\xff\xff\xff\xff\xff\xff\xff\xff\xff\xff\xff\xffa",
        5_767_007_487_125_575_951,
    ),
    // Status: packed up to profile 64 and file 131,071.
    (0, 7, b"\0\0\0\x01\0\0\0\x01", 61_572_652_204_032),
    (0, 7, b"\0\0\0@\0\x01\xff\xff", 70_368_743_129_088),
    (0, 7, b"\0\0\0\x01\0\x02\0\0", 4_796_644_087_916_193_447),
    // The last packed part of an export, and the first one behind 2^40 bytes.
    (
        0,
        8,
        b"\0\0\0@\0\0\0\xff\xff\xf0\0\0\0\x10\0\0\x01\0",
        8_658_655_117_311,
    ),
    (
        0,
        8,
        b"\0\0\0\x01\0\0\x01\0\0\0\0\0\0\x10\0\0\x01\0",
        9_042_941_468_037_141_158,
    ),
];

/// Returns whether each request has its number.
fn have_their_numbers() -> bool {
    let mut all = true;
    for (attempt, kind, body, number) in NUMBERED {
        all &= number_of(NAME, *attempt, *kind, body) == Some(*number);
    }
    all
}

#[test]
fn numbers_are_those_that_python_computes(rt: HostRuntime) {
    assert!(rt; have_their_numbers());
}

/// The example of docs/SERVICE.md.
#[test]
fn number_of_a_finish(rt: HostRuntime) {
    // Finish of file 1 in profile 1 has kind 5: 5 · 2^43 + 1 · 2^20.
    let number = number_of("/home/ann/letters", 0, 5, b"\0\0\0\x01\0\0\0\x01");
    assert_eq!(rt; number, Some(43_980_466_159_616));
}
