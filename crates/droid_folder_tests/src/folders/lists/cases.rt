//! Lists beside what was found: each kind of difference, alone and beside others, and a path that a side has twice. The
//! reports of the first cases are written by hand; those of the last sixty, which are random, were computed from the
//! definition by brute force, in Python.

use droid_fixity::{Difference, Inventory, compare, same_items_have_no_difference};
use droid_frame::{Blob, Changes, HashValue, Item, NodeKind};
use std::alloc::{AllocError, Global};
use std::test::Fail;

/// The items of a list, those that were found, and the differences, or the path that a side has twice. A space stands
/// between items.
///
/// An item begins with five letters: `f` for a file or `d` for a folder, its length (0: none), the last digit of its
/// moment (`-`: none), the kind of its hash (0: none, 1: MD5, 2: SHA-256), and the hash's last byte. Its path stands
/// behind them.
///
/// A difference has four letters: `c` for changed, `-` for missing, `+` for new, `>` for moved or `t` for touched, the
/// places in the list and among what was found (`.`: none), and what changed: `k` for the kind, `l` for the length, `h`
/// for the hash or `b` for both length and hash.
#[rattlefmt::skip]
const CASES: [(&str, &str, &str); 99] = [
    ("", "", ""), // nothing on both sides
    ("d0100/d f5211/d/a", "f5211/d/a d0100/d", ""), // all the same, a folder too
    ("f5111/a", "f5112/a", "c00h"), // another hash, of which all bytes but the last are the same
    ("f5121/a", "f5122/a", "c00h"), // another SHA-256
    ("f5111/a", "f6111/a", "c00l"), // another length
    ("f5100/a", "f6111/a", "c00l"), // another length, no hash in the list
    ("f5111/a", "f6112/a", "c00b"), // another length and hash
    ("f5111/a", "f5122/a", ""), // hashes of two kinds are not compared
    ("f5100/a", "f5112/a", ""), // a hash is compared only where both have one
    ("f0111/a", "f9111/a", ""), // a length is compared only where both have one
    ("f5111/a", "f5211/a", "t00."), // another moment
    ("d0100/d", "d0200/d", "t00."), // a folder's moment
    ("f5-11/a", "f5211/a", ""), // a moment is compared only where both have one
    ("f5111/a", "f6211/a", "c00l"), // another moment and another length are one change
    ("f5111/a f5112/b", "f5112/b", "-0.."), // a file is missing
    ("d0100/a", "", "-0.."), // a folder is missing
    ("f5112/b", "f5111/a f5112/b", "+.0."), // a file is new
    ("f5111/a", "f5111/a f5113/z", "+.1."), // a new file after all others
    ("f5111/a", "d0100/a", "c00k"), // a file became a folder
    ("d0100/a", "f5111/a", "c00k"), // a folder became a file
    ("f5111/x/a", "f5112/y/a", "-0..+.0."), // a file of another folder with the same name
    ("f5111/b", "f5111/a", ">00."), // a move, reported once at its place in the list
    ("f5121/a", "f5121/b", ">00."), // a move of a SHA-256
    ("f5111/a", "f5211/b", ">00."), // a move whose moment differs
    ("f0-11/a", "f5211/b", ">00."), // a move whose length is not in the list
    ("f5111/a", "f6111/b", "-0..+.0."), // no move: the lengths differ
    ("f5100/a", "f5100/b", "-0..+.0."), // no move: no hash
    ("f5111/a", "f5112/b", "-0..+.0."), // no move: only the first bytes of the hash
    ("f5111/a f5111/b", "f5111/c", "-0..-1..+.0."), // no move: two missing files
    ("f5111/c", "f5111/a f5111/b", "+.0.+.1.-0.."), // no move: two new files
    ("f5111/a", "f5111/a f5111/b", "+.1."), // no move: the file is still there
    ("f5111/a f5111/b", "f5111/b f5111/c", ">01."), // a copy that stays beside one that moved
    ("d0111/a", "d0111/b", "-0..+.0."), // no move of a folder
    ("f5111/a d0111/d", "f5111/b", ">00.-1.."), // a folder with the hash of a file that moved
    ("f5111/a f5112/b", "f5112/c f5111/d", ">01.>10."), // two moves
    ("f5111/a/b f5112/a-b d0100/a", "", "-0..-1..-2.."), // the order is that of bytes
    ("f5111/a f5113/c f5115/e f5116/f", "f5119/a f5112/b f5113/d f5216/f", "c00h+.1.>12.-2..t33."), // all kinds at once
    ("f5111/b f5111/a f6111/b", "", "/b"), // a list with one path twice
    ("", "f5111/a f5111/a", "/a"), // a tree with one path twice
    // random ones
    ("d0-01/a-b d0-02/c f0201/b f0211/a", "f5-11/a/b d0-01/a f0-12/b", "c00k-1..+.1.-3.."),
    ("d0-01/c", "f0102/a/b f6-11/b f5211/c f6-02/a d0-02/a-b", "+.0.+.1.+.2.+.3.c04k"),
    ("f0201/a f0-12/b f5111/a/b", "d0-01/a-b f6112/c f6-12/a f0-12/a/b", "+.1.c12h>23."),
    ("f6201/a", "f6-12/c d0-01/a-b f5-12/a/b f0211/b f6-12/a", "+.1.+.2.+.3.+.4."),
    ("f0-11/a-b f5111/b f6102/a/b f6-12/c f6112/a", "f5112/a-b f6112/c f6211/b d0202/a d0-01/a/b", "c00kc11hc22kc33l"),
    ("d0202/a-b", "f6101/a f5-11/b f0211/c f0-11/a/b f6-12/a-b", "+.0.c01k+.2.+.3.+.4."),
    ("f0102/b f5202/a", "", "-0..-1.."),
    ("f5111/c f6111/a-b f5211/a f5-11/a/b", "f6212/c d0202/a/b", "-0..-1..c20kc31b"),
    ("f5112/b f5112/c f0-11/a", "d0-02/a f5-11/a/b", "c00k+.1.-1..-2.."),
    ("f0112/b", "f6111/b f5-01/a f5-11/c f5212/a-b", "+.0.+.1.c02h+.3."),
    ("d0-02/a/b d0202/a-b f5111/c", "f5-01/c f0-02/b f0211/a/b", "-0..c10k+.1."), ("", "", ""),
    ("f0-12/c", "f5-01/a/b", "+.0.-0.."), ("", "f6-11/a f0112/b f6101/a-b f0112/c", "+.0.+.1.+.2.+.3."),
    ("", "d0102/a/b f0-02/a-b f6-01/c f5-12/a", "+.0.+.1.+.2.+.3."),
    ("f6201/a-b d0201/a f0211/c", "f6112/c f5112/b f6-12/a/b f0-11/a f5211/a-b", "c00kc11l+.2.+.3.c24h"),
    ("d0102/b f0-11/a-b f5212/c", "", "-0..-1..-2.."), ("f0202/a/b d0102/a-b", "", "-0..-1.."),
    ("f5111/a f0-11/b f6-12/a/b f0212/c f6211/a-b", "d0202/a/b", "-0..-1..c20k-3..-4.."),
    ("", "f0-11/a f0202/b f0-12/a-b", "+.0.+.1.+.2."),
    ("", "", ""), ("f0-11/b f6211/c", "", "-0..-1.."),
    ("f0-11/a f5212/c", "d0-01/a/b f5-12/a f0-11/c f5-11/a-b", "c00h+.1.+.2.c13h"),
    ("f5101/a/b f5202/a f0-11/a-b", "f5-11/a f0112/c f0-01/a-b f0112/a/b d0-01/b", "+.3.+.4."),
    ("f0-11/b f6-12/a/b f5202/c f0211/a", "f5-01/a d0201/a/b f0-12/a-b", "+.1.c12k-2..-3.."),
    ("f0111/a-b f0-12/b f0-12/a/b f0202/a d0-02/c", "f0-12/b f6-12/a f6211/c", "-1..-2..c42k"),
    ("f6-12/a/b f0112/b d0-02/c d0-01/a", "", "-0..-1..-2..-3.."),
    ("", "f0-12/a-b f0211/c f6-12/b f6111/a f5101/a/b", "+.0.+.1.+.2.+.3.+.4."),
    ("", "f5212/b f0112/a/b f0112/a f6-11/a-b f5-02/c", "+.0.+.1.+.2.+.3.+.4."), ("f0201/b", "f5-11/a/b", "+.0.-0.."),
    ("f0-12/b f5-12/a-b d0202/a f6111/c", "f6101/b d0101/a-b d0201/c", "-0..c10kc32k"),
    ("f5211/b f0-11/a", "f0211/a f5-02/a/b", "+.1.-1.."),
    ("f0101/a/b f5201/a", "d0201/a/b", "-0..c10k"), ("f6201/c f6201/a f6212/a/b", "", "-0..-1..-2.."),
    ("f0202/a-b", "f5-12/b", "-0..+.0."),
    ("f5-02/a f5-11/c", "f0101/b f5-11/a-b f5111/c f6-11/a/b f5112/a", "+.1.+.2.+.3."),
    ("d0-02/c f0211/b f6-01/a", "f6-11/b", "-0..-2.."), ("d0-02/a/b f0-12/a f6212/a-b d0-02/c", "", "-0..-1..-2..-3.."),
    ("d0-02/a/b f5-12/b f6-02/a d0102/c f5211/a-b", "f5-12/a-b f5-11/a", "c00lc11h-2..-3..-4.."),
    ("f6201/a-b f0211/a f6-01/b f6211/a/b d0101/c", "f0112/a-b f6-12/c d0-02/a/b", "-0..t10.c21k-3..c42k"),
    ("", "d0202/a-b", "+.0."), ("f5-12/c d0-02/b f5-11/a f5111/a-b", "f6111/a-b", "-0..c10l-2..-3.."),
    ("", "d0-01/a f6212/a-b f5-12/c d0101/b f5211/a/b", "+.0.+.1.+.2.+.3.+.4."), ("", "f0202/a f0202/a/b", "+.0.+.1."),
    ("f0-01/a f6211/a-b f6211/a/b f6-11/c d0101/b", "f6212/a-b", "-0..c10h-2..-3..-4.."),
    ("f5212/c f6-11/a-b f6-11/a/b f0-12/a", "f6111/b f6-11/a/b f6212/a-b f0112/c", "-0..c10h+.2.t33."),
    ("d0-02/b f6-02/a-b", "d0202/a-b", "c00k-1.."),
    ("d0101/c f5-12/b d0-01/a/b", "f0-11/a f6-11/b f0-12/c f0-12/a-b", "+.0.+.1.-0..c12bc23k"),
    ("f5-11/a f5212/a-b f0-11/b f5-02/c f6101/a/b", "f5-11/b", "-0..-1..-2..-4.."),
    ("f0-12/b f0111/c f6101/a d0202/a-b f0111/a/b", "d0-02/c", "-0..-1..-2..-3..c40k"),
    ("f6-11/a f6211/b f5-02/a/b f5112/c f6212/a-b", "f5-02/c f6101/b f5-12/a", "c00b-1..-2..t31."),
    ("", "f6-02/a f5-12/c", "+.0.+.1."),
    ("f5-12/b", "", "-0.."), ("f0111/a-b d0-02/a f5102/a/b f6201/c", "f6102/a-b f0211/c", "-0..-2.."),
    ("f0112/a", "f6101/c f6-01/a f5111/b f5112/a-b", "+.1.+.2.+.3."),
    ("d0-02/c f5-02/b d0102/a/b d0-02/a-b", "f6212/b f5-12/a-b f6-12/a", "+.0.c01k-1..c22l-3.."),
    ("", "f0212/b d0-01/a", "+.0.+.1."), ("f0-01/a-b f5211/a d0102/a/b f5-01/c", "d0101/a", "c00k-1..-2..-3.."),
    ("f6112/a", "f0-11/a/b f5-01/a-b f6-12/c", ">02.+.0.+.1."),
    ("", "f0111/a-b d0201/a d0-02/a/b f5111/b d0102/c", "+.0.+.1.+.2.+.3.+.4."),
];

#[test]
fn each_case(rt: HostRuntime) -> Result<(), Fail> {
    same_items_have_no_difference();
    for (place, (listed, found, due)) in CASES.iter().enumerate() {
        assert!(rt; is_reported(rt.alloc(), listed, found, due)?, "{place}");
    }
    Ok(())
}

/// Returns whether these are the differences of two sides.
pub(crate) fn is_reported(
    alloc: Global,
    listed: &str,
    found: &str,
    due: &str,
) -> Result<bool, AllocError> {
    let listed = match Inventory::of(items(alloc, listed)?) {
        Ok(listed) => listed,
        Err(twice) => return Ok(twice.path.as_slice() == due.as_bytes()),
    };
    let found = match Inventory::of(items(alloc, found)?) {
        Ok(found) => found,
        Err(twice) => return Ok(twice.path.as_slice() == due.as_bytes()),
    };
    let report = compare(alloc, &listed, &found)?;
    let mut text = Vec::new(alloc);
    for difference in report.as_slice() {
        text.extend_from_slice(&letters_of(*difference))?;
    }
    Ok(text.as_slice() == due.as_bytes())
}

fn letters_of(difference: Difference) -> [u8; 4] {
    match difference {
        Difference::Changed {
            listed,
            found,
            changes,
        } => [b'c', digit(listed), digit(found), letter_of(changes)],
        Difference::Missing { listed } => [b'-', digit(listed), b'.', b'.'],
        Difference::New { found } => [b'+', b'.', digit(found), b'.'],
        Difference::Moved { listed, found } => [b'>', digit(listed), digit(found), b'.'],
        Difference::Touched { listed, found } => [b't', digit(listed), digit(found), b'.'],
    }
}

fn digit(place: usize) -> u8 {
    b'0' + (place % 10) as u8
}

fn letter_of(changes: Changes) -> u8 {
    match (changes.kind, changes.length, changes.hash) {
        (true, false, false) => b'k',
        (false, true, false) => b'l',
        (false, false, true) => b'h',
        (false, true, true) => b'b',
        _ => b'?',
    }
}

/// Makes items, which have a space between them.
pub(crate) fn items(alloc: Global, rows: &str) -> Result<Vec<Item>, AllocError> {
    let mut items = Vec::new(alloc);
    for row in rows.as_bytes().split(|byte| *byte == b' ') {
        if let [kind, length, digit, hash, last, path @ ..] = row {
            items.push(Item {
                path: Blob::copy_of(alloc, path)?,
                kind: kind_of(*kind),
                length: length_of(*length),
                modified: moment_of(*digit),
                hash: hash_of(*hash, *last),
            })?;
        }
    }
    Ok(items)
}

fn kind_of(letter: u8) -> NodeKind {
    match letter {
        b'f' => NodeKind::File,
        _ => NodeKind::Folder,
    }
}

fn length_of(digit: u8) -> Option<u64> {
    match digit {
        b'0' => None,
        _ => Some(u64::from(digit.wrapping_sub(b'0'))),
    }
}

fn moment_of(digit: u8) -> Option<[u8; 19]> {
    if digit == b'-' {
        return None;
    }
    let mut moment = *b"2026-01-31T23:59:50";
    moment[18] = digit;
    Some(moment)
}

/// Returns a hash whose bytes are 7, but for the last one.
fn hash_of(kind: u8, last: u8) -> HashValue {
    match kind {
        b'1' => {
            let mut digest = [7_u8; 16];
            digest[15] = last;
            HashValue::Md5(digest)
        }
        b'2' => {
            let mut digest = [7_u8; 32];
            digest[31] = last;
            HashValue::Sha256(digest)
        }
        _ => HashValue::Nothing,
    }
}
