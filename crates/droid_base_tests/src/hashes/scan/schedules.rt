//! Schedules by chance, from a fixed seed: pieces of any lengths in any lanes, and files that end or begin at any time,
//! against the hash of each file's bytes at once.

use crate::hashes::chance::{LEN, Span, below, filled, lens, next};
use droid_frame::{HashKind, HashValue};
use droid_hash::HashLanes;
use md5::{Digest as Md5Digest, Md5};
use sha2::{Digest as Sha2Digest, Sha256};

fn hash_of(kind: HashKind, bytes: &[u8]) -> HashValue {
    match kind {
        HashKind::Nothing => HashValue::Nothing,
        HashKind::Md5 => HashValue::Md5(Md5::digest(bytes)),
        HashKind::Sha256 => HashValue::Sha256(Sha256::digest(bytes)),
    }
}

// A lane ends in each turn, and in some another one begins.
fn is_right(bytes: &[u8; LEN], kind: HashKind) -> bool {
    let mut lanes = HashLanes::new(kind);
    let mut spans = [Span::at(0); 8];
    let mut seed = 1321;
    let mut right = true;
    for turn in 0..3000usize {
        let lens = lens(seed, turn);
        let taken = lanes.advance([
            spans[0].piece(bytes, lens[0]),
            spans[1].piece(bytes, lens[1]),
            spans[2].piece(bytes, lens[2]),
            spans[3].piece(bytes, lens[3]),
            spans[4].piece(bytes, lens[4]),
            spans[5].piece(bytes, lens[5]),
            spans[6].piece(bytes, lens[6]),
            spans[7].piece(bytes, lens[7]),
        ]);
        for lane in 0..8 {
            spans[lane] = spans[lane].grown(bytes, lens[lane], taken);
        }
        seed = next(next(seed));
        let (lane, other) = (below(seed, 8), below(next(seed), 40));
        right &= lanes.end(lane) == hash_of(kind, spans[lane].bytes(bytes));
        spans[lane] = Span::at(seed);
        if other < 8 {
            lanes.begin(other);
            spans[other] = Span::at(next(seed));
        }
    }
    right
}

#[test]
fn any_schedule(rt: HostRuntime) {
    let bytes = filled();
    for kind in [HashKind::Md5, HashKind::Sha256, HashKind::Nothing] {
        assert!(rt; is_right(&bytes, kind));
    }
}
