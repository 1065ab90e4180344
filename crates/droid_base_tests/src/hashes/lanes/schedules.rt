//! Schedules by chance, from a fixed seed: pieces of any lengths in any lanes, and lanes that end or begin at any time,
//! against one message after the other by the kit's `md5` and `sha2`.

use crate::hashes::chance::{LEN, Span, below, filled, lens, next};
use droid_hash::{Md5Lanes, Sha256Lanes};
use md5::{Digest as Md5Digest, Md5};
use sha2::{Digest as Sha2Digest, Sha256};

// A lane ends in each turn, and in some another one begins.
fn md5_is_right(bytes: &[u8; LEN]) -> bool {
    let mut lanes = Md5Lanes::new();
    let mut spans = [Span::at(0); 8];
    let mut seed = 1321;
    let mut right = true;
    for turn in 0..3000usize {
        let lens = lens(seed, turn);
        lanes.update([
            spans[0].piece(bytes, lens[0]),
            spans[1].piece(bytes, lens[1]),
            spans[2].piece(bytes, lens[2]),
            spans[3].piece(bytes, lens[3]),
            spans[4].piece(bytes, lens[4]),
            spans[5].piece(bytes, lens[5]),
            spans[6].piece(bytes, lens[6]),
            spans[7].piece(bytes, lens[7]),
        ]);
        for lane in 0..8 {
            spans[lane] = spans[lane].grown(bytes, lens[lane], LEN);
        }
        seed = next(next(seed));
        let (lane, other) = (below(seed, 8), below(next(seed), 40));
        let digest = Md5::digest(spans[lane].bytes(bytes));
        right &= lanes.digests()[lane] == digest && lanes.end(lane) == digest;
        spans[lane] = Span::at(seed);
        if other < 8 {
            lanes.begin(other);
            spans[other] = Span::at(next(seed));
        }
    }
    right
}

fn sha256_is_right(bytes: &[u8; LEN]) -> bool {
    let mut lanes = Sha256Lanes::new();
    let mut spans = [Span::at(0); 4];
    let mut seed = 1804;
    let mut right = true;
    for turn in 0..3000usize {
        let lens = lens(seed, turn);
        lanes.update([
            spans[0].piece(bytes, lens[0]),
            spans[1].piece(bytes, lens[1]),
            spans[2].piece(bytes, lens[2]),
            spans[3].piece(bytes, lens[3]),
        ]);
        for lane in 0..4 {
            spans[lane] = spans[lane].grown(bytes, lens[lane], LEN);
        }
        seed = next(next(seed));
        let (lane, other) = (below(seed, 4), below(next(seed), 20));
        let digest = Sha256::digest(spans[lane].bytes(bytes));
        right &= lanes.digests()[lane] == digest && lanes.end(lane) == digest;
        spans[lane] = Span::at(seed);
        if other < 4 {
            lanes.begin(other);
            spans[other] = Span::at(next(seed));
        }
    }
    right
}

#[test]
fn any_schedule(rt: HostRuntime) {
    let bytes = filled();
    assert!(rt; md5_is_right(&bytes));
    assert!(rt; sha256_is_right(&bytes));
}
