//! The first and the last bytes of files of many sizes, against slices of the whole file.

use crate::hashes::chance::{LEN, below, filled, next, part};
use droid_hash::EndBytes;
use std::alloc::{AllocError, Global};
use std::test::Fail;

// Gives a file's bytes in pieces of chance lengths, and more bytes than its size after them. Returns whether the ends
// are then those of the file's bytes.
fn has_ends(ends: &mut EndBytes, bytes: &[u8; LEN], size: usize, limit: usize) -> bool {
    ends.begin(size as u64);
    let (mut seed, mut from) = (size as u64, 0usize);
    for _ in 0..LEN {
        if from >= size {
            break;
        }
        seed = next(seed);
        let to = below(seed, 90)
            .saturating_add(1)
            .saturating_add(from)
            .min(size);
        ends.take(part(bytes, from, to));
        from = to;
    }
    ends.take(part(bytes, 0, 3));
    let first = part(bytes, 0, limit.min(size));
    let last = part(bytes, size.saturating_sub(limit), size);
    ends.first() == first && ends.last() == last
}

// Returns whether a value of this limit has the ends of each size up to 640, file after file.
fn every_size(alloc: Global, bytes: &[u8; LEN], limit: usize) -> Result<bool, AllocError> {
    let mut ends = EndBytes::new(alloc, limit)?;
    let mut right = ends.first().is_empty() && ends.last().is_empty();
    for size in 0..641 {
        right &= has_ends(&mut ends, bytes, size, limit);
    }
    Ok(right)
}

#[test]
fn every_size_under_every_limit(rt: HostRuntime) -> Result<(), Fail> {
    let bytes = filled();
    for limit in [0, 1, 7, 64, 100, 300] {
        assert!(rt; every_size(rt.alloc(), &bytes, limit)?, "limit {limit}");
    }
    Ok(())
}
