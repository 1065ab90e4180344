//! The direction of a match, and the bytes that come next in it.

ghost use Rattle.std.specs.Prelude.{◌≡◌, ◌<◌, ◌+◌, ℕ, length, slice_index};
ghost use Rattle.droid_pattern.specs.Positions.{byte_behind};

/// The direction in which a pattern is matched.
#[derive(Clone, Copy)]
pub(crate) enum Direction {
    /// From the first element to the last.
    End,
    /// From the last element to the first.
    Start,
}

impl Direction {
    /// Returns the byte after the first `place` bytes, in this direction. Place 0 has the first byte of `bytes` behind
    /// it, or, toward the start, the last one.
    pub(crate) fn byte_behind(self, bytes: &[u8], place: usize) -> u8
        requires { place < length bytes.now }
        ensures { result ≡ byte_behind self bytes.now place }
    {
        match self {
            Direction::End => bytes[place],
            Direction::Start => bytes[bytes.len() - 1 - place],
        }
    }

    /// Returns the 64 bytes from `start` on, in this direction, or fewer at the end. They stay in file order. 64 is the
    /// number of bits of a word, for `lacks` of `class_set`. No clause forbids further bytes: they would cost time.
    pub(crate) fn next_bytes(self, bytes: &[u8], start: usize) -> &[u8]
        ensures { (i : ℕ) → i < 64 → start + i < length bytes.now
            → ((k : ℕ) × (k < length result.now)
            × (slice_index result.now k ≡ byte_behind self bytes.now (start + i))) }
    {
        let rest = bytes.len().saturating_sub(start);
        let count = rest.min(64);
        match self {
            Direction::End => {
                let low = bytes.len() - rest;
                &bytes[low..low + count]
            }
            Direction::Start => &bytes[rest - count..rest],
        }
    }
}
