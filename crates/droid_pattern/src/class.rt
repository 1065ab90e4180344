//! Classes of bytes: whether a byte, or the byte at a place, is in one; and the slot of a class in the cache.

ghost use Rattle.std.specs.Prelude.{◌≡◌, ◌↔◌, ◌-◌, ◌<◌, ◌≤◌, IsTrue, true, length, slice_index};
ghost use Rattle.droid_pattern.specs.Tokens.{accepts};

/// A class of bytes that one element of a pattern accepts.
#[derive(Clone, Copy, PartialEq, Eq)]
pub(crate) enum Class {
    /// Exactly this byte.
    Byte(u8),
    /// A byte from `low` to `high`, both included.
    Range { low: u8, high: u8 },
    /// Any byte but this one.
    Except(u8),
}

impl Class {
    /// Returns whether the byte is in the class.
    pub(crate) fn accepts(self, byte: u8) -> bool
        ensures { result ≡ accepts self byte }
    {
        match self {
            Class::Byte(wanted) => byte == wanted,
            Class::Range { low, high } => low <= byte && byte <= high,
            Class::Except(barred) => byte != barred,
        }
    }

    /// Returns whether there is a byte at this place, counted from the start of `bytes`, and it is in the class.
    pub(crate) fn is_at(self, bytes: &[u8], place: usize) -> bool
        ensures { IsTrue result ↔ ((place < length bytes.now) × (accepts self (slice_index bytes.now place) ≡ true)) }
    {
        if place < bytes.len() {
            self.accepts(bytes[place])
        } else {
            false
        }
    }

    /// Returns whether there is a byte just before this position and it is in the class.
    pub(crate) fn is_before(self, bytes: &[u8], end: usize) -> bool
        requires { end ≤ length bytes.now }
        ensures { IsTrue result ↔ ((0 < end) × (accepts self (slice_index bytes.now (end - 1)) ≡ true)) }
    {
        if end > 0 {
            self.accepts(bytes[end - 1])
        } else {
            false
        }
    }

    /// Returns the slot of the class in the cache of bit sets.
    ///
    /// There are four times 256 slots: for each byte, each excluded byte, each first byte of a range and each last byte
    /// of a range. `class_set::one` asks for a range in two halves, from its first byte to 255 and from 0 to its last
    /// byte, so that each half has a slot of its own. No clause asks for different slots: classes of one slot replace
    /// each other, which takes time.
    pub(crate) fn slot(self) -> usize
        ensures { result < 1024 }
    {
        match self {
            Class::Byte(wanted) => usize::from(wanted),
            Class::Except(barred) => 256 + usize::from(barred),
            Class::Range { low: 0, high } => 768 + usize::from(high),
            Class::Range { low, .. } => 512 + usize::from(low),
        }
    }
}
