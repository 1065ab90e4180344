//! The bytes with which a match can begin, as two ranges: whether a byte is one of them, and how they grow by a byte.

ghost use Rattle.std.specs.Prelude.{◌≡◌, ◌↔◌, ◌≤◌, ℕ, IsTrue};
ghost use Rattle.droid_pattern.specs.FirstBytes.{Has};

/// The bytes of two ranges, from the low to the high one, both included.
///
/// Each match of a pattern begins with one of them. There may be more of them than matches begin with.
#[derive(Clone, Copy)]
pub struct FirstBytes {
    pub low: u8,
    pub high: u8,
    pub other_low: u8,
    pub other_high: u8,
}

impl FirstBytes {
    /// Returns the bytes from `low` to `high`, both included.
    pub(crate) fn range(low: u8, high: u8) -> FirstBytes
        ensures { (b : ℕ) → low ≤ b → b ≤ high → Has result b }
    {
        FirstBytes {
            low,
            high,
            other_low: low,
            other_high: high,
        }
    }

    /// Returns whether this byte lies in one of the two ranges.
    pub fn has(self, byte: u8) -> bool
        ensures { IsTrue result ↔ Has self byte }
    {
        (self.low <= byte && byte <= self.high)
            || (self.other_low <= byte && byte <= self.other_high)
    }

    /// Adds a byte. If there are two ranges already, the nearer one grows.
    pub(crate) fn with(self, byte: u8) -> FirstBytes
        ensures added { Has result byte }
        ensures kept { (b : ℕ) → Has self b → Has result b }
    {
        if self.has(byte) {
            return self;
        }
        if self.is_one_range() {
            return self.beside(byte);
        }
        if self.is_near(byte) {
            self.first_grown(byte)
        } else {
            self.other_grown(byte)
        }
    }

    /// Returns whether both ranges are equal, as `range` makes them. Then the other one is free to take a byte.
    fn is_one_range(self) -> bool
        ensures { IsTrue result → (self.low ≡ self.other_low) × (self.high ≡ self.other_high) }
    {
        self.low == self.other_low && self.high == self.other_high
    }

    /// Makes the byte the other range. Both ranges are equal before, so no byte is lost.
    fn beside(self, byte: u8) -> FirstBytes
        requires low { self.low ≡ self.other_low }
        requires high { self.high ≡ self.other_high }
        ensures added { Has result byte }
        ensures kept { (b : ℕ) → Has self b → Has result b }
    {
        FirstBytes {
            low: self.low,
            high: self.high,
            other_low: byte,
            other_high: byte,
        }
    }

    /// Returns whether the byte is as near to the first range as to the other one, or nearer. It has no contract, and
    /// needs none: whichever range grows, both have all bytes, but the nearer one gets fewer that no match begins with.
    fn is_near(self, byte: u8) -> bool {
        distance(self.low, self.high, byte) <= distance(self.other_low, self.other_high, byte)
    }

    /// Widens the first range so that it has this byte.
    fn first_grown(self, byte: u8) -> FirstBytes
        ensures added { Has result byte }
        ensures kept { (b : ℕ) → Has self b → Has result b }
    {
        FirstBytes {
            low: self.low.min(byte),
            high: self.high.max(byte),
            other_low: self.other_low,
            other_high: self.other_high,
        }
    }

    /// Widens the other range so that it has this byte.
    fn other_grown(self, byte: u8) -> FirstBytes
        ensures added { Has result byte }
        ensures kept { (b : ℕ) → Has self b → Has result b }
    {
        FirstBytes {
            low: self.low,
            high: self.high,
            other_low: self.other_low.min(byte),
            other_high: self.other_high.max(byte),
        }
    }
}

/// Returns how far a byte is from a range, 0 if it is inside. It has no contract, as [`FirstBytes::is_near`], which
/// alone calls it.
fn distance(low: u8, high: u8, byte: u8) -> u8 {
    if byte < low {
        low - byte
    } else {
        byte.saturating_sub(high)
    }
}
