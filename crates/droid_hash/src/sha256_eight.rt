//! Eight running SHA-256s, each of a message of its own: two times four, since four words fill a vector of
//! [`Sha256Lanes`]. Each call finds the half.

ghost use Rattle.std.specs.Prelude.{◌≡◌, ◌≢◌, ℕ, ◌<◌, List, [], ◌++◌};
ghost use Rattle.sha2.specs.Sha256.{sha256};
ghost use Rattle.droid_hash.specs.Lanes.{piece};
ghost use Rattle.droid_hash.specs.Halves.{HoldsOf};

use crate::sha256_lanes::Sha256Lanes;

/// Eight messages that are hashed side by side, four and four. No call allocates.
#[derive(Drop)]
pub struct Sha256Eight {
    // Lanes 0 to 3.
    low: Sha256Lanes,
    // Lanes 4 to 7.
    high: Sha256Lanes,
}

impl Sha256Eight {
    /// Makes eight hashes of the empty message.
    pub fn new() -> Sha256Eight
        ensures { (j : ℕ) → j < 8 → HoldsOf result j [] }
    {
        let low = Sha256Lanes::new();
        let high = Sha256Lanes::new();
        Sha256Eight { low, high }
    }

    /// Adds to each lane's message the lane's piece. A lane whose piece is empty is idle.
    pub fn update(&mut self, pieces: [&[u8]; 8])
        ensures { (j : ℕ) → j < 8 → (m : List ℕ) → HoldsOf self.old j m
            → HoldsOf self.new j (m ++ piece j pieces.entry) }
    {
        let [a, b, c, d, e, f, g, h] = pieces;
        self.low.update([a, b, c, d]);
        self.high.update([e, f, g, h]);
    }

    /// Begins a new message in a lane, and forgets the lane's old one. The other lanes keep theirs.
    pub fn begin(&mut self, index: usize)
        requires { index < 8 }
        ensures empty { HoldsOf self.new index [] }
        ensures others { (j : ℕ) → j < 8 → j ≢ index → (m : List ℕ) → HoldsOf self.old j m → HoldsOf self.new j m }
    {
        if index < 4 {
            self.low.begin(index);
        } else {
            self.high.begin(index - 4);
        }
    }

    /// Ends a lane's message, returns its digest, and begins a new message in the lane. The other lanes keep theirs.
    pub fn end(&mut self, index: usize) -> [u8; 32]
        requires { index < 8 }
        ensures digest { (m : List ℕ) → HoldsOf self.old index m → result ≡ sha256 m }
        ensures empty { HoldsOf self.new index [] }
        ensures others { (j : ℕ) → j < 8 → j ≢ index → (m : List ℕ) → HoldsOf self.old j m → HoldsOf self.new j m }
    {
        if index < 4 {
            self.low.end(index)
        } else {
            self.high.end(index - 4)
        }
    }
}
