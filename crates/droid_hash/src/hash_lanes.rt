//! The hashes of eight files side by side, of one kind that is chosen once. The lanes of each kind do the work.

ghost use Rattle.std.specs.Prelude.{◌≡◌, ◌≢◌, ℕ, ◌<◌, ◌≤◌, List, [], ◌++◌, length, take};
ghost use Rattle.droid_frame.specs.Hashes.{hash};
ghost use Rattle.droid_hash.specs.Lanes.{piece};
ghost use Rattle.droid_hash.specs.Scanning.{Scanned, lanes_kind};

use crate::md5_lanes::Md5Lanes;
use crate::pieces::{fronts, shortest};
use crate::sha256_eight::Sha256Eight;
use droid_frame::{HashKind, HashValue};

/// How many files are hashed side by side. The types of this crate have the 8 written out, and the prover ties the
/// places in them to it; SHA-256 does four and four.
pub const LANES: usize = 8;

/// The hashes, so far, of eight files. Each file has a lane of its own, 0 to 7. No call allocates.
#[derive(Drop)]
pub enum HashLanes {
    /// No hash.
    Nothing,
    /// Eight MD5s (RFC 1321).
    Md5(Md5Lanes),
    /// Eight SHA-256s (FIPS 180-4).
    Sha256(Sha256Eight),
}

impl HashLanes {
    /// Makes eight hashes of this kind, each of no bytes.
    #[tactic(auto, unfolding(crate::specs::Scanning::Scanned))]
    pub fn new(kind: HashKind) -> HashLanes
        ensures kind { lanes_kind result ≡ kind }
        ensures empty { (j : ℕ) → j < 8 → Scanned result j [] }
    {
        match kind {
            HashKind::Nothing => HashLanes::Nothing,
            HashKind::Md5 => HashLanes::Md5(Md5Lanes::new()),
            HashKind::Sha256 => HashLanes::Sha256(Sha256Eight::new()),
        }
    }

    /// Begins a new file in a lane, and forgets the lane's old one. The other lanes keep theirs.
    #[tactic(auto, unfolding(crate::specs::Scanning::Scanned))]
    pub fn begin(&mut self, lane: usize)
        requires { lane < 8 }
        ensures kind { lanes_kind self.new ≡ lanes_kind self.old }
        ensures empty { Scanned self.new lane [] }
        ensures others { (j : ℕ) → j < 8 → j ≢ lane → (bytes : List ℕ) → Scanned self.old j bytes
            → Scanned self.new j bytes }
    {
        match self {
            HashLanes::Nothing => {}
            HashLanes::Md5(eight) => eight.begin(lane),
            HashLanes::Sha256(eight) => eight.begin(lane),
        }
    }

    /// Takes all of each lane's piece. Its caller [`HashLanes::advance`] cuts the pieces to one length first, for
    /// speed.
    #[tactic(auto, unfolding(crate::specs::Scanning::Scanned))]
    fn update(&mut self, pieces: [&[u8]; 8])
        ensures kind { lanes_kind self.new ≡ lanes_kind self.old }
        ensures taken { (j : ℕ) → j < 8 → (bytes : List ℕ) → Scanned self.old j bytes
            → Scanned self.new j (bytes ++ piece j pieces.entry) }
    {
        match self {
            HashLanes::Nothing => {}
            HashLanes::Md5(eight) => eight.update(pieces),
            HashLanes::Sha256(eight) => eight.update(pieces),
        }
    }

    /// Takes the first bytes of each lane's piece, and returns how many: as many as the shortest piece has, of those
    /// that are not empty; 0 if all are. A lane whose piece is empty is idle.
    pub fn advance(&mut self, pieces: [&[u8]; 8]) -> usize
        ensures kind { lanes_kind self.new ≡ lanes_kind self.old }
        ensures taken { (j : ℕ) → j < 8 → (bytes : List ℕ) → Scanned self.old j bytes
            → Scanned self.new j (bytes ++ take result (piece j pieces.entry)) }
        ensures some { (j : ℕ) → j < 8 → 0 < length (piece j pieces.entry) → 0 < result }
        ensures least { (j : ℕ) → j < 8 → 0 < length (piece j pieces.entry) → result ≤ length (piece j pieces.entry) }
        // It is the length of one of the pieces.
        ensures exact { (j : ℕ) × ((j < 8) × (length (piece j pieces.entry) ≡ result)) }
    {
        let count = shortest(pieces);
        self.update(fronts(pieces, count));
        count
    }

    /// Ends a lane's file, returns the hash of its bytes, and begins a new file in the lane. The other lanes keep
    /// theirs.
    #[tactic(auto, unfolding(crate::specs::Scanning::Scanned))]
    pub fn end(&mut self, lane: usize) -> HashValue
        requires { lane < 8 }
        ensures value { (bytes : List ℕ) → Scanned self.old lane bytes → result ≡ hash (lanes_kind self.old) bytes }
        ensures kind { lanes_kind self.new ≡ lanes_kind self.old }
        ensures empty { Scanned self.new lane [] }
        ensures others { (j : ℕ) → j < 8 → j ≢ lane → (bytes : List ℕ) → Scanned self.old j bytes
            → Scanned self.new j bytes }
    {
        match self {
            HashLanes::Nothing => HashValue::Nothing,
            HashLanes::Md5(eight) => HashValue::Md5(eight.end(lane)),
            HashLanes::Sha256(eight) => HashValue::Sha256(eight.end(lane)),
        }
    }
}
