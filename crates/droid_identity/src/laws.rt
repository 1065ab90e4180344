//! Laws of matches and bases. Each is the contract of a function that does nothing.

ghost use Rattle.std.specs.Prelude.{◌≡◌, ◌↔◌, ℕ, List};
ghost use Rattle.droid_pronom.specs.Found.{Hits};
ghost use Rattle.droid_pronom.specs.Registry.{Signed};
ghost use Rattle.droid_pronom.specs.declared.rows.ByteSequence.{ByteSequence};
ghost use Rattle.droid_identity.specs.Matches.{AreEnds, HitsEnds, HitsIn, IsNearest, IsNearestOfEnds};
ghost use Rattle.droid_identity.specs.Bases.{IsBasis};
ghost use Rattle.droid_identity.specs.declared.found_match.Match.{Match};
ghost use Rattle.droid_identity.specs.declared.hit_signature.SignatureBasis.{SignatureBasis};

/// States that a byte sequence hits exactly where it has a match.
pub fn a_hit_is_a_match()
    ensures { (file : List ℕ) (scan_limit : ℕ) (sequence : ByteSequence) → HitsIn file scan_limit sequence
        ↔ Hits file scan_limit sequence }
{}

/// States that what is found in the first and last bytes of a file is found in the file.
pub fn the_ends_are_enough()
    ensures hits { (file first last : List ℕ) (scan_limit : ℕ) → AreEnds file scan_limit first last
        → (sequence : ByteSequence) → HitsEnds first last sequence ↔ Hits file scan_limit sequence }
    ensures nearest { (file first last : List ℕ) (scan_limit : ℕ) → AreEnds file scan_limit first last
        → (sequence : ByteSequence) (its : Match) → IsNearestOfEnds first last sequence its
        → IsNearest file scan_limit sequence its }
    ensures basis { (file first last : List ℕ) (scan_limit : ℕ) → AreEnds file scan_limit first last
        → (signatures : List Signed) (place : ℕ) (its : SignatureBasis)
        → IsBasis (IsNearestOfEnds first last) (HitsEnds first last) signatures place its
        → IsBasis (IsNearest file scan_limit) (Hits file scan_limit) signatures place its }
{}

/// States that a byte sequence has at most one nearest match, and a format at most one basis.
pub fn one_basis()
    ensures nearest { (file : List ℕ) (scan_limit : ℕ) (sequence : ByteSequence) (one other : Match)
        → IsNearest file scan_limit sequence one → IsNearest file scan_limit sequence other → one ≡ other }
    ensures basis { (file : List ℕ) (scan_limit : ℕ) (signatures : List Signed) (place : ℕ) (one other : SignatureBasis)
        → IsBasis (IsNearest file scan_limit) (Hits file scan_limit) signatures place one
        → IsBasis (IsNearest file scan_limit) (Hits file scan_limit) signatures place other
        → (one.signature ≡ other.signature) × (one.matches.items ≡ other.matches.items) }
{}
