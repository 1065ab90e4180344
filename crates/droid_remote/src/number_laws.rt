//! Laws of the numbers. Each is the contract of a function that does nothing.

ghost use Rattle.std.specs.Prelude.{◌≡◌, ℕ, ◌<◌, ◌≤◌, ◌^◌, Bool, List, Some};
ghost use Rattle.droid_frame.specs.declared.hash_kind.HashKind.{HashKind};
ghost use Rattle.droid_frame.specs.declared.request.Request.{Request};
ghost use Rattle.droid_frame.specs.declared.request.Request.TheVariants.{CreateProfile, Piece};
ghost use Rattle.droid_remote.specs.Numbers.{digest_number, number_of, packed_of};
ghost use Rattle.droid_remote.specs.Sharing.{EqualNumbersAskTheSame};

/// Two requests of one submission that have the same number are the same request, but for the bytes of a piece and the
/// options of the profile; or both are numbered by digests, and two different texts have digests that begin alike.
pub fn equal_numbers_ask_the_same()
    ensures { EqualNumbersAskTheSame }
{}

/// Every number is below 2^63. Packed numbers are below 2^46, and those by a digest begin at 2^62.
pub fn numbers_are_in_their_ranges()
    ensures below { (name : List ℕ) (attempt : ℕ) (request : Request) → number_of name attempt request < 2 ^ 63 }
    ensures packed { (request : Request) (number : ℕ) → packed_of request ≡ Some number → number < 2 ^ 46 }
    ensures digest { (text : List ℕ) → 2 ^ 62 ≤ digest_number text }
{}

/// A profile is numbered by the submission's name, whatever its options, and a piece by its place, whatever its bytes.
pub fn numbers_go_by_what_is_asked()
    ensures profile { (name : List ℕ) (attempt again scan_limit other_limit : ℕ) (match_all other_all : Bool)
        (hash other_hash : HashKind)
        → number_of name attempt (CreateProfile scan_limit match_all hash)
        ≡ number_of name again (CreateProfile other_limit other_all other_hash) }
    ensures piece { (name other_name : List ℕ) (attempt again profile file index : ℕ) (bytes other_bytes : List ℕ)
        → number_of name attempt (Piece profile file index bytes)
        ≡ number_of other_name again (Piece profile file index other_bytes) }
{}
