//! Laws of the texts and of the meaning. Each is the contract of a function that does nothing.

ghost use Rattle.std.specs.Prelude.{◌≡◌, ◌↔◌, ℕ, List};
ghost use Rattle.droid_pattern.specs.Patterns.{Element};
ghost use Rattle.droid_pronom.specs.Found.{Hits, IsHit};
ghost use Rattle.droid_pronom.specs.Registry.{AnyOf, Contents};
ghost use Rattle.droid_pronom.specs.declared.rows.ByteSequence.{ByteSequence};
ghost use Rattle.droid_pronom.specs.declared.rows.Offsets.{Offsets};
ghost use Rattle.std.specs.List.{AllByRecursion};
ghost use Rattle.droid_signature_file.specs.Records.{SubSequenceRecord, ByteSequenceRecord, SignatureRecord};
ghost use Rattle.droid_signature_file.specs.Records.{FormatRecord, FileRecord};
ghost use Rattle.droid_signature_file.specs.Expansions.{MatchesAny, patterns_of};
ghost use Rattle.droid_signature_file.specs.TermText.{SpellsTerms};
ghost use Rattle.droid_signature_file.specs.Terms.{Term, TermsMatch};
ghost use Rattle.droid_signature_file.specs.Meaning.{SequenceHits, SignatureHits, FormatHits, PartMatches, RowMatches};
ghost use Rattle.droid_signature_file.specs.Pieces.{Piece, IsPiece, ArePieces, piece_patterns, row_patterns};
ghost use Rattle.droid_signature_file.specs.Rows.{StandForIds, signatures_from, lists_at};
ghost use Rattle.droid_signature_file.specs.Sequences.{ArePatternsOf, StandFor, choices, combinations, AreChoicesOf};

/// States that a text's terms stand for the bytes that one of their patterns matches, and for no others.
pub fn patterns_match_terms()
    ensures { (text bytes : List ℕ) (terms : List Term) → SpellsTerms text terms
        → MatchesAny (patterns_of terms) bytes ↔ TermsMatch terms bytes }
{}

/// States that the patterns of a subsequence match what it does, with all its fragments.
pub fn a_subsequence_has_patterns()
    ensures { (part : SubSequenceRecord) (piece : Piece) → IsPiece part piece
        → ArePatternsOf (PartMatches part) (piece_patterns piece) }
{}

/// States that the patterns of several subsequences match what they do, one behind the other.
pub fn subsequences_have_patterns()
    ensures { (part : SubSequenceRecord) (parts : List SubSequenceRecord) (piece : Piece) (pieces : List Piece)
        → IsPiece part piece → ArePieces parts pieces
        → ArePatternsOf (RowMatches part parts) (row_patterns piece pieces) }
{}

/// States that a byte sequence hits exactly where one of the registry's byte sequences that stand for it does, under
/// every scan limit.
pub fn choices_hit_as_the_sequence()
    ensures { (sequence : ByteSequenceRecord) (offsets : Offsets) (patterns : List (List Element)) (file : List ℕ)
        (scan_limit : ℕ)
        → StandFor sequence offsets patterns
        → AnyOf (Hits file scan_limit) (choices offsets patterns) ↔ SequenceHits file scan_limit sequence }
{}

/// States that a signature hits exactly where one of the registry's signatures that stand for it does, under every scan
/// limit.
pub fn combinations_hit_as_the_signature()
    ensures { (signature : SignatureRecord) (all : List (List ByteSequence)) (file : List ℕ) (scan_limit : ℕ)
        → AreChoicesOf signature.sequences all
        → AnyOf (AllByRecursion (Hits file scan_limit)) (combinations all) ↔ SignatureHits file scan_limit signature }
{}

/// States that a format of a registry hits exactly the files that the signatures of its format in the signature file
/// hit, under every scan limit, if the registry's signatures stand for all of them.
pub fn formats_hit_as_in_the_signature_file()
    ensures { (records : FileRecord) (format : FormatRecord) (registry : Contents)
        (all : List (List (List ByteSequence))) (place : ℕ) (file : List ℕ) (scan_limit : ℕ)
        → registry.signatures ≡ signatures_from 0 all
        → StandForIds records.signatures format.signatures (lists_at place all)
        → IsHit (Hits file scan_limit) registry place ↔ FormatHits records file scan_limit format }
{}
