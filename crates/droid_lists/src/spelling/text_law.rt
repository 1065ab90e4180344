//! The law that a text is wrong in one place at most.

ghost use Rattle.std.specs.Prelude.{◌≡◌, ℕ, List};
ghost use Rattle.droid_frame.specs.declared.hash_kind.HashKind.{HashKind};
ghost use Rattle.droid_lists.specs.ProfileRows.{Entry};
ghost use Rattle.droid_lists.specs.ProfileTexts.{IsProfileText, IsWrong};

/// States that a text is wrong first in one record and column at most, and that of a profile nowhere.
pub fn a_text_is_wrong_in_one_place()
    ensures one { (hash : HashKind) (text : List ℕ) (column number other_column other_number : ℕ)
        → IsWrong hash text column number → IsWrong hash text other_column other_number
        → (number ≡ other_number) × (column ≡ other_column) }
    ensures nowhere { (hash : HashKind) (text : List ℕ) (entries : List Entry) (column number : ℕ)
        → IsProfileText hash text entries → IsWrong hash text column number → ⊥ }
{}
