//! Laws of the texts. Each is the contract of a function that does nothing.

ghost use Rattle.std.specs.Prelude.{ℕ, List};
ghost use Rattle.droid_pattern.specs.Patterns.{Element};
ghost use Rattle.droid_pattern.specs.PatternText.{SpellsAll};
ghost use Rattle.droid_signature_file.specs.Expansions.{patterns_of};
ghost use Rattle.droid_signature_file.specs.Terms.{Term};
ghost use Rattle.droid_signature_file.specs.TermText.{SpellsTerms};
ghost use Rattle.droid_signature_pattern.specs.Written.{AreAllWritable, AreWritable, written_all};

/// States that what is written for a pattern is read as that pattern.
pub fn what_is_written_is_read()
    ensures { (es : List Element) → AreWritable es → SpellsAll (written_all es) es }
{}

/// States that the patterns of a text can be written.
pub fn patterns_of_a_text_can_be_written()
    ensures { (text : List ℕ) (terms : List Term) → SpellsTerms text terms → AreAllWritable (patterns_of terms) }
{}
