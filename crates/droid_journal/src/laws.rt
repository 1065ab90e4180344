//! Laws of torn and changed files.

ghost use Rattle.std.specs.Prelude.{◌≡◌, ◌≢◌, ◌<◌, ◌∷◌, ◌++◌, ℕ, List, [], drop, length, true};
ghost use Rattle.droid_journal.specs.Chains.{Chain, IsLater, IsMark, NotByChance, ShowsDamage, checked, first_check};
ghost use Rattle.droid_journal.specs.Chains.{form_of, journal_bytes, key_of, last_place, marked_bytes};
ghost use Rattle.droid_journal.specs.Changes.{ChecksHold, IsChanged, Sees};
ghost use Rattle.droid_journal.specs.Fronts.{IsFront};
ghost use Rattle.droid_journal.specs.Records.{AllFit, Fits, Record, next_check, record_bytes, turn_mark};

use crate::records::key::Form;

/// Where a crash takes only an end of what was written and puts nothing in its place, the premise holds by itself.
pub fn a_plain_tear()
    ensures { (header : List ℕ) (written : List Record) (file : List ℕ) → AllFit written
        → IsFront file (journal_bytes header written) → NotByChance header written file }
{}

/// In version 3 the record that begins a turn shows damage before it: the check value of the record before it stands in
/// front of it.
pub fn a_later_turn_shows()
    ensures { (header : List ℕ) (before : List Record) (last it : Record) (rest : List ℕ) → form_of header ≡ Form.Before
        → Fits it → it.first ≡ true
        → IsLater (key_of header)
        (next_check (key_of header) (last_place header before) last
        ++ (record_bytes (key_of header) (last_place header (before ++ last ∷ [])) it ++ rest)) }
{}

/// Whatever is changed before the last mark, so that the file keeps its size and this mark, is seen as damage or as
/// another header: any number of bytes, if no record has a right check value by chance.
pub fn a_change_before_the_last_mark_shows()
    ensures { (header other : List ℕ) (its : List Record) → form_of header ≡ Form.Present → AllFit its
        → length other ≡ length (journal_bytes header its)
        → other ≢ journal_bytes header its
        → NotByChance header its (other ++ turn_mark (key_of header) (last_place header its).at)
        → (read : List Record) (rest : List ℕ)
        → Chain header (other ++ turn_mark (key_of header) (last_place header its).at) read rest
        → ShowsDamage header read rest }
{}

/// Every single changed byte is seen, at every place of every journal whose last turn has its mark.
pub fn a_changed_byte_is_seen()
    ensures { (front : List ℕ) (its : List Record) (other : List ℕ) (place : ℕ) → form_of (checked front) ≡ Form.Present
        → AllFit its
        → IsChanged (marked_bytes (checked front) its) other place → ChecksHold front its other
        → Sees front its other place }
{}

/// What is torn is of one turn: if of two turns behind the records the second has begun in the file, that is damage.
pub fn a_torn_end_is_of_one_turn()
    ensures { (header file : List ℕ) (its turn : List Record) (rest : List ℕ) → form_of header ≡ Form.Present
        → Chain header file its rest → 0 < length turn
        → IsMark (key_of header) (last_place header (its ++ turn)).at (drop (last_place header (its ++ turn)).at file)
        → ShowsDamage header its rest }
{}
