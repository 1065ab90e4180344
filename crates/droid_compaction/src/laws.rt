//! Laws of smaller journals. Each is the contract of a function that does nothing, and is proved with it.

ghost use Rattle.std.specs.Prelude.{◌≡◌, ◌+◌, ◌*◌, ◌≤◌, ℕ, [], Bool, List, false, length, true};
ghost use Rattle.std.specs.List.{sum_by};
ghost use Rattle.droid_journal.specs.Chains.{marked_bytes};
ghost use Rattle.droid_journal.specs.Records.{Record, record_bytes};
ghost use Rattle.droid_journal.specs.declared.records.key.Key.{Key};
ghost use Rattle.droid_journal.specs.declared.records.place.Place.{Place};
ghost use Rattle.droid_compaction.specs.Fields.{file_in, is_about};
ghost use Rattle.droid_compaction.specs.Shortening.{has_ended, once, shortened, smaller};
ghost use Rattle.droid_compaction.specs.Sizes.{size_of};

/// A smaller journal has at most the bytes of its header, of its mark and of one record for each record of the old
/// journal. The record of a piece of an ended file has 85 bytes: the bare frame 38 (header 18, mark 16, the reply's
/// body 4), the reply 22, and 25 around them; docs/PROMISES.md has the number too. The record of a Finish has its
/// finding twice. No other record becomes longer.
pub fn a_smaller_journal_is_small()
    ensures record { (key : Key) (place : Place) (it : Record) → it.first ≡ false
        → length (record_bytes key place it) ≡ size_of it }
    ensures total { (header : List ℕ) (its : List Record)
        → length (marked_bytes header (shortened its))
        ≤ length header + 17 + sum_by (λ it. size_of (smaller (has_ended (once [] its)) it)) its }
    ensures piece { (ended : ℕ → Bool) (it : Record) → is_about 4 it.request it.reply ≡ true
        → ended (file_in it.request) ≡ true → length it.reply ≡ 22
        → size_of (smaller ended it) ≡ 85 }
    ensures finish { (ended : ℕ → Bool) (it : Record) → is_about 4 it.request it.reply ≡ false
        → is_about 5 it.request it.reply ≡ true → ended (file_in it.request) ≡ true
        → size_of (smaller ended it) ≤ length it.request + 2 * length it.reply + 25 }
    ensures unfinished { (ended : ℕ → Bool) (it : Record) → ended (file_in it.request) ≡ false
        → size_of (smaller ended it) ≡ size_of it }
    ensures other { (ended : ℕ → Bool) (it : Record) → is_about 4 it.request it.reply ≡ false
        → is_about 5 it.request it.reply ≡ false → size_of (smaller ended it) ≡ size_of it }
{}
