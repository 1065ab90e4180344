//! Laws of making a journal smaller: its history stays. Each is the contract of a function that does nothing, and is
//! proved with it.

ghost use Rattle.std.specs.Prelude.{◌≡◌, [], ℕ, Bool, false, true, List};
ghost use Rattle.droid_core_spec.specs.Histories.{History, world_of};
ghost use Rattle.droid_core_spec.specs.Setting.{Setting};
ghost use Rattle.droid_recovery.specs.BareWorlds.{Bare, HaveEnded};
ghost use Rattle.droid_recovery.specs.Ending.{IsEnded};
ghost use Rattle.droid_journal.specs.Opening.{WasFound};
ghost use Rattle.droid_journal.specs.Records.{Record};
ghost use Rattle.droid_compaction.specs.Shortening.{IsShortened, IsWhole, has_ended, once, smaller_by};
ghost use Rattle.droid_recovery.specs.SmallerFiles.{bare_after, or_ended};
ghost use Rattle.droid_recovery.specs.BareRecords.{HaveHistory, LeadTo};

/// Whichever files are made bare, the records of the smaller journal have the same history as those of the old one.
pub fn a_smaller_journal_has_the_same_history()
    ensures { (setting : Setting) (bare : Bare) (ended : ℕ → Bool) (its : List Record) (history : History)
        → HaveHistory setting bare [] its history
        → HaveHistory setting (or_ended bare ended) [] (smaller_by ended its) history }
{}

/// If the bare files of the old journal have ended, so have those of the smaller one, provided that it makes only files
/// bare that the first record of a request number finished or abandoned.
pub fn its_bare_files_have_ended()
    ensures { (setting : Setting) (bare : Bare) (ended : ℕ → Bool) (its : List Record) (history : History)
        → HaveHistory setting bare [] its history
        → ((profile file : ℕ) → bare profile file ≡ true → IsEnded (world_of setting history) profile file)
        → ((number : ℕ) → ended number ≡ true → has_ended (once [] its) number ≡ true)
        → (profile file : ℕ) → or_ended bare ended profile file ≡ true
        → IsEnded (world_of setting history) profile file }
{}

/// Making a journal smaller, however often, keeps its history: whatever records opening finds in the bytes that
/// [`droid_compaction::rewrite`] writes, a service that is made from them has the history of the old file's records.
pub fn a_smaller_file_stands_for_the_same_history()
    ensures same { (header new file bytes : List ℕ) (setting : Setting) (bare : Bare) (its read : List Record)
        (history : History)
        → IsWhole header file its → LeadTo setting bare its history
        → IsShortened header new file bytes → WasFound new bytes read
        → LeadTo setting (bare_after bare its) read history }
    // What `RecoveringMachine::into_service` requires of the records.
    ensures service { (setting : Setting) (bare : Bare) (its : List Record) (history : History)
        → LeadTo setting bare its history
        → HaveHistory setting bare [] its history × HaveEnded bare (world_of setting history) }
    // A journal without bare records has the history of its requests.
    ensures whole { (setting : Setting) (its : List Record) (history : History)
        → HaveHistory setting (λ profile file. false) [] its history
        → LeadTo setting (λ profile file. false) its history }
{}
