//! Laws of the records of a service's journal: which history they have, also when the journal was made smaller. Each is
//! the contract of a function that does nothing, and is proved with it.

ghost use Rattle.std.specs.Prelude.{◌≡◌, ℕ, false, List};
ghost use Rattle.droid_core_spec.specs.Histories.{History};
ghost use Rattle.droid_core_spec.specs.Setting.{Setting};
ghost use Rattle.droid_recovery.specs.BareWorlds.{Bare};
ghost use Rattle.droid_journal.specs.Records.{Record};
ghost use Rattle.droid_recovery.specs.BareRecords.{LeadTo};
ghost use Rattle.droid_journal.specs.Opening.{WasFound};
ghost use Rattle.droid_compaction.specs.Shortening.{IsShortened, IsWhole};
ghost use Rattle.droid_wire.specs.Histories.{Base, IsHistoryBehind, IsHistoryOf};

/// The records of a journal lead to the history that its service stands for: so they do when the journal is made small.
pub fn records_lead_to_their_history()
    ensures whole { (setting : Setting) (records : List Record) (history : History)
        → IsHistoryOf setting records history → LeadTo setting (λ profile file. false) records history }
    // This also holds of records behind those of a journal that was made small.
    ensures behind { (setting : Setting) (bare : Bare) (base : Base setting) (records : List Record) (history : History)
        → LeadTo setting bare base.first base.history
        → IsHistoryBehind setting base records history → LeadTo setting bare records history }
    // Whatever the service was made from, some choice of files without bytes fits its records.
    ensures each { (setting : Setting) (base : Base setting) (records : List Record) (history : History)
        → IsHistoryBehind setting base records history → (bare : Bare) × LeadTo setting bare records history }
{}

/// However often a service's journal is made smaller between two runs, it leads to the history of all that was
/// accepted: whatever records opening finds in the bytes that [`droid_compaction::rewrite`] writes under a new header,
/// they lead to the history of the old file's records.
pub fn a_smaller_file_leads_to_the_same_history()
    ensures { (header new file bytes : List ℕ) (setting : Setting) (base : Base setting) (its read : List Record)
        (history : History)
        → IsHistoryBehind setting base its history → IsWhole header file its
        → IsShortened header new file bytes → WasFound new bytes read
        → (bare : Bare) × LeadTo setting bare read history }
{}

/// Whole records have one history. So a service that is made from a journal without bare records has the history that
/// its records lead to.
pub fn whole_records_have_one_history()
    ensures { (setting : Setting) (bare : Bare) (records : List Record) (history other : History)
        → IsHistoryOf setting records history → LeadTo setting bare records other → other ≡ history }
{}
