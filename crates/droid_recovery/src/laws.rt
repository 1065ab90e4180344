//! Laws of holdings that are recovered from records: at the beginning, and once all bare files have ended. Each is the
//! contract of a function that does nothing, and is proved with it.

ghost use Rattle.std.specs.Prelude.{◌≡◌, []};
ghost use Rattle.droid_recovery.specs.BareWorlds.{Bare, HaveEnded};
ghost use Rattle.droid_recovery.specs.Recovering.{Recovers};
ghost use Rattle.droid_core_spec.specs.Histories.{History, world_of};
ghost use Rattle.droid_core_spec.specs.Setting.{Setting};
ghost use Rattle.droid_core.specs.HoldingsStanding.{IsIn, IsSettingOf};
ghost use Rattle.droid_core.specs.declared.holdings.Holdings.{Holdings};
ghost use Rattle.droid_store.specs.Rows.{no_rows};

/// Holdings without rows and without files are recovered for the empty history.
pub fn new_holdings_are_recovered()
    ensures { (setting : Setting) (bare : Bare) (holdings : Holdings) → IsSettingOf setting holdings
        → holdings.store ≡ no_rows → holdings.files.files ≡ []
        → holdings.files.limit ≡ setting.limits.unfinished → Recovers setting bare holdings [] }
{}

/// Once each bare file has ended, recovered holdings are in the world of the history, as those are that got all bytes.
pub fn recovered_holdings_stand()
    ensures { (setting : Setting) (bare : Bare) (holdings : Holdings) (history : History)
        → Recovers setting bare holdings history → HaveEnded bare (world_of setting history)
        → IsIn setting (world_of setting history) holdings }
{}
