//! What the status 0 of `verify` means. A law is the contract of a function that does nothing.

ghost use Rattle.std.specs.Prelude.{◌≡◌};
ghost use Rattle.droid_pronom.specs.Registry.{Contents};
ghost use Rattle.droid_cmd_verify.specs.declared.item_keeper.ItemKeeper.{ItemKeeper};
ghost use Rattle.droid_cmd_verify.specs.declared.measure.Measure.TheVariants.{Hashes};
ghost use Rattle.droid_terminal.specs.declared.skipped.recorder.Recorder.{Recorder};
ghost use Rattle.droid_profile.specs.declared.profiler.Profiler.{Profiler};
ghost use Rattle.droid_profile.specs.declared.options.Options.{Options};
ghost use Rattle.droid_cmd_verify.specs.Verifications.{FindsAgreement, VerifiesTree};
ghost use Rattle.droid_cmd_verify.specs.declared.lists.ComparedList.{ComparedList};
ghost use Rattle.droid_cmd_verify.specs.declared.verification.Verified.{Verified};
ghost use Rattle.droid_cmd_verify.specs.declared.verify_ending.VerifyEnding.TheVariants.{Same};

use droid_frame::SteadyWrite;
use droid_tree::{Tree, Watcher};

/// States that a comparison by hashes ends with `Same` only where the list and the tree agree: nothing was unreadable,
/// each folder and file of the list was found, each that was found is in the list, and each file has an equal hash on
/// both sides.
pub fn same_is_agreement<T: Tree, W: Watcher, O: SteadyWrite>()
    ensures { (registry : Contents) (options : Options) (lists : ComparedList)
        (old new : Profiler T (Recorder W) ItemKeeper) (before after : O) (verified : Verified)
        → VerifiesTree T.observes W.hears O.contents registry options lists old new before after verified
        → verified.ending ≡ Same → lists.how ≡ Hashes
        → FindsAgreement T.observes W.hears O.contents registry options lists old new }
{}
