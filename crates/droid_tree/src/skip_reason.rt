//! Why something of a tree is not in its profile, or not as it is now.

ghost use Rattle.std.specs.Prelude.{◌≡◌, ◌≢◌, IfErr, IfOk, OnOk};
ghost use Rattle.droid_tree.specs.Reading.{IsReason};
ghost use Rattle.droid_tree.specs.declared.fault.TreeFault.TheVariants as faults;
ghost use Rattle.droid_tree.specs.declared.fault.WalkFault.TheVariants as walk_faults;
ghost use Rattle.droid_tree.specs.declared.skip_reason.Skipped.TheVariants as reasons;

use crate::fault::{TreeFault, WalkFault};
use droid_frame::Refusal;

/// Why something of a tree is not in its profile, or not as it is now.
#[derive(Clone, Copy, PartialEq, Eq)]
pub enum Skipped {
    /// It is a symbolic link.
    Link,
    /// It is neither a folder nor a regular file nor a symbolic link.
    Kind,
    /// Its name is not valid UTF-8.
    Name,
    /// Its folder lists this name twice, and this is the second one.
    SameName,
    /// The service refused it, for its name, its path, its time or its length.
    Refused(Refusal),
    /// It could not be opened or read. An unreadable folder is in the profile, but empty.
    Unreadable,
    /// It was changed after its folder was listed, or another file was put in its place.
    Changed,
    /// It is in the profile, with another hash than its bytes have.
    OtherHash,
}

/// Returns the reason to skip a file that could not be read. Running out of memory is no reason: it ends the walk.
pub fn unread(fault: TreeFault) -> Result<Skipped, WalkFault>
    ensures reason { IfOk result (λ why. IsReason fault why) }
    ensures memory { IfErr result (λ fault. fault ≡ walk_faults.Memory) }
{
    match fault {
        TreeFault::Memory => Err(WalkFault::Memory),
        TreeFault::Unreadable => Ok(Skipped::Unreadable),
        TreeFault::Changed => Ok(Skipped::Changed),
    }
}

/// Returns the reason to skip a folder whose entries could not be listed: `Unreadable`, also for `Changed`, which is
/// said of files alone. Running out of memory is no reason: it ends the walk.
pub(crate) fn unlisted(fault: TreeFault) -> Result<Skipped, WalkFault>
    ensures observed { OnOk result (fault ≢ faults.Memory) }
    ensures reason { IfOk result (λ why. why ≡ reasons.Unreadable) }
    ensures memory { IfErr result (λ fault. fault ≡ walk_faults.Memory) }
{
    match fault {
        TreeFault::Memory => Err(WalkFault::Memory),
        TreeFault::Unreadable | TreeFault::Changed => Ok(Skipped::Unreadable),
    }
}
