//! Recovering a piece of a bare file: there are no bytes to take, so only its reply is kept.

ghost use Rattle.std.specs.Prelude.{◌≡◌, ◌++◌, ◌∷◌, [], IfErr, OnErr, OnOk};
ghost use Rattle.droid_recovery.specs.BareWorlds.{Bare};
ghost use Rattle.droid_recovery.specs.Recovering.{IsBarePiece, Recovers};
ghost use Rattle.droid_core_spec.specs.Histories.{Entry as Accepted, History};
ghost use Rattle.droid_core_spec.specs.Setting.{Setting};
ghost use Rattle.droid_frame.specs.Replies.{HasReplySpelling};
ghost use Rattle.droid_frame.specs.Versions.{IsVersion};

use crate::reply_conditions::see_new;
use crate::revival_fault::RecoveryFault;
use droid_core::{Holdings, Stamp, entry_of};
use droid_frame::Reply;

/// Keeps the reply to a piece of a bare file, under the piece's stamp. `Memory` if memory runs out; `Unfit` if a reply
/// is kept under this number, the number is 2^63 or more, or the store refuses the reply. What the holdings have of the
/// file stays as it is; whether they have such a file is not looked at, since the frame does not say which one it is.
pub fn recover_piece(
    holdings: &mut Holdings,
    stamp: Stamp,
    reply: &Reply,
) -> Result<(), RecoveryFault>
    requires version { IsVersion stamp.version }
    requires spelled { HasReplySpelling stamp.version reply.now }
    ensures recovers { (setting : Setting) (bare : Bare) (history : History) (entry : Accepted)
        → Recovers setting bare holdings.old history
        → IsBarePiece setting bare history entry stamp → reply.now ≡ entry.reply
        → OnOk result (Recovers setting bare holdings.new (history ++ entry ∷ [])) }
    ensures memory { (setting : Setting) (bare : Bare) (history : History) (entry : Accepted)
        → Recovers setting bare holdings.old history
        → IsBarePiece setting bare history entry stamp → reply.now ≡ entry.reply
        → IfErr result (λ fault. fault ≡ RecoveryFault.Memory) }
    ensures unchanged { OnErr result (holdings.new ≡ holdings.old) }
{
    see_new(&mut holdings.store, stamp)?;
    let Ok(entry) = entry_of(holdings.alloc, stamp, reply) else {
        return Err(RecoveryFault::Memory);
    };
    match holdings.store.commit_piece(&entry) {
        Ok(()) => Ok(()),
        Err(fault) => Err(RecoveryFault::from(fault)),
    }
}
