//! Handling the frame of one record of a journal, by its kind: a bare piece, a bare Finish, or a whole request.
//!
//! In the clauses 68 is `BARE_PIECE` and 69 `BARE_FINISH` of droid_compaction; its law `a_bare_frame_spells_no_request`
//! ties them.

ghost use Rattle.std.specs.Prelude.{◌≡◌, ◌≢◌, ℕ, true};
ghost use Rattle.droid_core_spec.specs.MemoryFaults.{is_out_of_memory};
ghost use Rattle.droid_frame.specs.Replies.{HasReplySpelling, is_refused};
ghost use Rattle.droid_frame.specs.Frames.{mark_of};
ghost use Rattle.droid_frame.specs.Streams.{IsReadable};
ghost use Rattle.droid_recovery.specs.RecordTaking.{Takes};

use crate::bare_pieces::recover_piece;
use crate::commands::recover_command;
use crate::finishes::recover_finish;
use crate::frame_reader::{BareFinish, BarePiece, read_finish, read_piece};
use crate::revival_fault::RecoveryFault;
use droid_compaction::{BARE_FINISH, BARE_PIECE};
use droid_core::{Holdings, Stamp};
use droid_frame::{BodyFault, Frame, Refusal, Reply, request_of};

/// Handles the frame of a record, whose mark this is, and returns the reply that belongs to it. The reply is a refusal
/// only where no service could have accepted such a request here, or where memory runs out. Not each such request is
/// refused: a bare piece does not say of which file it is.
pub(crate) fn take(holdings: &mut Holdings, frame: Frame, mark: [u8; 16]) -> Reply
    requires readable { IsReadable frame }
    requires mark { mark ≡ mark_of frame.kind frame.body }
    ensures { Takes frame holdings.old holdings.new result }
{
    match frame.kind {
        BARE_PIECE => take_piece(holdings, &frame),
        BARE_FINISH => take_finish(holdings, &frame),
        _ => take_whole(holdings, frame, mark),
    }
}

/// Handles the frame of a request whose bytes are all there, by [`recover_command`]. A frame that spells no request is
/// refused as Malformed; Memory if memory runs out for the request.
fn take_whole(holdings: &mut Holdings, frame: Frame, mark: [u8; 16]) -> Reply
    requires readable { IsReadable frame }
    requires mark { mark ≡ mark_of frame.kind frame.body }
    requires no_piece { frame.kind ≢ 68 }
    requires no_finish { frame.kind ≢ 69 }
    ensures { Takes frame holdings.old holdings.new result }
{
    let stamp = Stamp {
        client: frame.client,
        number: frame.number,
        version: frame.version,
        mark,
    };
    match request_of(holdings.alloc, frame) {
        Ok(request) => recover_command(holdings, stamp, request),
        Err(BodyFault::Malformed) => Reply::Refused(Refusal::Malformed),
        Err(BodyFault::Memory) => Reply::Refused(Refusal::Memory),
    }
}

/// Handles a bare piece, kind 68: returns the reply that its frame has, after it was kept. If the frame can't be read,
/// or the reply not be kept, returns the refusal of [`refused`].
fn take_piece(holdings: &mut Holdings, frame: &Frame) -> Reply
    requires readable { IsReadable frame.now }
    requires kind { frame.now.kind ≡ 68 }
    ensures { Takes frame.now holdings.old holdings.new result }
{
    let BarePiece { stamp, reply } = match read_piece(holdings.alloc, frame) {
        Ok(piece) => piece,
        Err(fault) => return refused(fault),
    };
    match recover_piece(holdings, stamp, &reply) {
        Ok(()) => reply,
        Err(fault) => refused(fault),
    }
}

/// Handles a bare Finish, kind 69: returns the reply that its frame has, after it was kept with what it says was found.
/// If the frame can't be read, or the reply not be kept, returns the refusal of [`refused`].
fn take_finish(holdings: &mut Holdings, frame: &Frame) -> Reply
    requires readable { IsReadable frame.now }
    requires kind { frame.now.kind ≡ 69 }
    ensures { Takes frame.now holdings.old holdings.new result }
{
    let BareFinish {
        stamp,
        profile,
        file,
        reply,
    } = match read_finish(holdings.alloc, frame) {
        Ok(finish) => finish,
        Err(fault) => return refused(fault),
    };
    match recover_finish(holdings, stamp, profile, file, &reply) {
        Ok(()) => reply,
        Err(fault) => refused(fault),
    }
}

/// Returns the refusal for a fault: Memory for `Memory`, Malformed for `Unfit`. No client gets it: opening the journal
/// fails by it.
fn refused(fault: RecoveryFault) -> Reply
    ensures refused { is_refused result ≡ true }
    ensures memory { fault ≡ RecoveryFault.Memory → is_out_of_memory result ≡ true }
    ensures spelled { (version : ℕ) → HasReplySpelling version result }
{
    match fault {
        RecoveryFault::Memory => Reply::Refused(Refusal::Memory),
        RecoveryFault::Unfit => Reply::Refused(Refusal::Malformed),
    }
}
