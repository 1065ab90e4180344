//! Finds out with which options a submission was begun: asks for its profile with each pair of hash and `match_all`, on
//! the connection that stands.
//!
//! The clauses say what was written and read. No clause holds which fault an error is: the only caller
//! (`droid_cmd_submit`) takes each one for "not found out". It is `Memory`, here or in the service; `Broken`, if no
//! connection stands or it breaks; or `Stranger`, if another reply came. Asking stops at the first.

ghost use Rattle.std.specs.Prelude.{◌≡◌, IfOk, IsSome, MatchResult};
ghost use Rattle.droid_remote.specs.Answering.{IsReplyTo};
ghost use Rattle.droid_remote.specs.Calls.{Wherever};
ghost use Rattle.droid_remote.specs.Probes.{AnswersHere, AsksPair, Finds, IsVerdict, ReadsHere, ReadsNotHere};
ghost use Rattle.droid_remote.specs.Probes.{StaysHere, Tries, WritesHere, WritesNotHere, profile_frame, with_pair};

use crate::numbered_frame::frame_of;
use crate::sender::Sender;
use crate::transfer::connection::Connection;
use crate::transfer::connection_steps::Stage;
use crate::transfer::in_flight::InFlight;
use crate::transfer::transfer_fault::TransferFault;
use droid_frame::{BodyFault, Frame, HashKind, Refusal, Reply, Request, reply_of};
use droid_upload::Options;
use std::alloc::Global;

/// How many pairs there are: each of the three kinds of hash, without and with `match_all`. [`with_pair`] has as many
/// arms, and `Finds` the same number, which the prover ties.
const PAIRS: u32 = 6;

/// Returns the options that the submission of this name was begun with: these, with another hash or another
/// `match_all`. To be called after the service refused a profile with `NumberReused`. Returns `None` if it refuses all
/// pairs of them so: then the scan limit is another one. A sender that was stopped fails with its own fault.
///
/// Asks only on the connection that stands. On a new connection, a service that was restarted could make a profile with
/// options that nobody asked for.
pub fn options_of<C: Connection>(
    sender: &mut Sender<C>,
    options: Options,
) -> Result<Option<Options>, TransferFault>
    // The service made a profile with the options that are returned, in answer to the number of this submission's
    // profile; or it refused all pairs.
    ensures found { IfOk result (λ found. Wherever sender.old.in_flight (λ known facts.
        Finds sender.old.client sender.old.name options C.does found known facts sender.old.in_flight
        sender.new.in_flight)) }
    // In any case only such profiles were asked for.
    ensures tries { Wherever sender.old.in_flight (λ known facts.
        Tries sender.old.client sender.old.name options C.does known facts sender.old.in_flight sender.new.in_flight) }
    ensures same { sender.new ≡ record sender.old { in_flight = sender.new.in_flight } }
    // A sender that was stopped writes nothing.
    ensures stopped { IsSome sender.old.stopped → sender.new ≡ sender.old }
{
    match sender.stopped {
        Some(fault) => return Err(fault),
        None => {}
    }
    let found = try_pairs(sender, options)?;
    Ok(found)
}

/// Asks for a profile with each pair, one after the other, until one is made. Returns its options, or `None` if the
/// service refuses all pairs with `NumberReused`.
fn try_pairs<C: Connection>(
    sender: &mut Sender<C>,
    options: Options,
) -> Result<Option<Options>, TransferFault>
    ensures found { IfOk result (λ found. Wherever sender.old.in_flight (λ known facts.
        Finds sender.old.client sender.old.name options C.does found known facts sender.old.in_flight
        sender.new.in_flight)) }
    ensures tries { Wherever sender.old.in_flight (λ known facts.
        Tries sender.old.client sender.old.name options C.does known facts sender.old.in_flight sender.new.in_flight) }
    ensures same { sender.new ≡ record sender.old { in_flight = sender.new.in_flight } }
{
    for turn in 0..PAIRS {
        let tried = with_pair(turn, options);
        let made = is_made(sender, tried)?;
        if made {
            return Ok(Some(tried));
        }
    }
    Ok(None)
}

/// Returns the options with the pair of this number, 0 to 5: no hash, MD5, SHA-256, each first without and then with
/// `match_all`. A greater number has the last pair.
fn with_pair(turn: u32, options: Options) -> Options
    ensures { result ≡ with_pair turn options }
{
    match turn {
        0 => pair_of(options, false, HashKind::Nothing),
        1 => pair_of(options, true, HashKind::Nothing),
        2 => pair_of(options, false, HashKind::Md5),
        3 => pair_of(options, true, HashKind::Md5),
        4 => pair_of(options, false, HashKind::Sha256),
        _ => pair_of(options, true, HashKind::Sha256),
    }
}

/// Returns the options with this hash and `match_all` in the place of theirs. The other three stay.
fn pair_of(options: Options, match_all: bool, hash: HashKind) -> Options
    ensures { result ≡ record options { match_all = match_all; hash = hash } }
{
    Options {
        scan_limit: options.scan_limit,
        match_all,
        hash,
        piece_size: options.piece_size,
        check: options.check,
    }
}

/// Asks for a profile with these options, under the number of the submission's profile. Returns whether it was made; if
/// not, the number stands for other options.
fn is_made<C: Connection>(sender: &mut Sender<C>, options: Options) -> Result<bool, TransferFault>
    ensures asked { IfOk result (λ made. Wherever sender.old.in_flight (λ known facts.
        AsksPair sender.old.client sender.old.name C.does options made known facts sender.old.in_flight
        sender.new.in_flight)) }
    ensures stays { Wherever sender.old.in_flight (λ known facts.
        StaysHere C.does known (profile_frame sender.old.client sender.old.name options) facts sender.old.in_flight
        sender.new.in_flight) }
    ensures same { sender.new ≡ record sender.old { in_flight = sender.new.in_flight } }
{
    let request = Request::CreateProfile {
        scan_limit: options.scan_limit,
        match_all: options.match_all,
        hash: options.hash,
    };
    let alloc = sender.in_flight.alloc;
    let frame = frame_of(alloc, sender.client, sender.name.as_str(), &request)?;
    let reply = ask_here(&mut sender.in_flight, &frame)?;
    let made = see_made(reply)?;
    Ok(made)
}

/// Returns true for Made and false for the refusal NumberReused. A refusal because of memory is the fault `Memory`, any
/// other reply `Stranger`.
fn see_made(reply: Reply) -> Result<bool, TransferFault>
    ensures { IfOk result (λ made. IsVerdict made reply) }
{
    match reply {
        Reply::Made { .. } => Ok(true),
        Reply::Refused(Refusal::NumberReused) => Ok(false),
        Reply::Refused(Refusal::Memory) => Err(TransferFault::Memory),
        _ => Err(TransferFault::Stranger),
    }
}

/// Writes a frame on the connection that stands and reads its reply. Makes no new connection: if none stands, or it
/// breaks, that is the fault `Broken`.
fn ask_here<C: Connection>(
    in_flight: &mut InFlight<C>,
    frame: &Frame,
) -> Result<Reply, TransferFault>
    ensures answered { IfOk result (λ reply.
        Wherever in_flight.old (λ known facts.
        AnswersHere C.does known frame.now reply facts in_flight.old in_flight.new)) }
    ensures stays { Wherever in_flight.old (λ known facts.
        StaysHere C.does known frame.now facts in_flight.old in_flight.new) }
{
    write_here(in_flight, frame)?;
    let came = read_here(in_flight)?;
    let reply = reply_to(in_flight.alloc, frame, came)?;
    Ok(reply)
}

/// Writes a frame on the connection that stands. If none stands, nothing is written; if it breaks, none stands
/// afterwards. Both are the fault `Broken`.
fn write_here<C: Connection>(
    in_flight: &mut InFlight<C>,
    frame: &Frame,
) -> Result<(), TransferFault>
    ensures { MatchResult result (λ _. WritesHere C.does frame.now in_flight.old in_flight.new) (λ _.
        WritesNotHere C.does frame.now in_flight.old in_flight.new) }
{
    match in_flight.stage {
        Stage::Nowhere => return Err(TransferFault::Broken),
        Stage::First | Stage::Answered | Stage::All => {}
    }
    match in_flight.connection.write(frame) {
        Ok(()) => Ok(()),
        Err(_) => {
            in_flight.stage = Stage::Nowhere;
            Err(TransferFault::Broken)
        }
    }
}

/// Reads the next frame, behind [`write_here`], when a connection stands. If it breaks, none stands afterwards, and the
/// fault is `Broken`.
fn read_here<C: Connection>(in_flight: &mut InFlight<C>) -> Result<Frame, TransferFault>
    ensures { MatchResult result (λ came. ReadsHere C.does came in_flight.old in_flight.new) (λ _.
        ReadsNotHere C.does in_flight.old in_flight.new) }
{
    match in_flight.connection.read(in_flight.alloc) {
        Ok(came) => Ok(came),
        Err(_) => {
            in_flight.stage = Stage::Nowhere;
            Err(TransferFault::Broken)
        }
    }
}

/// Reads the reply to the request `frame` from the frame `came`. It is the fault `Stranger` if that has another
/// version, client or number, or spells no reply, and `Memory` if there is none to read it.
fn reply_to(alloc: Global, frame: &Frame, came: Frame) -> Result<Reply, TransferFault>
    ensures { IfOk result (IsReplyTo frame.now came) }
{
    if came.version != frame.version {
        return Err(TransferFault::Stranger);
    }
    if came.client != frame.client {
        return Err(TransferFault::Stranger);
    }
    if came.number != frame.number {
        return Err(TransferFault::Stranger);
    }
    match reply_of(alloc, came) {
        Ok(reply) => Ok(reply),
        Err(BodyFault::Memory) => Err(TransferFault::Memory),
        Err(BodyFault::Malformed) => Err(TransferFault::Stranger),
    }
}
