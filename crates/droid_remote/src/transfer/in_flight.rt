//! The requests in flight: frames that were sent and have no reply yet, in order.

ghost use Rattle.std.specs.Prelude.{◌≡◌, ◌<◌, ◌≤◌, ◌∷◌, ◌++◌, [], Contains, IfErr, IfOk, MatchOption, OnErr, OnOk};
ghost use Rattle.std.specs.Prelude.{drop, if◌then◌else◌, length, take};
ghost use Rattle.droid_remote.specs.Answering.{IsTo};
ghost use Rattle.droid_remote.specs.Calls.{EndsAll, Fails, Hears, IsAmong, Puts, Sends, Settles, Takes, Tries, Waited};
ghost use Rattle.droid_remote.specs.Calls.{Waits, Wherever};
ghost use Rattle.droid_remote.specs.Events.{Expired, Paused, Started};
ghost use Rattle.droid_remote.specs.Moves.{Stops};
ghost use Rattle.droid_remote.specs.Stages.{StandsOn};
ghost use Rattle.droid_remote.specs.Vouching.{nothing_known};

use crate::transfer::connection::Connection;
use crate::transfer::connection_steps::{
    Stage, behind_answer, read_where, write_ahead, write_behind,
};
use crate::transfer::known_requests::{Known, KnownRequests};
use crate::transfer::reply_checks::{is_to, read_taken};
use crate::transfer::transfer_fault::TransferFault;
use droid_frame::{Frame, Reply};
use std::alloc::Global;
use std::collections::VecDeque;

/// How many frames may be in flight. A service refuses a piece that is sixteen or more ahead of the first missing one:
/// `AHEAD` of `droid_assembly`, which no clause ties to this. `Sends` has the number too: the prover refuses a greater
/// one here, and `submit_steps.py` of `tests/program/submissions` (`MOST`) any other.
const IN_FLIGHT_LIMIT: usize = 16;

/// A connection, and the frames in flight, in order.
///
/// After the connection broke, the next read makes a new one. There the service must first repeat its replies to the
/// last profile that it made and to the last change of its nodes. Then the frames are written again: first the oldest
/// alone, and the others after its reply.
#[derive(Drop)]
pub struct InFlight<C> {
    /// The allocator.
    pub alloc: Global,
    /// The connection.
    pub connection: C,
    /// Which of the frames were written on it.
    pub stage: Stage,
    /// What the service must repeat on a new connection.
    pub known: KnownRequests,
    /// The frames in flight.
    pub waiting: VecDeque<Frame>,
}

impl<C: Connection> InFlight<C> {
    /// Starts with nothing in flight and nothing known. The connection is made when the first reply is read.
    pub fn new(alloc: Global, connection: C) -> InFlight<C>
        ensures connection { result.connection ≡ connection }
        ensures none { result.waiting.items ≡ [] }
        ensures stands_on { StandsOn nothing_known [] result }
    {
        InFlight {
            alloc,
            connection,
            stage: Stage::Nowhere,
            known: KnownRequests::new(),
            waiting: VecDeque::new(alloc),
        }
    }

    /// Sends a frame without waiting for its reply. If sixteen are in flight, it first waits for the reply to the
    /// oldest.
    ///
    /// Each reply that it waits for must be Taken. If one is a refusal, but not because of memory, the replies to all
    /// other frames in flight are read, whatever they are. After any fault nothing is in flight.
    pub fn send(&mut self, frame: Frame) -> Result<(), TransferFault>
        ensures sent { OnOk result
            (Wherever self.old (λ known facts. Sends C.does known frame facts self.old self.new)) }
        ensures failed { IfErr result (λ fault.
            Wherever self.old (λ known facts.
            Fails C.does known (IsAmong self.old.waiting.items frame) self.old.waiting.items fault facts self.old
            self.new)) }
        ensures some { OnOk result (0 < length self.new.waiting.items) }
        ensures none { OnErr result (self.new.waiting.items ≡ []) }
    {
        let count = self.waiting.len().saturating_sub(IN_FLIGHT_LIMIT - 1);
        self.settle(count)?;
        self.put(frame)?;
        Ok(())
    }

    /// Sends a frame and waits for the replies to all frames in flight, its own last. Returns that one. The others must
    /// be Taken, as with [`InFlight::send`]. After any fault nothing is in flight.
    pub fn ask(&mut self, frame: Frame) -> Result<Reply, TransferFault>
        ensures answered { IfOk result (λ reply.
            Wherever self.old (λ known facts. Waits C.does known frame reply facts self.old self.new)) }
        ensures failed { IfErr result (λ fault.
            Wherever self.old (λ known facts.
            Fails C.does known (IsAmong self.old.waiting.items frame) self.old.waiting.items fault facts self.old
            self.new)) }
        ensures none { self.new.waiting.items ≡ [] }
    {
        self.send(frame)?;
        let count = self.waiting.len().saturating_sub(1);
        self.settle(count)?;
        let answer = self.take()?;
        let reply = self.known.read_answer(self.alloc, answer)?;
        Ok(reply)
    }

    /// Waits for the replies to all frames in flight. They must be Taken, as with [`InFlight::send`]. Afterwards
    /// nothing is in flight.
    pub fn settle_all(&mut self) -> Result<(), TransferFault>
        ensures settled { OnOk result
            (Wherever self.old (λ known facts. EndsAll C.does known facts self.old self.new)) }
        ensures failed { IfErr result (λ fault.
            Wherever self.old (λ known facts.
            Fails C.does known (Contains self.old.waiting.items) self.old.waiting.items fault facts self.old
            self.new)) }
        ensures none { self.new.waiting.items ≡ [] }
    {
        let count = self.waiting.len();
        self.settle(count)?;
        Ok(())
    }

    /// Gives up the connection, and waits a while before a request is sent once more. Returns false, without waiting,
    /// if the time that may be waited is over. The next request begins on a new connection, where the service is
    /// vouched for again.
    pub fn pause(&mut self) -> bool
        ensures waited { Waited C.does (if result then Paused else Expired) self.old self.new }
        ensures nowhere { self.new.stage ≡ Stage.Nowhere }
    {
        self.stage = Stage::Nowhere;
        self.connection.pause()
    }

    /// Starts the time that may be waited anew.
    pub fn start_wait(&mut self)
        ensures { Waited C.does Started self.old self.new }
    {
        self.connection.start_wait();
    }

    /// Appends a frame to those in flight, and writes it if all before it were written; if not, it is written before a
    /// later read. Fails only if memory runs out; then nothing is in flight. Memory is taken first, since a frame that
    /// was written must be in flight.
    fn put(&mut self, frame: Frame) -> Result<(), TransferFault>
        ensures put { OnOk result (Wherever self.old (λ known facts. Puts C.does known frame facts self.old self.new)) }
        ensures behind { OnOk result (self.new.waiting.items ≡ self.old.waiting.items ++ frame ∷ []) }
        ensures failed { IfErr result (λ fault.
            Wherever self.old (λ known facts.
            Fails C.does known (λ other. other ≡ frame) [] fault facts self.old self.new)) }
        ensures none { OnErr result (self.new.waiting.items ≡ []) }
    {
        if self.waiting.reserve(1).is_err() {
            self.reset();
            return Err(TransferFault::Memory);
        }
        let stage = write_behind(self.stage, &mut self.connection, &self.waiting, &frame);
        self.stage = stage;
        self.waiting.push_back_reserved(frame);
        Ok(())
    }

    /// Waits for the replies to the first `count` frames in flight, one by one, as [`InFlight::settle_first`].
    fn settle(&mut self, count: usize) -> Result<(), TransferFault>
        requires { count ≤ length self.old.waiting.items }
        ensures settled { OnOk result
            (Wherever self.old (λ known facts.
            Settles C.does known (take count self.old.waiting.items) facts self.old self.new)) }
        ensures left { OnOk result (self.new.waiting.items ≡ drop count self.old.waiting.items) }
        ensures failed { IfErr result (λ fault.
            Wherever self.old (λ known facts.
            Fails C.does known (Contains self.old.waiting.items) (take count self.old.waiting.items) fault facts
            self.old self.new)) }
        ensures none { OnErr result (self.new.waiting.items ≡ []) }
    {
        for _ in 0..count {
            self.settle_first()?;
        }
        Ok(())
    }

    /// Waits for the reply to the first frame in flight, which must be Taken. If it is a refusal, but not because of
    /// memory, the replies to all others are read first, so that the connection can go on; where that fails, its fault
    /// is returned instead. After any other fault the connection cannot go on. After each nothing is in flight.
    fn settle_first(&mut self) -> Result<(), TransferFault>
        requires { 0 < length self.old.waiting.items }
        ensures settled { OnOk result
            (Wherever self.old (λ known facts.
            Settles C.does known (take 1 self.old.waiting.items) facts self.old self.new)) }
        ensures left { OnOk result (self.new.waiting.items ≡ drop 1 self.old.waiting.items) }
        ensures failed { IfErr result (λ fault.
            Wherever self.old (λ known facts.
            Fails C.does known (Contains self.old.waiting.items) (take 1 self.old.waiting.items) fault facts self.old
            self.new)) }
        ensures none { OnErr result (self.new.waiting.items ≡ []) }
    {
        let answer = self.take()?;
        match read_taken(self.alloc, answer.reply) {
            Ok(()) => Ok(()),
            Err(fault) => {
                if !fault.is_refusal() {
                    self.reset();
                    return Err(fault);
                }
                self.drain()?;
                Err(fault)
            }
        }
    }

    /// Reads the replies to all frames in flight, whatever they are, and drops them. Fails as [`InFlight::take`].
    fn drain(&mut self) -> Result<(), TransferFault>
        ensures drained { OnOk result (Wherever self.old (λ known facts. Tries C.does known facts self.old self.new)) }
        ensures failed { IfErr result (λ fault.
            Wherever self.old (λ known facts.
            Fails C.does known (Contains self.old.waiting.items) [] fault facts self.old self.new)) }
        ensures none { self.new.waiting.items ≡ [] }
    {
        let count = self.waiting.len();
        for _ in 0..count {
            self.take()?;
        }
        Ok(())
    }

    /// Waits for the reply to the first frame in flight, and takes both out. After a fault nothing is in flight.
    fn take(&mut self) -> Result<Known, TransferFault>
        requires { 0 < length self.old.waiting.items }
        ensures first { IfOk result (λ answer. self.old.waiting.items ≡ answer.request ∷ self.new.waiting.items) }
        ensures to { IfOk result (λ answer. IsTo answer.request answer.reply) }
        ensures taken { IfOk result (λ answer.
            Wherever self.old (λ known facts. Takes C.does known answer facts self.old self.new)) }
        ensures failed { IfErr result (λ fault.
            Wherever self.old (λ known facts.
            Fails C.does known (Contains self.old.waiting.items) [] fault facts self.old self.new)) }
        ensures none { OnErr result (self.new.waiting.items ≡ []) }
    {
        match self.take_front() {
            Ok(answer) => Ok(answer),
            Err(fault) => {
                self.reset();
                Err(fault)
            }
        }
    }

    /// Drops the frames in flight. The next request begins on a new connection, where no reply to these can come.
    fn reset(&mut self)
        ensures connection { self.new.connection ≡ self.old.connection }
        ensures known { self.new.known ≡ self.old.known }
        ensures none { self.new.waiting.items ≡ [] }
        ensures nowhere { self.new.stage ≡ Stage.Nowhere }
    {
        self.stage = Stage::Nowhere;
        self.waiting.clear();
    }

    /// Waits for the reply to the first frame in flight, for [`InFlight::take`], which drops the others after a fault.
    /// A frame of another version, client or number is the fault `Stranger`; other faults are those of
    /// [`InFlight::receive`]. That none is in flight, which would be `Stranger` too, cannot happen.
    fn take_front(&mut self) -> Result<Known, TransferFault>
        requires { 0 < length self.old.waiting.items }
        ensures first { IfOk result (λ answer. self.old.waiting.items ≡ answer.request ∷ self.new.waiting.items) }
        ensures to { IfOk result (λ answer. IsTo answer.request answer.reply) }
        ensures taken { IfOk result (λ answer.
            Wherever self.old (λ known facts. Takes C.does known answer facts self.old self.new)) }
        ensures stopped { IfErr result (λ fault.
            Wherever self.old (λ known facts.
            Stops C.does known (Contains self.old.waiting.items) [] fault facts self.old.connection
            self.new.connection)) }
        ensures known { self.new.known ≡ self.old.known }
    {
        let came = self.receive()?;
        let Some(oldest) = self.waiting.pop_front() else {
            return Err(TransferFault::Stranger);
        };
        if !is_to(&came, &oldest) {
            return Err(TransferFault::Stranger);
        }
        Ok(Known {
            request: oldest,
            reply: came,
        })
    }

    /// Reads the next frame, at first without waiting, then over new connections until the time that may be waited is
    /// over: that is the fault `Broken`. A service that does not repeat what is known is `Restarted` or `Memory`.
    ///
    /// No clause holds that the time starts anew here, nor does `submit_waits.py`: where it waits the time out, little
    /// has passed before.
    fn receive(&mut self) -> Result<Frame, TransferFault>
        ensures heard { IfOk result (λ came.
            Wherever self.old (λ known facts. Hears C.does known came facts self.old self.new)) }
        ensures stopped { IfErr result (λ fault.
            Wherever self.old (λ known facts.
            Stops C.does known (Contains self.old.waiting.items) [] fault facts self.old.connection
            self.new.connection)) }
        ensures same { self.new.waiting.items ≡ self.old.waiting.items }
        ensures known { self.new.known ≡ self.old.known }
    {
        let first = self.read_once()?;
        match first {
            Some(frame) => return Ok(frame),
            None => {}
        }
        self.start_wait();
        let frame = self.receive_later()?;
        Ok(frame)
    }

    /// Reads the next frame, after a pause before each try; it fails as [`InFlight::receive`] says. `u64::MAX` tries
    /// are never made: `GivesUp` of `specs/TransferFaults.antt` has that number, so that `Broken` behind them is
    /// proved.
    fn receive_later(&mut self) -> Result<Frame, TransferFault>
        ensures heard { IfOk result (λ came.
            Wherever self.old (λ known facts. Hears C.does known came facts self.old self.new)) }
        ensures stopped { IfErr result (λ fault.
            Wherever self.old (λ known facts.
            Stops C.does known (Contains self.old.waiting.items) [] fault facts self.old.connection
            self.new.connection)) }
        ensures same { self.new.waiting.items ≡ self.old.waiting.items }
        ensures known { self.new.known ≡ self.old.known }
    {
        for _ in 0..u64::MAX {
            if !self.pause() {
                return Err(TransferFault::Broken);
            }
            let read = self.read_once()?;
            match read {
                Some(frame) => return Ok(frame),
                None => {}
            }
        }
        Err(TransferFault::Broken)
    }

    /// Writes what is still to be written, and reads the next frame once, over this connection or, if it broke before,
    /// a new one. Returns `None` if the connection broke or could not be made: then none stands. Fails as `begin` of
    /// `new_connection.rt`; then no stage is set, and [`InFlight::take`] drops what is in flight.
    fn read_once(&mut self) -> Result<Option<Frame>, TransferFault>
        ensures read { IfOk result (λ read.
            Wherever self.old (λ known facts.
            MatchOption read (Tries C.does known facts self.old self.new) (λ came.
            Hears C.does known came facts self.old self.new))) }
        ensures stopped { IfErr result (λ fault.
            Wherever self.old (λ known facts.
            Stops C.does known (Contains self.old.waiting.items) [] fault facts self.old.connection
            self.new.connection)) }
        ensures same { self.new.waiting.items ≡ self.old.waiting.items }
        ensures known { self.new.known ≡ self.old.known }
    {
        let stage = write_ahead(
            self.stage,
            self.alloc,
            &mut self.connection,
            &self.known,
            &self.waiting,
        )?;
        match read_where(stage, self.alloc, &mut self.connection) {
            Some(frame) => {
                self.stage = behind_answer(stage);
                Ok(Some(frame))
            }
            None => {
                self.stage = Stage::Nowhere;
                Ok(None)
            }
        }
    }
}
