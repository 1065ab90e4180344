//! The trait for a connection to a service, which may break.

ghost use Rattle.std.specs.Prelude.{IfOk, OnErr, OnOk, if◌then◌else◌};
ghost use Rattle.droid_remote.specs.Events.{Event, Joined, Alone, Sent, Cut, Came, Lost, Paused, Expired, Started};

use droid_frame::Frame;
use std::alloc::Global;

/// The connection broke. Nothing more comes from it.
#[derive(Clone, Copy)]
pub struct Broken;

/// A connection that can be made again after it broke.
pub trait Connection {
    /// Relates the state before an event, the event, and the state after it.
    ghost does: { Self → Event → Self → Type 0 };

    /// Connects to the service. Drops an older connection and what was not read from it.
    fn connect(&mut self) -> Result<(), Broken>
        ensures joined { OnOk result (does self.old Joined self.new) }
        ensures alone { OnErr result (does self.old Alone self.new) };

    /// Writes a frame. If it fails, a part of the frame may have been written.
    fn write(&mut self, frame: &Frame) -> Result<(), Broken>
        ensures sent { OnOk result (does self.old (Sent frame.now) self.new) }
        ensures cut { OnErr result (does self.old (Cut frame.now) self.new) };

    /// Reads the next frame.
    fn read(&mut self, alloc: Global) -> Result<Frame, Broken>
        ensures came { IfOk result (λ frame. does self.old (Came frame) self.new) }
        ensures lost { OnErr result (does self.old Lost self.new) };

    /// Gives up the connection, if there is one, and then waits a while: a service that serves one connection at a time
    /// can serve others meanwhile. Returns false, without waiting, if the time that may be waited is over.
    fn pause(&mut self) -> bool
        ensures { does self.old (if result then Paused else Expired) self.new };

    /// Starts the time that may be waited anew.
    fn start_wait(&mut self)
        ensures { does self.old Started self.new };
}
