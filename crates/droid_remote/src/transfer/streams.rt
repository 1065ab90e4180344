//! A connection over streams of bytes: one at a time, opened by what the caller supplies, and closed when it fails.

ghost use Rattle.std.specs.Prelude.{◌≡◌, IfOk, OnErr, if◌then◌else◌};
ghost use Rattle.droid_remote.specs.Events.{Alone, Event, Expired, Paused, Started};
ghost use Rattle.droid_remote.specs.Streams.{StreamDoes};

use crate::transfer::connection::{Broken, Connection};
use droid_frame::{Arrival, Frame, SteadyRead, SteadyWrite, body_limit, read_frame, write_frame};
use std::alloc::Global;

/// Opens streams, and waits between tries.
pub trait Open<S: SteadyRead + SteadyWrite> {
    /// Relates the state before opening a stream, the stream as it was opened, and the state after it.
    ghost opens: { Self → S → Self → Type 0 };

    /// Relates the state before an event that is not of a stream, the event, and the state after it. The events are
    /// that no stream could be opened, and those of waiting.
    ghost waits: { Self → Event → Self → Type 0 };

    /// Opens a new stream.
    fn open(&mut self) -> Result<S, Broken>
        ensures opened { IfOk result (λ stream. opens self.old stream self.new) }
        ensures alone { OnErr result (waits self.old Alone self.new) };

    /// Is told that a frame is awaited from now on. Reads and writes nothing. No clause holds that it is
    /// told: `Streams` does, before each read.
    fn await_frame(&self, stream: &mut S)
        ensures unread { S.remaining stream.new ≡ S.remaining stream.old }
        ensures unwritten { S.contents stream.new ≡ S.contents stream.old };

    /// Waits a while. Returns false, without waiting, if the time that may be waited is over.
    fn pause(&mut self) -> bool
        ensures { waits self.old (if result then Paused else Expired) self.new };

    /// Starts the time that may be waited anew.
    fn start_wait(&mut self)
        ensures { waits self.old Started self.new };
}

/// A connection over one stream at a time. A stream that fails is closed.
#[derive(Drop)]
pub struct Streams<O, S> {
    /// Opens the streams.
    pub opener: O,
    /// The open stream, if there is one.
    pub stream: Option<S>,
}

impl<O: Open<S>, S: SteadyRead + SteadyWrite + Drop> Connection for Streams<O, S> {
    ghost does = { StreamDoes O.opens O.waits S.remaining S.contents };

    /// Closes the stream that was open, and opens a new one.
    fn connect(&mut self) -> Result<(), Broken> {
        self.stream = None;
        let stream = self.opener.open()?;
        self.stream = Some(stream);
        Ok(())
    }

    /// Writes a frame to the open stream. Without one, or for a body over the limit of version 2, nothing is written.
    /// Any failure leaves no stream open.
    fn write(&mut self, frame: &Frame) -> Result<(), Broken> {
        let Some(mut stream) = self.stream.take() else {
            return Err(Broken);
        };
        if frame.body.len() > body_limit(2) {
            return Err(Broken);
        }
        match write_frame(frame, &mut stream) {
            Ok(()) => {
                self.stream = Some(stream);
                Ok(())
            }
            Err(_) => Err(Broken),
        }
    }

    /// Reads a frame from the open stream. The end of the stream, a malformed frame and no memory break it too: each
    /// leaves no stream open. The opener is told first: else the frame's time would have begun with the connection
    /// (`Timely` of `droid_cmd_submit`), which the short runs of `submit_timeout.py` may not show.
    fn read(&mut self, alloc: Global) -> Result<Frame, Broken> {
        let Some(mut stream) = self.stream.take() else {
            return Err(Broken);
        };
        self.opener.await_frame(&mut stream);
        match read_frame(alloc, &mut stream) {
            Ok(Arrival::Frame(frame)) => {
                self.stream = Some(stream);
                Ok(frame)
            }
            Ok(Arrival::End) => Err(Broken),
            Err(_) => Err(Broken),
        }
    }

    /// Closes the stream, if one is open, and has the opener wait.
    fn pause(&mut self) -> bool {
        self.stream.take();
        self.opener.pause()
    }

    /// Has the opener start its time anew. The stream stays open.
    fn start_wait(&mut self) {
        self.opener.start_wait();
    }
}
