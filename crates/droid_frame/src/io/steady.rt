//! The traits by which this project reads and writes, [`SteadyRead`] and [`SteadyWrite`]: their contracts record what a
//! stream did. Slices and std's sink have them here; `Noted` gives them to any other stream.
//!
//! A stream fails if it returns an error other than an interruption, or takes no byte of a write. The traits of std say
//! nothing of failures, so this project reads and writes through these traits.

ghost use Rattle.std.specs.Prelude.{◌≡◌, ℕ, Option, Some, None, length};
ghost use Rattle.std.specs.Io.{ReadsAtMost, WritesAtMost};
ghost use Rattle.std.specs.Io.KnownBytes.{ReadConsumes, WriteAppends};
ghost use Rattle.droid_frame.specs.declared.io.stream_record.Seen.{Seen};
ghost use Rattle.droid_frame.specs.declared.io.stream_record.Condition.TheVariants.{UsedSince};
ghost use Rattle.droid_frame.specs.Seen.{IsSound, fresh};
ghost use Rattle.droid_frame.specs.Reads.{AddsRead};
ghost use Rattle.droid_frame.specs.Writes.{AddsWrite, LeavesRoom};

use std::io::{self, Read, Write};

/// A reader whose contract records what it did.
pub trait SteadyRead: Read {
    /// How often it was interrupted, and whether it has failed.
    ghost seen: { Self → Seen };

    /// Reads as `read` does: any number of bytes up to the buffer's length, and none at the end of the input.
    fn read_on(&mut self, buffer: &mut [u8]) -> io::Result<usize>
        ensures bound { ReadsAtMost result buffer.new }
        ensures bytes { ReadConsumes (Self.remaining self.old) (Self.remaining self.new) result buffer.new }
        ensures adds { IsSound (seen self.old) → AddsRead (seen self.old) (seen self.new) result }
        ensures used { (IsSound (seen self.old) → ⊥) → (seen self.new).condition ≡ UsedSince };
}

/// A writer whose contract records what it did.
pub trait SteadyWrite: Write {
    /// How often it was interrupted, and whether it has failed.
    ghost seen: { Self → Seen };

    /// The number of bytes that it still has room for. `None`: its room has no end, or nothing is known of it.
    ghost room: { Self → Option ℕ };

    /// Writes as `write` does: any number of the first bytes. If it has room and takes no byte, it has failed.
    fn write_on(&mut self, bytes: &[u8]) -> io::Result<usize>
        ensures bound { WritesAtMost result bytes.now }
        ensures bytes { WriteAppends (Self.contents self.old) (Self.contents self.new) result bytes.now }
        ensures room { LeavesRoom (room self.old) (room self.new) result }
        ensures adds { IsSound (seen self.old)
            → AddsWrite (seen self.old) (seen self.new) (room self.old) (length bytes.now) result }
        ensures used { (IsSound (seen self.old) → ⊥) → (seen self.new).condition ≡ UsedSince };
}

impl SteadyRead for &[u8] {
    ghost seen = { λ _. fresh };

    /// Reads from the slice's front. A slice is never interrupted and never fails, so its record stays that of a fresh
    /// stream.
    fn read_on(&mut self, buffer: &mut [u8]) -> io::Result<usize> {
        self.read(buffer)
    }
}

impl SteadyWrite for &mut [u8] {
    ghost seen = { λ _. fresh };

    ghost room = { λ bytes. Some (length bytes.now) };

    /// Writes to the slice's front, as many bytes as it has room for. A full slice takes none, which is no failure: its
    /// room is 0.
    fn write_on(&mut self, bytes: &[u8]) -> io::Result<usize> {
        self.write(bytes)
    }
}

impl SteadyWrite for io::Sink {
    ghost seen = { λ _. fresh };

    ghost room = { λ _. None };

    /// Takes all of the bytes and keeps none. Its room has no end.
    fn write_on(&mut self, bytes: &[u8]) -> io::Result<usize> {
        Ok(bytes.len())
    }
}
