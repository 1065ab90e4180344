//! Where the command reads and writes: a trait, which `machine.rt` implements for this machine.

ghost use Rattle.std.specs.Prelude.{IfErr, IfOk, OnOk};
ghost use Rattle.droid_cmd_registry.specs.Acts.{Act, Got, GotNone, Put, PutNone, Reported};

use std::alloc::Global;
use std::io::ErrorKind;

/// What the command writes.
#[derive(Clone, Copy)]
pub enum Part {
    /// The registry file.
    Registry,
    /// The line beside it that says which registry it is.
    Note,
}

/// Why the signature file could not be read.
#[derive(Clone, Copy)]
pub enum Unread {
    /// It could not be opened.
    Unopened(ErrorKind),
    /// A read failed.
    Failed,
    /// It has more than 67,108,864 bytes: `BYTES_LIMIT` of `machine.rt`.
    TooLong,
    /// Out of memory.
    Memory,
}

/// Why a part could not be written.
#[derive(Clone, Copy)]
pub enum Unput {
    /// It would replace the signature file.
    SameFile,
    /// No file could be created, or it could not get its name; or its folder could not be synced after that.
    Refused,
    /// It could not be written.
    Unwritten,
    /// Out of memory.
    Memory,
}

/// Where the signature file is read, and where the registry and the report go.
pub trait Places {
    /// Relates the state before a call, what the command did, and the state after it.
    ghost does: { Self → Act → Self → Type 0 };

    /// Reads the signature file.
    fn read_file(&mut self, alloc: Global) -> Result<Vec<u8>, Unread>
        ensures got { IfOk result (λ bytes. does self.old (Got bytes.items) self.new) }
        ensures none { IfErr result (λ why. does self.old (GotNone why) self.new) };

    /// Writes a part whole. If that fails, what was there before stays; `put_file` and `put_on_output` of `machine.rt`
    /// have one exception each. The note is written only beside a registry file.
    fn put(&mut self, part: Part, bytes: &[u8]) -> Result<(), Unput>
        ensures put { OnOk result (does self.old (Put part bytes.now) self.new) }
        ensures none { IfErr result (λ why. does self.old (PutNone part bytes.now why) self.new) };

    /// Prints the report. If it can't be printed, nothing comes of that.
    fn report(&mut self, text: &str)
        ensures { does self.old (Reported text.now) self.new };
}
