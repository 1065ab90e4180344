//! The output of `identify` on this machine.
//!
//! Clauses say what is kept. What reaches standard output and standard error is held by `tests/program/identify`.

ghost use Rattle.std.specs.Prelude.{◌≡◌, ◌++◌, ◌⊎◌, []};

use crate::printer::Printer;
use crate::run_fault::RunFault;
use droid_frame::{Noted, WriteState, write_all};
use droid_terminal::Shown;
use std::alloc::Global;
use std::io;

/// From this many bytes on what is kept is written. It is a guess at a good size of a write; nothing else depends on
/// it.
const KEPT: usize = 8_192;

/// Standard output and standard error of this machine. Texts are kept for a while, since a folder may have many files.
#[derive(Drop)]
pub(crate) struct Output<'a, R> {
    rt: &'a R,
    /// What is still to be written.
    kept: Vec<u8>,
}

impl<'a, R: Print + Eprint> Output<'a, R> {
    /// Returns an output that keeps nothing.
    pub(crate) fn new(alloc: Global, rt: &'a R) -> Output<'a, R> {
        Output {
            rt,
            kept: Vec::new(alloc),
        }
    }
}

impl<R: Print + Eprint> Printer for Output<'_, R> {
    // The text stands behind what was kept, or nothing is kept.
    ghost prints = { λ old text new. (new.kept.items ≡ old.kept.items ++ text) ⊎ (new.kept.items ≡ []) };

    // Nothing is kept.
    ghost reports = { λ old path why new. new.kept.items ≡ [] };

    ghost writes = { λ old new. new.kept.items ≡ [] };

    /// Keeps the text, and writes all that is kept once that is 8,192 bytes or more.
    fn print(&mut self, text: &[u8]) -> Result<(), RunFault> {
        self.kept.extend_from_slice(text)?;
        if self.kept.len() < KEPT {
            return Ok(());
        }
        self.flush()
    }

    /// Writes what is kept, and then `droid_desk: PATH: WHY` on standard error. If that can't be written, the line
    /// is lost, and the command goes on.
    fn report(&mut self, path: &[u8], why: &str) -> Result<(), RunFault> {
        self.flush()?;
        let _ = eprintln!(self.rt; "droid_desk: {}: {why}", Shown(path));
        Ok(())
    }

    /// Writes what is kept. Where it can't be written it is dropped, and the command ends.
    fn flush(&mut self) -> Result<(), RunFault> {
        let mut output = Noted::new(io::writer(self.rt));
        let written = write_all(&mut output, self.kept.as_slice(), &mut WriteState::new());
        self.kept.clear();
        match written {
            Ok(()) => Ok(()),
            Err(_) => Err(RunFault::Write),
        }
    }
}
