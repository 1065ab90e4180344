//! A writer that may keep what it writes: the CSV of a profile, of which a page is to be made.

ghost use Rattle.std.specs.Prelude.{◌≡◌, ◌++◌, Some, OnErr, OnOk, false, true};
ghost use Rattle.std.specs.Io.{WritesAtMost};
ghost use Rattle.std.specs.Io.KnownBytes.{WriteAppends};
ghost use Rattle.droid_cmd_profile.specs.Kept.{IsBegun, kept_contents};

use std::alloc::Global;
use std::io::{self, Error, ErrorKind, Write};

/// A writer that may keep what it writes: the page of a CSV can be made as soon as the CSV was written, and no file is
/// read again.
#[derive(Drop)]
pub struct Keeping<O> {
    /// Where everything is written.
    pub output: O,
    /// What was written, if it is kept. A write that fails adds nothing.
    pub text: Option<Vec<u8>>,
    /// Whether a write failed because there was no memory to keep it. Nothing of it was written then. `profile_to` of
    /// `folder_profile.rt` reads it, and the command ends as out of memory: `test_profile_with_a_page` of
    /// `commands_refused.py` in `tests/memory` refuses each allocation in turn.
    pub lacked_memory: bool,
}

impl<O> Keeping<O> {
    /// Takes a writer. What is written from now on is kept if `keeps` is set. Takes no memory yet.
    pub fn new(alloc: Global, output: O, keeps: bool) -> Keeping<O>
        ensures output { result.output ≡ output }
        ensures text { IsBegun keeps result.text }
        ensures memory { result.lacked_memory ≡ false }
    {
        Keeping {
            output,
            text: no_text(alloc, keeps),
            lacked_memory: false,
        }
    }
}

/// Returns an empty text to keep what is written in, or `None` if nothing is kept.
fn no_text(alloc: Global, keeps: bool) -> Option<Vec<u8>>
    ensures { IsBegun keeps result }
{
    if keeps { Some(Vec::new(alloc)) } else { None }
}

// What was written is what is kept, or else what the output holds. Where nothing is kept it is the output alone.
impl<O: Write> Write for Keeping<O> {
    ghost contents = { kept_contents O.contents };

    fn write(&mut self, buf: &[u8]) -> io::Result<usize> {
        match &mut self.text {
            Some(text) => write_and_keep(&mut self.output, text, &mut self.lacked_memory, buf),
            None => self.output.write(buf),
        }
    }

    fn flush(&mut self) -> io::Result<()> {
        self.output.flush()
    }
}

/// Writes bytes, and keeps those that the output took: how many is what it returns. They are kept before they are
/// written, so that nothing is written that can't be kept. After an error of either the text is as it was. For
/// `Keeping::write`, which passes its own three fields.
///
/// The clauses are the kit's of any writer, twice: of the output, and of the text that is kept. No clause here holds
/// `lacked_memory`: only `keep` may change it, whose clauses `sound` and `noted` say when.
fn write_and_keep<O: Write>(
    output: &mut O,
    text: &mut Vec<u8>,
    lacked_memory: &mut bool,
    bytes: &[u8],
) -> io::Result<usize>
    ensures bound { WritesAtMost result bytes.now }
    ensures written { WriteAppends (O.contents output.old) (O.contents output.new) result bytes.now }
    ensures kept { WriteAppends (Some text.old.items) (Some text.new.items) result bytes.now }
{
    let before = text.len();
    keep(text, lacked_memory, bytes)?;
    match output.write(bytes) {
        Ok(count) => {
            text.truncate(before + count);
            Ok(count)
        }
        Err(error) => {
            text.truncate(before);
            Err(error)
        }
    }
}

/// Appends bytes to a text. If there is no memory for them, sets `lacked_memory` and fails with the kind `OutOfMemory`,
/// which no clause holds: callers see only that the writer failed. The flag tells the command why.
fn keep(text: &mut Vec<u8>, lacked_memory: &mut bool, bytes: &[u8]) -> io::Result<()>
    ensures kept { OnOk result (text.new.items ≡ text.old.items ++ bytes.now) }
    ensures sound { OnOk result (lacked_memory.new ≡ lacked_memory.old) }
    ensures same { OnErr result (text.new.items ≡ text.old.items) }
    ensures noted { OnErr result (lacked_memory.new ≡ true) }
{
    match text.extend_from_slice(bytes) {
        Ok(()) => Ok(()),
        Err(_) => {
            *lacked_memory = true;
            Err(Error::from(ErrorKind::OutOfMemory))
        }
    }
}
