//! A reader of lines, one at a time, from a stream that comes in pieces.

ghost use Rattle.std.specs.Prelude.{◌≡◌, ◌<◌, ◌≤◌, ◌-◌, ℕ, List, [], IfOk, IfErr, IfSome, IsErrOf, OnOk, OnErr};
ghost use Rattle.std.specs.Prelude.{MatchBool, length, take, drop};
ghost use Rattle.std.specs.Io.KnownBytes.{Consumes, IsAtEnd, Keeps, prepend_known};
ghost use Rattle.std.specs.Option.{option_map};
ghost use Rattle.droid_frame.specs.Seen.{Counts, CountsOn};
ghost use Rattle.droid_lines.specs.Reading.{CountsUnless, GivesLine, Moves, where_some};
ghost use Rattle.droid_lines.specs.Sending.{IsOfReading};

use crate::line_feeds::line_end;
use crate::send_fault::SendFault;
use droid_frame::{ReadFault, Retries, SteadyRead, read_some};
use std::alloc::{AllocError, Global};
use std::marker::Model;

/// The most bytes that one read asks for. The invariant of [`LineReader`] has this number too.
const CHUNK: usize = 8_192;

/// The bytes that were read but not returned as lines yet. Contracts see these bytes.
#[derive(Drop)]
pub(crate) struct LineReader {
    chunk: [u8; CHUNK],
    // The bytes start here,
    from: usize,
    // and end before this index.
    to: usize,
}

impl Model for LineReader {
    ghost Value = { List ℕ };

    ghost view = { λ r. take (r.to - r.from) (drop r.from r.chunk) };

    ghost invariant = { λ r. (r.from ≤ r.to) × (r.to ≤ 8192) };
}

impl LineReader {
    /// Starts with no bytes.
    pub(crate) fn new() -> LineReader
        ensures { result ≡ [] }
    {
        LineReader {
            chunk: [0; CHUNK],
            from: 0,
            to: 0,
        }
    }

    /// Returns the next line without its line feed, or `None` if no line is left. The last line may have no line feed.
    /// An interrupted read is tried again, up to 64 times over all lines read with these `retries`.
    pub(crate) fn next_line<L: SteadyRead>(
        &mut self,
        alloc: Global,
        reader: &mut L,
        retries: &mut Retries,
    ) -> Result<Option<Vec<u8>>, SendFault>
        ensures line { IfOk result (λ line. IfSome (prepend_known self.old (L.remaining reader.old)) (λ script.
            GivesLine script (prepend_known self.new (L.remaining reader.new))
            (option_map (λ line. line.items) line))) }
        ensures faults { IfErr result IsOfReading }
        // `Lines` is returned exactly if the reader failed or was interrupted for the 65th time since the count began.
        ensures counts { (start : ℕ) → Counts start (L.seen reader.old) retries.old →
            CountsUnless start (L.seen reader.new) retries.new (IsErrOf result SendFault.Lines) }
    {
        let mut line = Vec::new(alloc);
        while !self.move_line(&mut line)? {
            if !self.refill(reader, retries)? {
                return Ok(last_line(line));
            }
        }
        Ok(Some(line))
    }

    /// Moves the bytes before the first line feed to the end of the line, and drops the line feed. Without a line feed,
    /// moves all bytes. Returns whether there was one. Out of memory, nothing is promised: `send` ends.
    fn move_line(&mut self, line: &mut Vec<u8>) -> Result<bool, AllocError>
        ensures { IfOk result (λ fed. Moves fed self.old self.new line.old.items line.new.items) }
    {
        let unread = &self.chunk[self.from..self.to];
        match line_end(unread) {
            Some(place) => {
                line.extend_from_slice(&unread[..place])?;
                self.from += place + 1;
                Ok(true)
            }
            None => {
                line.extend_from_slice(unread)?;
                self.from = self.to;
                Ok(false)
            }
        }
    }

    /// Reads more bytes after all others were returned. Returns whether any came: `false` is the end of the stream.
    fn refill<L: SteadyRead>(
        &mut self,
        reader: &mut L,
        retries: &mut Retries,
    ) -> Result<bool, ReadFault>
        requires { self.old ≡ [] }
        ensures bytes { OnOk result (Consumes (L.remaining reader.old) (L.remaining reader.new) self.new) }
        ensures end { IfOk result (λ some.
            MatchBool some (0 < length self.new) ((self.new ≡ []) × IsAtEnd (L.remaining reader.new))) }
        ensures counts { (start : ℕ) → Counts start (L.seen reader.old) retries.old
            → CountsOn start (L.seen reader.new) retries.new result }
    {
        self.from = 0;
        self.to = 0;
        self.to = read_some(reader, &mut self.chunk, retries)?;
        Ok(self.to > 0)
    }
}

/// Returns the text after the last line feed as a line, or `None` if it is empty.
fn last_line(line: Vec<u8>) -> Option<Vec<u8>>
    ensures { option_map (λ line. line.items) result ≡ where_some line.items }
{
    if line.is_empty() {
        return None;
    }
    Some(line)
}
