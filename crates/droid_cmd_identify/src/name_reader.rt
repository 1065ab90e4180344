//! Reads a list of names, one at a time: each ends with the same byte, in `identify` a line feed or 0.

ghost use Rattle.std.specs.Prelude.{◌≡◌, ◌==◌, ◌<◌, ◌≤◌, ◌-◌, ◌++◌, ℕ, List, [], IfOk, IfSome, OnOk};
ghost use Rattle.std.specs.Prelude.{MatchBool, length, take, drop};
ghost use Rattle.std.specs.List.{position_from};
ghost use Rattle.std.specs.Io.KnownBytes.{Consumes, IsAtEnd, prepend_known};
ghost use Rattle.droid_cmd_identify.specs.NameLists.{GivesName, Moves};

use droid_frame::{InputFault, ReadFault, Retries, SteadyRead, read_some};
use std::alloc::AllocError;
use std::marker::Model;

/// The most bytes that one read asks for. The invariant below has this number too.
const CHUNK: usize = 8_192;

/// How many bytes of a name are kept: one more than a path can have (`PATH_LIMIT` of `machine.rt`), so that a longer
/// name is seen to be too long. `NameLists.antt` has this number too, and the prover ties the two.
const KEPT: usize = 4_096;

/// The bytes of a list that were read but not returned as names yet. Contracts see these bytes.
#[derive(Drop)]
pub struct NameReader {
    chunk: [u8; CHUNK],
    // The bytes start here,
    from: usize,
    // and end before this index.
    to: usize,
    // The byte that ends a name.
    end: u8,
}

impl Model for NameReader {
    ghost use Rattle.std.specs.Prelude.{◌-◌, ◌≤◌, drop, take};
    ghost use Rattle.droid_cmd_identify.specs.NameLists.{NamesLeft};

    ghost Value = { NamesLeft };

    ghost view = { λ r. record { end = r.end; bytes = take (r.to - r.from) (drop r.from r.chunk) } };

    ghost invariant = { λ r. (r.from ≤ r.to) × (r.to ≤ 8192) };
}

impl NameReader {
    /// Starts a list whose names this byte ends.
    pub fn new(end: u8) -> NameReader
        ensures { result ≡ record { end = end; bytes = [] } }
    {
        NameReader {
            chunk: [0; CHUNK],
            from: 0,
            to: 0,
            end,
        }
    }

    /// Reads the next name in the place of what stood in `name`, at most the first 4,096 bytes of it. Returns `false`
    /// if no name is left. The last name needs no end.
    ///
    /// An interrupted read is tried again, up to 64 times over all names read with these `retries`.
    pub fn next_name<L: SteadyRead>(
        &mut self,
        reader: &mut L,
        retries: &mut Retries,
        name: &mut Vec<u8>,
    ) -> Result<bool, InputFault>
        ensures name { IfOk result (λ some. IfSome (prepend_known self.old.bytes (L.remaining reader.old)) (λ list.
            GivesName self.old.end list (prepend_known self.new.bytes (L.remaining reader.new)) some name.new.items)) }
        ensures end { self.new.end ≡ self.old.end }
    {
        name.clear();
        for _ in 0..u64::MAX {
            if self.move_name(name)? {
                return Ok(true);
            }
            if !self.refill(reader, retries)? {
                return Ok(!name.is_empty());
            }
        }
        Err(InputFault::TooLong)
    }

    /// Moves the bytes before the next end to the name, as many as are kept, and drops the end. Where the bytes that
    /// were read have no end, takes all of them. Returns whether there was an end.
    fn move_name(&mut self, name: &mut Vec<u8>) -> Result<bool, AllocError>
        ensures moved { IfOk result (λ ended. Moves ended self.old.end self.old.bytes self.new.bytes name.old.items
            name.new.items) }
        ensures end { self.new.end ≡ self.old.end }
    {
        let unread = &self.chunk[self.from..self.to];
        match end_place(unread, self.end) {
            Some(place) => {
                keep(name, &unread[..place])?;
                self.from += place + 1;
                Ok(true)
            }
            None => {
                keep(name, unread)?;
                self.from = self.to;
                Ok(false)
            }
        }
    }

    /// Reads more bytes after all others were returned. Returns whether any came: none do at the list's end.
    fn refill<L: SteadyRead>(
        &mut self,
        reader: &mut L,
        retries: &mut Retries,
    ) -> Result<bool, ReadFault>
        requires { self.old.bytes ≡ [] }
        ensures bytes { OnOk result (Consumes (L.remaining reader.old) (L.remaining reader.new) self.new.bytes) }
        ensures some { IfOk result (λ some.
            MatchBool some (0 < length self.new.bytes) ((self.new.bytes ≡ []) × IsAtEnd (L.remaining reader.new))) }
        ensures end { self.new.end ≡ self.old.end }
    {
        self.from = 0;
        self.to = 0;
        self.to = read_some(reader, &mut self.chunk, retries)?;
        Ok(self.to > 0)
    }
}

/// Returns the place of the first byte that ends a name.
fn end_place(bytes: &[u8], end: u8) -> Option<usize>
    ensures first { result ≡ position_from (λ byte. byte == end) 0 bytes.now }
    ensures within { IfSome result (λ place. place < length bytes.now) }
{
    bytes.iter().position(|byte| *byte == end)
}

/// Appends bytes to a name, as many as its 4,096 bytes leave room for. The others are dropped.
fn keep(name: &mut Vec<u8>, bytes: &[u8]) -> Result<(), AllocError>
    ensures { OnOk result ((front : List ℕ) → name.old.items ≡ take 4096 front → name.new.items
        ≡ take 4096 (front ++ bytes.now)) }
{
    let room = KEPT.saturating_sub(name.len());
    name.extend_from_slice(&bytes[..room.min(bytes.len())])?;
    Ok(())
}
