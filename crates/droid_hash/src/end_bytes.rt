//! The first and the last bytes of a file whose bytes come in pieces.

ghost use Rattle.std.specs.Prelude.{◌≡◌, ℕ, ◌+◌, ◌-◌, ◌≤◌, List, [], ◌++◌, length, take, drop, min, IfOk, vec_len};
ghost use Rattle.std.specs.Prelude.{vec_capacity};
ghost use Rattle.droid_hash.specs.Ends.{Came, width};

use crate::pieces::{front, rest};
use std::alloc::{AllocError, Global};
use std::marker::Model;

/// The first and the last bytes of a file whose size is known and whose bytes come in pieces. Only `new` allocates: one
/// value serves file after file.
#[derive(Drop)]
pub struct EndBytes {
    first: Vec<u8>,
    last: Vec<u8>,
    limit: usize,
    size: u64,
    // How many of the file's bytes came.
    count: u64,
}

impl Model for EndBytes {
    ghost use Rattle.droid_hash.specs.Ends.{Ends};
    ghost use Rattle.droid_hash.specs.Rooms.{HasRoom, shown};

    ghost Value = { Ends };

    ghost view = { shown };

    ghost invariant = { HasRoom };
}

/// Appends bytes to one end's bytes (`window`). There is room for them, so nothing is allocated and the `unwrap` never
/// fails.
fn append(window: &mut Vec<u8>, bytes: &[u8])
    requires { vec_len window.old + length bytes.now ≤ vec_capacity window.old }
    ensures items { window.new.items ≡ window.old.items ++ bytes.now }
    ensures len { vec_len window.new ≡ vec_len window.old + length bytes.now }
    ensures capacity { vec_capacity window.old ≤ vec_capacity window.new }
{
    window.extend_from_slice(bytes).unwrap()
}

/// Returns how many of `len` bytes are among the next `left` ones: the smaller number.
fn within(len: usize, left: u64) -> usize
    ensures { result ≡ min left len }
{
    if left < len as u64 {
        left as usize
    } else {
        len
    }
}

/// Returns how many bytes each end of a file of `size` bytes has: all of a file that is shorter than `limit`.
fn width_of(limit: usize, size: u64) -> u64
    ensures { result ≡ min limit size }
{
    (limit as u64).min(size)
}

impl EndBytes {
    /// Makes room for `limit` bytes of each end, and begins a file of no bytes. Fails only when out of memory.
    pub fn new(alloc: Global, limit: usize) -> Result<EndBytes, AllocError>
        ensures limit { IfOk result (λ ends. ends.limit ≡ limit) }
        ensures empty { IfOk result (λ ends. Came ends []) }
    {
        let first = Vec::with_capacity(alloc, limit)?;
        let last = Vec::with_capacity(alloc, limit)?;
        Ok(EndBytes {
            first,
            last,
            limit,
            size: 0,
            count: 0,
        })
    }

    /// Begins a file of `size` bytes, and forgets the old one. The rooms stay.
    pub fn begin(&mut self, size: u64)
        ensures limit { self.new.limit ≡ self.old.limit }
        ensures size { self.new.size ≡ size }
        ensures empty { Came self.new [] }
    {
        self.first.clear();
        self.last.clear();
        self.size = size;
        self.count = 0;
    }

    /// Takes the file's next bytes. Copies only those that lie at an end; bytes beyond the file's size do not count.
    pub fn take(&mut self, piece: &[u8])
        ensures limit { self.new.limit ≡ self.old.limit }
        ensures size { self.new.size ≡ self.old.size }
        ensures came { (bytes : List ℕ) → Came self.old bytes → Came self.new (bytes ++ piece.now) }
    {
        let fresh = front(piece, within(piece.len(), self.size - self.count));
        let width = width_of(self.limit, self.size);
        let first_left = width.saturating_sub(self.count);
        let early = front(fresh, within(fresh.len(), first_left));
        append(&mut self.first, early);
        let last_left = (self.size - width).saturating_sub(self.count);
        let late = rest(fresh, within(fresh.len(), last_left));
        append(&mut self.last, late);
        self.count += fresh.len() as u64;
    }

    /// Returns the file's first bytes, of those that came: at most `limit`, and fewer if fewer came.
    pub fn first(&self) -> &[u8]
        ensures value { result.now ≡ self.now.first }
        ensures all { (bytes : List ℕ) → Came self.now bytes → length bytes ≡ self.now.size
            → result.now ≡ take (width self.now) bytes }
        ensures len { (bytes : List ℕ) → Came self.now bytes → length bytes ≡ self.now.size
            → length result.now ≡ width self.now }
    {
        self.first.as_slice()
    }

    /// Returns those of the file's last bytes that came: at most `limit`, counted from the end that `begin` named.
    /// While that end is further off, there are none.
    pub fn last(&self) -> &[u8]
        ensures value { result.now ≡ self.now.last }
        ensures all { (bytes : List ℕ) → Came self.now bytes → length bytes ≡ self.now.size
            → result.now ≡ drop (self.now.size - width self.now) bytes }
        ensures len { (bytes : List ℕ) → Came self.now bytes → length bytes ≡ self.now.size
            → length result.now ≡ width self.now }
    {
        self.last.as_slice()
    }
}
