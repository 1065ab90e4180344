//! The cache of kept replies, in which a service looks before it asks the store.
//!
//! Of the words that come with the kit's `lru`, `entries` is what is cached, the most recently used first, `cap` is how
//! many entries there may be, `promoted` is these entries with one of them moved to the front, and `lru_cache` is the
//! cache with such entries and such a `cap`.
//!
//! Clauses say that what is cached is right, not that anything is: without a row the service asks the store, and
//! replies the same. That rows are cached, and the least recently used one dropped, the tests `requests/cache.rt` of
//! droid_service_tests hold.

ghost use Rattle.std.specs.Prelude.{◌≡◌, ◌≤◌, [], length, IfOk, IfSome};
ghost use Rattle.std.specs.NonZero.{non_zero_usize_get};
ghost use Rattle.lru.specs.LruCache.{lru_cache, promoted};
ghost use Rattle.droid_core.specs.Recent.{AreKept, IsKeptRow, is_cached_in, is_same};
ghost use Rattle.droid_core_spec.specs.Histories.{History};
ghost use Rattle.droid_core.specs.Changes.{stamped};
ghost use Rattle.droid_frame.specs.Replies.{HasReplySpelling};
ghost use Rattle.droid_frame.specs.Versions.{IsVersion};

use crate::replies::entry_of;
use crate::stamps::Stamp;
use droid_frame::Reply;
use droid_store::Entry;
use lru::LruCache;
use std::alloc::{AllocError, Global};
use std::num::NonZeroUsize;

/// The rows of the kept replies that were used last, by client and number. If there is no memory to cache a row, it is
/// skipped, and nothing is reported: the store has it.
#[derive(Drop)]
pub struct RecentReplies {
    alloc: Global,
    rows: LruCache<(u32, u64), Entry>,
}

impl RecentReplies {
    /// Creates an empty cache for `capacity` rows. Fails only if there is no memory.
    pub fn new(alloc: Global, capacity: NonZeroUsize) -> Result<RecentReplies, AllocError>
        ensures none { IfOk result (λ recent. recent.rows.entries ≡ []) }
        ensures room { IfOk result (λ recent. recent.rows.cap ≡ non_zero_usize_get capacity) }
    {
        Ok(RecentReplies {
            alloc,
            rows: LruCache::new(alloc, capacity)?,
        })
    }

    /// Returns how many rows are cached, at most the capacity.
    pub fn len(&self) -> usize
        ensures count { result ≡ length self.now.rows.entries }
        ensures bound { result ≤ self.now.rows.cap }
    {
        self.rows.len()
    }

    /// Returns whether a row of this client and number is cached. The order in which rows were used stays.
    pub fn contains(&self, client: u32, number: u64) -> bool
        ensures { result ≡ is_cached_in self.now.rows.entries client number }
    {
        self.rows.contains(&(client, number))
    }

    /// Returns a copy of the row of this client and number, or `None` if it is not cached or there is no memory for a
    /// copy. A look-up makes the row the most recently used.
    pub fn find(&mut self, client: u32, number: u64) -> Option<Entry>
        ensures found { (history : History) → AreKept history self.old.rows.entries
            → IfSome result (λ row. IsKeptRow history (client, number) row) }
        ensures kept { (history : History) → AreKept history self.old.rows.entries
            → AreKept history self.new.rows.entries }
        ensures used { self.new.rows
            ≡ lru_cache (promoted (is_same (client, number)) self.old.rows.entries) self.old.rows.cap }
    {
        let whose = (client, number);
        let _ = self.rows.promote(&whose);
        let row = self.rows.peek(&whose)?;
        copy_of(self.alloc, row)
    }

    /// Caches the row of the reply to the request with this stamp, as the most recently used. If there is no memory for
    /// the row, the cache stays as it was.
    pub fn put_reply(&mut self, stamp: Stamp, reply: &Reply)
        requires version { IsVersion stamp.version }
        requires spelled { HasReplySpelling stamp.version reply.now }
        ensures kept { (history : History) → AreKept history self.old.rows.entries
            → IsKeptRow history (stamp.client, stamp.number) (stamped stamp reply.now)
            → AreKept history self.new.rows.entries }
        ensures room { self.new.rows.cap ≡ self.old.rows.cap }
    {
        let Ok(row) = entry_of(self.alloc, stamp, reply) else {
            return;
        };
        self.put(stamp.client, stamp.number, row);
    }

    /// Caches a copy of the row of this client and number, as the most recently used. If there is no memory for the
    /// copy, the cache stays as it was.
    pub fn put_copy(&mut self, client: u32, number: u64, row: &Entry)
        ensures kept { (history : History) → AreKept history self.old.rows.entries
            → IsKeptRow history (client, number) row.now
            → AreKept history self.new.rows.entries }
        ensures room { self.new.rows.cap ≡ self.old.rows.cap }
    {
        let Some(copy) = copy_of(self.alloc, row) else {
            return;
        };
        self.put(client, number, copy);
    }

    /// Caches a row, and drops the one that was used least recently if there is no place left. If there is no memory
    /// for it, nothing is reported.
    fn put(&mut self, client: u32, number: u64, row: Entry)
        ensures kept { (history : History) → AreKept history self.old.rows.entries
            → IsKeptRow history (client, number) row
            → AreKept history self.new.rows.entries }
        ensures room { self.new.rows.cap ≡ self.old.rows.cap }
    {
        let _ = self.rows.put((client, number), row);
    }
}

/// Copies a row, with its body. Returns `None` if there is no memory; that it does so only then no clause says.
fn copy_of(alloc: Global, row: &Entry) -> Option<Entry>
    ensures { IfSome result (λ copy. copy ≡ row.now) }
{
    let body = row.body.try_clone(alloc).ok()?;
    let mark = row.mark;
    Some(Entry {
        client: row.client,
        number: row.number,
        version: row.version,
        mark,
        kind: row.kind,
        body,
    })
}
