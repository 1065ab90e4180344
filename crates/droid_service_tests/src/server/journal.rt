//! A journal over a file in memory, with the examples of the pages README.md of droid_journal and droid_compaction.
//! Tests of the built program with a journal are in tests/program/journal.

ghost use Rattle.std.specs.Prelude.{[], ◌≡◌, true};

use droid_compaction::{RewriteFault, is_mostly_ended, rewrite};
use droid_frame::{Frame, Refusal, Reply};
use droid_journal::{Fault, FileError, Handled, Journal, LogFile, Machine, open};
use droid_testing::frame;
use std::alloc::{AllocError, Global};
use std::test::Fail;

/// The header of these journals.
const HEADER: &[u8; 10] = b"0123456789";

/// Accepts the first requests.
#[derive(Drop)]
struct Counter {
    /// How many more it accepts.
    more: u64,
}

impl Counter {
    fn new(more: u64) -> Counter {
        Counter { more }
    }
}

impl Machine for Counter {
    ghost Setting = { Unit {0} };

    ghost stands = { λ setting machine records. ⊥ };

    ghost gives = { λ setting records frame reply accepted. ⊥ };

    fn handle(&mut self, frame: Frame, _mark: [u8; 16]) -> Handled {
        let _ = frame;
        if self.more == 0 {
            return Handled {
                reply: Reply::Refused(Refusal::Malformed),
                accepted: false,
            };
        }
        self.more -= 1;
        Handled {
            reply: Reply::Abandoned,
            accepted: true,
        }
    }
}

/// A file in memory. So many more calls succeed; then each fails.
#[derive(Drop)]
struct MemoryLog {
    bytes: Vec<u8>,
    synced: usize,
    calls: usize,
    failed: bool,
}

impl MemoryLog {
    fn new(bytes: Vec<u8>, calls: usize) -> MemoryLog {
        MemoryLog {
            bytes,
            synced: 0,
            calls,
            failed: false,
        }
    }

    fn next_succeeds(&mut self) -> bool
        ensures { self.new.failed ≡ self.old.failed }
    {
        if self.calls == 0 {
            return false;
        }
        self.calls -= 1;
        true
    }
}

impl LogFile for MemoryLog {
    ghost has = { λ file bytes. ⊥ };

    ghost kept = { λ file. [] };

    ghost is_found = { λ file. Unit {0} };

    ghost failed = { λ file. file.failed ≡ true };

    ghost kept_is_there = { λ file bytes none. absurd none };

    fn read_at(&self, at: u64, buffer: &mut [u8]) -> Result<usize, FileError> {
        let start = self.bytes.len().min(at as usize);
        let count = (self.bytes.len() - start).min(buffer.len());
        buffer[..count].copy_from_slice(&self.bytes[start..start + count]);
        Ok(count)
    }

    fn cut(&mut self, _len: u64) -> Result<(), FileError> {
        Err(FileError)
    }

    fn append(&mut self, bytes: &[u8]) -> Result<(), FileError> {
        if !self.next_succeeds() {
            return Err(FileError);
        }
        match self.bytes.extend_from_slice(bytes) {
            Ok(()) => Ok(()),
            Err(_) => Err(FileError),
        }
    }

    fn sync(&mut self) -> Result<(), FileError> {
        if self.failed || !self.next_succeeds() {
            self.failed = true;
            return Err(FileError);
        }
        self.synced = self.bytes.len();
        Ok(())
    }
}

/// An Abandon of file 0. Its record has 69 bytes: 25, a request of 26 and a reply of 18; the first of a turn has a mark
/// of 16 more.
fn abandon(alloc: Global, number: u64) -> Result<Frame, AllocError> {
    frame(alloc, 2, 6, number, &[0; 8])
}

/// The bytes of a journal of a piece of file 0, whose record has 77 bytes and this body, and of the file's end.
fn written(alloc: Global, body: &[u8]) -> Result<Vec<u8>, Fail> {
    let mut file = MemoryLog::new(Vec::new(alloc), 99);
    let Ok(opened) = open(alloc, &mut file, HEADER, Counter::new(99)) else {
        return Err("an empty file was not opened".into());
    };
    let mut journal = Journal::new(alloc, file, opened);
    let _reply = journal.handle(frame(alloc, 2, 4, 2, body)?);
    let _reply = journal.handle(abandon(alloc, 1)?);
    if journal.settle().is_err() {
        return Err("a turn was not settled".into());
    }
    Ok(journal.file.bytes)
}

#[test]
fn example_of_journals(rt: HostRuntime) -> Result<(), Fail> {
    let alloc = rt.alloc();
    // a file in memory, and a machine that accepts each request
    let mut file = MemoryLog::new(Vec::new(alloc), 99);
    let Ok(opened) = open(alloc, &mut file, HEADER, Counter::new(99)) else {
        return Err("an empty file was not opened".into());
    };
    let mut journal = Journal::new(alloc, file, opened);
    let reply = journal.handle(abandon(alloc, 1)?);
    // the reply may be sent after this
    let settled = journal.settle().is_ok();
    assert!(rt; settled && matches!(reply, Reply::Abandoned));
    assert!(rt; journal.file.synced == journal.file.bytes.len());
    Ok(())
}

#[test]
fn example_of_compaction(rt: HostRuntime) -> Result<(), Fail> {
    let alloc = rt.alloc();
    // a journal of a piece of 988 bytes, and of the Abandon of its file
    let old = MemoryLog::new(written(alloc, &[0; 1_000])?, 0);
    let new = MemoryLog::new(Vec::new(alloc), 99);
    let Ok(smaller) = rewrite(alloc, &old, HEADER, HEADER, new) else {
        return Err("no smaller journal was written".into());
    };
    assert!(rt; smaller.before.records == 2 && smaller.after.records == 2);
    assert!(rt; smaller.before.bytes > 1_000 && smaller.after.bytes < 300);
    Ok(())
}

#[test]
fn no_sync_no_reply(rt: HostRuntime) -> Result<(), Fail> {
    let alloc = rt.alloc();
    // Making the header takes two calls, an accepted request one.
    let mut file = MemoryLog::new(Vec::new(alloc), 3);
    let Ok(opened) = open(alloc, &mut file, HEADER, Counter::new(99)) else {
        return Err("an empty file was not opened".into());
    };
    let mut journal = Journal::new(alloc, file, opened);
    let _reply = journal.handle(abandon(alloc, 1)?);
    let first = matches!(journal.settle(), Err(Fault::Write));
    let second = matches!(journal.settle(), Err(Fault::Write));
    assert!(rt; first && second && journal.file.synced == 10);
    Ok(())
}

/// What a journal of these bytes gives: how many records it has and whether more than half of its bytes are of pieces
/// of files that have ended; or, by both calls, how many records stand before other bytes. `None`: it has another
/// header.
fn found(alloc: Global, bytes: Vec<u8>, header: &[u8]) -> Option<Result<(u64, bool), u64>> {
    let old = MemoryLog::new(bytes, 0);
    let new = MemoryLog::new(Vec::new(alloc), 99);
    let ended = is_mostly_ended(alloc, &old, header);
    match (rewrite(alloc, &old, header, HEADER, new), ended) {
        (Ok(smaller), Ok(mostly)) => Some(Ok((smaller.before.records, mostly))),
        (Err(RewriteFault::Behind(count)), Err(RewriteFault::Behind(same))) if count == same => {
            Some(Err(count))
        }
        (Err(RewriteFault::Header), Err(RewriteFault::Header)) => None,
        _ => Some(Err(u64::MAX)),
    }
}

/// How many bytes of a journal are there, and what it gives. Its records end at 121 and 190 with a piece of 22 bytes,
/// whose record has 111, 16 of them a mark. The other 95 are not more than half of the 190.
const FRONTS: [(usize, Option<Result<(u64, bool), u64>>); 9] = [
    (0, None),
    (9, None),
    (10, Some(Ok((0, false)))),
    (11, Some(Err(0))),
    (120, Some(Err(0))),
    (121, Some(Ok((1, false)))),
    (122, Some(Err(1))),
    (189, Some(Err(1))),
    (190, Some(Ok((2, false)))),
];

#[test]
fn fronts_and_damage(rt: HostRuntime) -> Result<(), Fail> {
    let alloc = rt.alloc();
    let mut whole = written(alloc, &[0; 34])?;
    for (len, wanted) in FRONTS {
        let front = &whole[..len.min(whole.len())];
        assert!(rt;
            found(alloc, front.to_vec(alloc)?, HEADER) == wanted,
            "{len}"
        );
    }
    let more = found(alloc, written(alloc, &[0; 35])?, HEADER);
    assert!(rt; more == Some(Ok((2, true))));
    let other = found(alloc, whole.to_vec(alloc)?, b"0123456780");
    assert!(rt; other.is_none());
    // A bit of the second record.
    if let Some(byte) = whole.get_mut(150) {
        *byte ^= 16;
    }
    assert!(rt; found(alloc, whole, HEADER) == Some(Err(1)));
    Ok(())
}
