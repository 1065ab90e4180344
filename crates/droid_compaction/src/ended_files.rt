//! Which files have ended: were finished or abandoned. A file is its profile and its own number, as one number; a stamp
//! is a request's client and number, as one number.

ghost use Rattle.std.specs.Prelude.{◌≡◌, ◌++◌, ◌∷◌, Bool, ℕ, [], IfErr, IfOk, List, OnOk, length};
ghost use Rattle.droid_journal.specs.Records.{Record, made};
ghost use Rattle.droid_compaction.specs.Faults.{IsOfReading, IsOfTaking};
ghost use Rattle.droid_compaction.specs.Noting.{AreNoted};
ghost use Rattle.droid_compaction.specs.Numbers.{has_number};
ghost use Rattle.droid_compaction.specs.Shortening.{IsWhole, has_ended, once};
ghost use Rattle.droid_compaction.specs.Skimming.{IsFrontOf};

use crate::fields::is_end;
use crate::numbers::Numbers;
use crate::rewrite_fault::RewriteFault;
use crate::skim::{Front, skim};
use droid_journal::{LogFile, key_of};
use std::alloc::Global;

/// The files that ended so far.
#[derive(Drop)]
pub(crate) struct Ended {
    /// Their profiles and numbers.
    pub(crate) files: Numbers,
    /// The clients and numbers of the requests so far.
    pub(crate) stamps: Numbers,
}

impl Ended {
    /// Notes the next record, by the fields at its front and the length of its reply's frame (`reply`). A request that
    /// came again ends no file. Fails only if memory runs out, and then nothing is promised of what was noted.
    pub(crate) fn note(&mut self, front: Front, reply: u32) -> Result<(), RewriteFault>
        ensures noted { (before : List Record) (first : Bool) (ahead : ℕ) (request answer : List ℕ)
            → AreNoted self.old.files self.old.stamps before → IsFrontOf ahead request front → reply ≡ length answer
            → OnOk result (AreNoted self.new.files self.new.stamps (before ++ made first request answer ∷ [])) }
        ensures fault { IfErr result IsOfTaking }
    {
        let stamp = front.stamp;
        let again = self.stamps.has(stamp);
        if again {
            return Ok(());
        }
        match self.stamps.add(stamp) {
            Ok(()) => {}
            Err(_) => return Err(RewriteFault::Memory),
        }
        if !is_end(front.kind, front.request, reply) {
            return Ok(());
        }
        let file = front.file;
        match self.files.add(file) {
            Ok(()) => Ok(()),
            Err(_) => Err(RewriteFault::Memory),
        }
    }
}

/// Returns the files that have ended in a journal with this header. A request that came again ends none. Of the header
/// only the form and the length are used: that the file has it is checked as it is read again (`take_whole`), and for a
/// file that is no such journal the result means nothing. Fails with Read or Memory.
pub(crate) fn ended_in<F: LogFile>(
    alloc: Global,
    file: &F,
    header: &[u8],
) -> Result<Numbers, RewriteFault>
    requires found { F.is_found file.now }
    ensures ended { (s : List ℕ) (its : List Record) → F.has file.now s → IsWhole header.now s its
        → IfOk result (λ files. (it : ℕ) → has_number files it ≡ has_ended (once [] its) it) }
    ensures fault { IfErr result IsOfReading }
{
    let mut ended = Ended {
        files: Numbers::new(alloc),
        stamps: Numbers::new(alloc),
    };
    match skim(file, key_of(header).form, &mut ended, header.len() as u64) {
        Ok(()) => Ok(ended.files),
        Err(fault) => Err(fault),
    }
}
