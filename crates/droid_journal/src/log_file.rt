//! A file as the journal sees it.

ghost use Rattle.std.specs.Prelude.{◌≡◌, ◌≤◌, ◌++◌, ℕ, List, length, take, drop, IfOk, IsErr, OnOk, OnErr};
ghost use Rattle.droid_journal.specs.Fronts.{IsFront};

/// A call on the file failed.
#[derive(Clone, Copy)]
pub struct FileError;

/// A file that is read and cut at first, and then appended to. A crash at any moment leaves bytes that begin with those
/// that are kept, and then any bytes at all. What is kept never gets shorter.
pub trait LogFile {
    /// The file has these bytes: what was found in it, but for what was cut off, and what was appended. If that is not
    /// known of a file, only what is kept is.
    ghost has: { Self → List ℕ → Type 0 };

    /// The bytes that are on the disk for sure.
    ghost kept: { Self → List ℕ };

    /// Nothing was appended yet.
    ghost is_found: { Self → Type 0 };

    /// A sync failed. The system may then hold bytes as written that the disk lacks, so no later sync of this file
    /// succeeds.
    ghost failed: { Self → Type 0 };

    /// Reads from a place on, until the buffer is full or the file ends, and returns how many bytes were read.
    fn read_at(&self, at: u64, buffer: &mut [u8]) -> Result<usize, FileError>
        requires { is_found self.now }
        ensures bound { IfOk result (λ count. count ≤ length buffer.new) }
        ensures read { (s : List ℕ) → has self.now s
            → IfOk result (λ count. take count buffer.new ≡ take (length buffer.old) (drop at s)) };

    /// Truncates the file to a length. Bytes that are on the disk for sure are never cut off.
    fn cut(&mut self, len: u64) -> Result<(), FileError>
        requires first { is_found self.old }
        requires within { (s : List ℕ) → has self.old s → (length (kept self.old) ≤ len) × (len ≤ length s) }
        ensures cut { (s : List ℕ) → has self.old s → OnOk result (has self.new (take len s)) }
        ensures kept { kept self.new ≡ kept self.old }
        ensures stays { failed self.old → failed self.new };

    /// Appends bytes. After an error the first of them may have been written.
    fn append(&mut self, bytes: &[u8]) -> Result<(), FileError>
        ensures appended { (s : List ℕ) → has self.old s → OnOk result (has self.new (s ++ bytes.now)) }
        ensures part { (s : List ℕ) → has self.old s
            → OnErr result ((part : List ℕ) × has self.new (s ++ part) × IsFront part bytes.now) }
        ensures kept { kept self.new ≡ kept self.old }
        ensures stays { failed self.old → failed self.new };

    /// Syncs the file. Once this failed, it fails each time.
    fn sync(&mut self) -> Result<(), FileError>
        ensures synced { (s : List ℕ) → has self.old s → OnOk result (kept self.new ≡ s) }
        ensures same { (s : List ℕ) → has self.old s → has self.new s }
        ensures kept { OnErr result (kept self.new ≡ kept self.old) }
        ensures grows { IsFront (kept self.old) (kept self.new) }
        ensures fails { failed self.old → IsErr result }
        ensures failed { OnErr result (failed self.new) };

    /// What is kept is at the front of what the file has.
    ghost kept_is_there: { (file : Self) (s : List ℕ) → has file s → IsFront (kept file) s };
}
