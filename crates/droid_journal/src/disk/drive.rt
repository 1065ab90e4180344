//! The file system calls that the file of a journal needs.

ghost use Rattle.std.specs.Prelude.{◌≡◌, ◌≤◌, ◌++◌, ◌⊎◌, ℕ, List, [], length, take, drop, IfOk, IsErr, OnErr, OnOk};
ghost use Rattle.droid_journal.specs.Fronts.{IsFront};

/// A call failed.
#[derive(Clone, Copy)]
pub struct DriveError;

/// A file that is read and cut at first, and then appended to, and another that keeps what is cut off.
pub trait Drive {
    ghost use Rattle.droid_journal.specs.Saved.{EndsWith};

    /// The file has these bytes.
    ghost has: { Self → List ℕ → Type 0 };

    /// The bytes of the file that are on the disk for sure.
    ghost kept: { Self → List ℕ };

    /// Nothing was appended yet.
    ghost is_found: { Self → Type 0 };

    /// A sync failed. The system may then hold bytes as written that the disk lacks.
    ghost failed: { Self → Type 0 };

    /// The bytes of the other file that are on the disk for sure.
    ghost saved: { Self → List ℕ };

    /// Reads once from a place on into the buffer, and returns how many bytes were read: 0 only if the file ends there
    /// or the buffer is empty.
    fn read_some(&self, at: u64, buffer: &mut [u8]) -> Result<usize, DriveError>
        ensures bound { IfOk result (λ count. count ≤ length buffer.new) }
        ensures read { (s : List ℕ) → has self.now s
            → IfOk result (λ count. take count buffer.new ≡ take count (drop at s)) }
        ensures within { (s : List ℕ) → has self.now s → IfOk result (λ count. count ≤ length (drop at s)) }
        ensures end { (s : List ℕ) → has self.now s
            → IfOk result (λ count. count ≡ 0 → (buffer.old ≡ []) ⊎ (drop at s ≡ [])) };

    /// Truncates the file to a length. What is cut off was saved before. Bytes that are on the disk for sure stay.
    fn shorten(&mut self, len: u64) -> Result<(), DriveError>
        requires first { is_found self.old }
        requires within { (s : List ℕ) → has self.old s → (length (kept self.old) ≤ len) × (len ≤ length s) }
        requires saved { (s : List ℕ) → has self.old s → EndsWith (saved self.old) (drop len s) }
        ensures cut { (s : List ℕ) → has self.old s → OnOk result (has self.new (take len s)) }
        ensures kept { kept self.new ≡ kept self.old }
        ensures stays { failed self.old → failed self.new };

    /// Appends to the other file, and syncs it.
    fn save(&mut self, bytes: &[u8]) -> Result<(), DriveError>
        ensures saved { (s : List ℕ) → has self.old s → OnOk result (saved self.new ≡ saved self.old ++ bytes.now) }
        ensures same { (s : List ℕ) → has self.old s → has self.new s }
        ensures no_other { (s : List ℕ) → has self.new s → has self.old s }
        ensures kept { kept self.new ≡ kept self.old }
        ensures found { is_found self.old → is_found self.new }
        ensures stays { failed self.old → failed self.new };

    /// Appends the first of these bytes to the file, and returns how many.
    fn write_some(&mut self, bytes: &[u8]) -> Result<usize, DriveError>
        ensures bound { IfOk result (λ count. count ≤ length bytes.now) }
        ensures written { (s : List ℕ) → has self.old s
            → IfOk result (λ count. has self.new (s ++ take count bytes.now)) }
        ensures unwritten { (s : List ℕ) → has self.old s → OnErr result (has self.new s) }
        ensures kept { kept self.new ≡ kept self.old }
        ensures stays { failed self.old → failed self.new };

    /// Syncs the file. Once this failed, it fails each time.
    fn sync(&mut self) -> Result<(), DriveError>
        ensures synced { (s : List ℕ) → has self.old s → OnOk result (kept self.new ≡ s) }
        ensures same { (s : List ℕ) → has self.old s → has self.new s }
        ensures kept { OnErr result (kept self.new ≡ kept self.old) }
        ensures grows { IsFront (kept self.old) (kept self.new) }
        ensures fails { failed self.old → IsErr result }
        ensures failed { OnErr result (failed self.new) };

    /// What is kept is at the front of what the file has.
    ghost kept_is_there: { (drive : Self) (s : List ℕ) → has drive s → IsFront (kept drive) s };
}
