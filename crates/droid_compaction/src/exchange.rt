//! Giving a file's name to another file.

ghost use Rattle.std.specs.Prelude.{◌≡◌, ◌⊎◌, ℕ, List, OnOk};

use droid_journal::{FileError, LogFile};

/// A name in a folder, and the file that it leads to.
pub trait Exchange<F: LogFile> {
    /// The name leads to a file with these bytes on the disk for sure. Until the folder is synced, a crash may undo
    /// that.
    ghost leads: { Self → List ℕ → Type 0 };

    /// After a crash now, the name may lead to a file with these bytes on the disk for sure, and any bytes behind them.
    ghost may_lead: { Self → List ℕ → Type 0 };

    /// Gives the name to a new file. A crash at any moment of the call leaves what stood before it or what stands after
    /// it. Nothing is known of a file that is not on the disk.
    fn rename(&mut self, new: &F) -> Result<(), FileError>
        ensures renamed { (s bytes : List ℕ) → F.has new.now s → F.kept new.now ≡ s
            → OnOk result (leads self.new bytes → bytes ≡ s) }
        ensures either { (s bytes : List ℕ) → F.has new.now s → F.kept new.now ≡ s → may_lead self.new bytes
            → may_lead self.old bytes ⊎ (bytes ≡ s) };

    /// Syncs the folder: after that the name leads to the same file, a crash or not. A crash at any moment of the call
    /// leaves what stood before it or what stands after it.
    fn sync_folder(&mut self) -> Result<(), FileError>
        ensures synced { (bytes : List ℕ) → OnOk result (may_lead self.new bytes → leads self.old bytes) }
        ensures either { (bytes : List ℕ) → may_lead self.new bytes → may_lead self.old bytes };
}

/// Syncs a new file, gives it the name of the old one, and syncs the folder.
///
/// A crash at any moment leaves the old file under the name, or the new one with all its bytes; also where this fails.
/// The first step that fails is the last one: before the sync of the new file no name may lead to it.
pub fn replace<F: LogFile, X: Exchange<F>>(new: &mut F, exchange: &mut X) -> Result<(), FileError>
    ensures replaced { (s bytes : List ℕ) → F.has new.old s → OnOk result (X.may_lead exchange.new bytes → bytes ≡ s) }
    ensures at_any_moment { (s bytes : List ℕ) → F.has new.old s → X.may_lead exchange.new bytes
        → X.may_lead exchange.old bytes ⊎ (bytes ≡ s) }
    ensures has { (s : List ℕ) → F.has new.old s → F.has new.new s }
    ensures on_disk { (s : List ℕ) → F.has new.old s → OnOk result (F.kept new.new ≡ s) }
{
    match new.sync() {
        Ok(()) => {}
        Err(_) => return Err(FileError),
    }
    match exchange.rename(new) {
        Ok(()) => {}
        Err(_) => return Err(FileError),
    }
    match exchange.sync_folder() {
        Ok(()) => Ok(()),
        Err(_) => Err(FileError),
    }
}
