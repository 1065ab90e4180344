//! A place between two records of a journal, and the next one.

ghost use Rattle.std.specs.Prelude.{◌≡◌, ◌≤◌, ◌+◌, ◌⊎◌, IfNone, IfSome};

/// A place between two records of a journal.
#[derive(Clone, Copy)]
pub struct Place {
    /// Where the next record begins, in bytes.
    pub at: u64,
    /// The check value of the record before it.
    pub check: [u8; 16],
    /// How many records stand before it.
    pub records: u64,
}

impl Place {
    /// Returns the place behind a record of this size with this check value. `None`: no file is so long.
    pub fn behind(&self, size: usize, check: [u8; 16]) -> Option<Place>
        ensures some { IfSome result (λ x.
            (x.at ≡ self.now.at + size) × (x.check ≡ check) × (x.records ≡ self.now.records + 1)) }
        ensures none { IfNone result
            ((18446744073709551616 ≤ self.now.at + size) ⊎ (18446744073709551616 ≤ self.now.records + 1)) }
    {
        let Some(at) = self.at.checked_add(size as u64) else {
            return None;
        };
        let Some(records) = self.records.checked_add(1) else {
            return None;
        };
        Some(Place { at, check, records })
    }
}
