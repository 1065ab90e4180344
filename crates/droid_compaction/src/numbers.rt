//! A set of numbers that were seen: of files, or of requests (stamps).

ghost use Rattle.std.specs.Prelude.{◌≡◌, ◌==◌, ◌||◌, ℕ, false, OnOk};
ghost use Rattle.droid_compaction.specs.Numbers.{has_number};

use std::alloc::{AllocError, Global};
use std::collections::BTreeSet;

/// Numbers that were seen.
#[derive(Drop)]
pub(crate) struct Numbers {
    set: BTreeSet<u128>,
}

impl Numbers {
    /// Starts with none. Allocates nothing.
    pub(crate) fn new(alloc: Global) -> Numbers
        ensures { (n : ℕ) → has_number result n ≡ false }
    {
        Numbers {
            set: BTreeSet::new(alloc),
        }
    }

    /// Returns whether this number was seen.
    pub(crate) fn has(&self, number: u128) -> bool
        ensures { result ≡ has_number self.now number }
    {
        self.set.contains(&number)
    }

    /// Notes a number; nothing changes if it was seen. Fails only if memory runs out, and then nothing is promised of
    /// what was noted: both callers end with it.
    #[tactic(auto, using(crate::proofs::SameNumbers::same_number))]
    pub(crate) fn add(&mut self, number: u128) -> Result<(), AllocError>
        ensures { OnOk result ((n : ℕ) → has_number self.new n ≡ ((number == n) || has_number self.old n)) }
    {
        self.set.insert(number)?;
        Ok(())
    }
}
