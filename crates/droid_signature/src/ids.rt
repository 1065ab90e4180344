//! Which signature of the file, or which format of the registry, has an ID.

ghost use Rattle.std.specs.Prelude.{◌≡◌, ℕ, List, ◌++◌, ◌∷◌, [], length, OnOk};
ghost use Rattle.droid_signature.specs.Holders.{holder, one_more};

use std::alloc::{AllocError, Global};
use std::collections::BTreeMap;

/// What has an ID, by its place.
#[derive(Clone, Copy)]
pub enum Holder {
    Nobody,
    Only(usize),
    Several,
}

/// For each ID what has it.
#[derive(Drop)]
pub struct Ids {
    holders: BTreeMap<u32, Holder>,
}

impl Ids {
    ghost use Rattle.droid_signature.specs.Holdings.{AreOf};

    /// Begins with no ID. Allocates nothing.
    pub fn new(alloc: Global) -> Ids
        ensures { AreOf result [] }
    {
        Ids {
            holders: BTreeMap::new(alloc),
        }
    }

    /// Notes that what stands at a place has this ID. Calls come in the order of places, from 0 on.
    pub fn note(&mut self, id: u32, place: usize) -> Result<(), AllocError>
        ensures { OnOk result ((ids : List ℕ) → AreOf self.old ids → place ≡ length ids
            → AreOf self.new (ids ++ id ∷ [])) }
    {
        let holder = one_more(self.holder(id), place);
        self.holders.insert(id, holder)?;
        Ok(())
    }

    /// Returns whether nothing, only one or several of those noted have this ID, and the place of the only one.
    pub fn holder(&self, id: u32) -> Holder
        ensures { (ids : List ℕ) → AreOf self.now ids → result ≡ holder id ids }
    {
        match self.holders.get(&id) {
            Some(holder) => *holder,
            None => Holder::Nobody,
        }
    }
}

/// Returns what has an ID, if `holder` had it before and what stands at a place has it too.
fn one_more(holder: Holder, place: usize) -> Holder
    ensures { result ≡ one_more holder place }
{
    match holder {
        Holder::Nobody => Holder::Only(place),
        Holder::Only(_) | Holder::Several => Holder::Several,
    }
}
