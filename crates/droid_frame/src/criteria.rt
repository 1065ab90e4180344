//! The list of a filter's criteria.

ghost use Rattle.std.specs.Prelude.{◌≡◌, ◌↔◌, ◌++◌, ◌∷◌, [], IsTrue, IfOk, OnOk, OnErr, length};
ghost use Rattle.std.specs.Option.{option_copied};
ghost use Rattle.std.specs.List.{slice_get};

use crate::criterion::Criterion;
use std::alloc::{AllocError, Global};
use std::marker::Model;

/// The criteria of a filter, in order. In contracts it is the list of them.
pub struct Criteria {
    items: Vec<Criterion>,
}

// Frees its one field, as a derived `Drop` would. Written by hand, so that the crates above do not prove again how each
// part is dropped. No clause says more.
impl Drop for Criteria {
    fn drop(self) {
        let Criteria { items: _items } = self;
    }
}

impl Model for Criteria {
    ghost use Rattle.std.specs.Prelude.{List};
    ghost use Rattle.droid_frame.specs.declared.criterion.Criterion.{Criterion};

    ghost Value = { List Criterion };

    ghost view = { λ criteria. criteria.items.items };
}

impl Criteria {
    /// Makes an empty list. Allocates nothing.
    pub fn new(alloc: Global) -> Criteria
        ensures { result ≡ [] }
    {
        Criteria {
            items: Vec::new(alloc),
        }
    }

    /// Appends a criterion. When out of memory it fails, and the list is unchanged.
    pub fn push(&mut self, criterion: Criterion) -> Result<(), AllocError>
        ensures ok { OnOk result (self.new ≡ self.old ++ criterion ∷ []) }
        ensures err { OnErr result (self.new ≡ self.old) }
    {
        self.items.push(criterion)?;
        Ok(())
    }

    /// Returns the criterion at this index, counted from 0, or `None` past the end.
    pub fn get(&self, place: usize) -> Option<&Criterion>
        ensures { option_copied result ≡ slice_get self.now place }
    {
        self.items.get(place)
    }

    /// Returns the criteria as a slice.
    pub fn as_slice(&self) -> &[Criterion]
        ensures { result.now ≡ self.now }
    {
        self.items.as_slice()
    }

    /// Returns the number of criteria.
    pub fn len(&self) -> usize
        ensures { result ≡ length self.now }
    {
        self.items.len()
    }

    /// Returns whether the list is empty.
    pub fn is_empty(&self) -> bool
        ensures { IsTrue result ↔ (self.now ≡ []) }
    {
        self.items.is_empty()
    }

    /// Copies the list and each criterion. Fails only when out of memory.
    pub fn try_clone(&self, alloc: Global) -> Result<Criteria, AllocError>
        ensures { IfOk result (λ criteria. criteria ≡ self.now) }
    {
        let mut items = Vec::with_capacity(alloc, self.items.len())?;
        for criterion in &self.items {
            items.push(criterion.try_clone(alloc)?)?;
        }
        Ok(Criteria { items })
    }
}
