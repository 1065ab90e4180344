//! Filters of an export: which records it has.

ghost use Rattle.std.specs.Prelude.{◌≡◌, IfOk};

use crate::criteria::Criteria;
use std::alloc::{AllocError, Global};

/// Selects records of an export. A filter without criteria selects every record, whatever `all` is.
#[derive(Drop)]
pub struct Filter {
    /// If true, a record must meet every criterion; if false, at least one.
    pub all: bool,
    /// The criteria.
    pub criteria: Criteria,
}

impl Filter {
    /// Copies the value, with each criterion. Fails only when out of memory.
    pub fn try_clone(&self, alloc: Global) -> Result<Filter, AllocError>
        ensures { IfOk result (λ filter. filter ≡ self.now) }
    {
        Ok(Filter {
            all: self.all,
            criteria: self.criteria.try_clone(alloc)?,
        })
    }
}
