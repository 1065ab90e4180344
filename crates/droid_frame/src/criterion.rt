//! One condition of a filter.

ghost use Rattle.std.specs.Prelude.{◌≡◌, IfOk};

use crate::method::Method;
use crate::node_kind::NodeKind;
use crate::texts::Texts;
use std::alloc::{AllocError, Global};

/// One condition of a filter on the records of an export.
#[derive(Drop)]
pub enum Criterion {
    /// The record was identified by this method.
    MethodIs(Method),
    /// The record has a format with one of these identifiers (PUIDs).
    PuidIn(Texts),
    /// The record's extension is one of these.
    ExtIn(Texts),
    /// The record's mismatch flag has this value. The flag is true if none of its formats lists its extension.
    MismatchIs(bool),
    /// The record is a file of at least this many bytes.
    SizeAtLeast(u64),
    /// The record is a file of at most this many bytes.
    SizeAtMost(u64),
    /// The record is of this kind: a file or a folder.
    KindIs(NodeKind),
}

impl Criterion {
    /// Copies the value, with its list of texts if it has one. Fails only when out of memory.
    pub fn try_clone(&self, alloc: Global) -> Result<Criterion, AllocError>
        ensures { IfOk result (λ criterion. criterion ≡ self.now) }
    {
        let criterion = match self {
            Criterion::MethodIs(method) => Criterion::MethodIs(*method),
            Criterion::PuidIn(texts) => Criterion::PuidIn(texts.try_clone(alloc)?),
            Criterion::ExtIn(texts) => Criterion::ExtIn(texts.try_clone(alloc)?),
            Criterion::MismatchIs(mismatch) => Criterion::MismatchIs(*mismatch),
            Criterion::SizeAtLeast(size) => Criterion::SizeAtLeast(*size),
            Criterion::SizeAtMost(size) => Criterion::SizeAtMost(*size),
            Criterion::KindIs(kind) => Criterion::KindIs(*kind),
        };
        Ok(criterion)
    }
}
