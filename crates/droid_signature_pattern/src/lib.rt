//! Makes patterns of a registry of the byte sequences of a DROID signature file, or finds why a registry cannot hold
//! them.
//!
//! The terms of a text are read first. What a registry's pattern lacks is written out: a text may become several
//! patterns, any of which has to match.
//!
//! Each call that returns an `AllocError`, a [`Stop`] or a `TextFault` may also fail because memory ran out, of which a
//! comment may be silent. After an error nothing is promised of what it was to grow: each caller drops it.
//!
//! The numbers of the limits stand once more in the definitions, which the prover ties, and in words that no proof
//! ties: at the variants of [`Reason`], in `reasons.rt` of `droid_cmd_registry` and in docs/REGISTRY.md.
//! `tests/program/signatures/registry_limits.py` goes up to most of the limits, and has the words of `reasons.rt`.
#![tactic(auto)]

mod choices;
mod element_texts;
mod growth;
mod item_parser;
pub mod laws;
mod offsets;
mod parser;
mod part_texts;
mod pattern_text;
mod pattern_texts;
mod positions;
mod range_texts;
mod read_parts;
mod reason;
mod sequence_reader;
mod term;
mod term_texts;
mod text_fault;

pub use choices::{Choices, choices_of};
pub use reason::{Reason, Stop};
