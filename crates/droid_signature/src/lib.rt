//! Makes a registry file of PRONOM's own signature file.
//!
//! [`convert`] makes the CSV of a registry, as `Registry::parse` reads it, and a list of what the registry cannot hold,
//! each with its reason.
//!
//! Where an inner function returns `AllocError`, nothing is promised of what it was filling: `convert` and
//! [`all_left_out`] drop it. The limits on formats, extensions, priorities, signatures and bytes are those of
//! `droid_pronom`'s reader: the law `tables_are_read_back` keeps them from being larger. No clause keeps them from
//! being smaller than the reader's: for the first four `registry_limits.py` of `tests/program/signatures` does
//! (`test_full`). docs/REGISTRY.md has all.
//!
//! Where several reasons leave something out, the first is listed that the code finds. The clauses hold that it is
//! true, not that it is the first.
#![tactic(auto)]

mod combination;
mod conversion;
mod extensions;
mod formats;
mod ids;
pub mod laws;
mod left_out;
mod nameless_signatures;
mod omissions;
mod outcomes;
mod places;
mod priorities;
mod row_text;
mod signature_list;
mod signature_table;
mod table;
mod tables;

pub use conversion::{ConversionFault, Converted, Taken, convert};
pub use left_out::{Item, LeftOut, Why};
pub use nameless_signatures::unnamed_signatures;
pub use omissions::all_left_out;
pub use outcomes::Outcome;
