//! The profiles, nodes and replies of a service in a database in memory, with one transaction for each accepted
//! command.
//!
//! For callers and contracts a [`Store`] is its rows: profiles, nodes and replies in order of acceptance. That SQL
//! tables hold them is internal to this crate.
//!
//! Contracts inside of this crate speak of a connection in the words of the kit's `sqlite`: `state over_trees conn` is
//! what its database has now, what it has committed, and whether a transaction is open; `conn.step_limit` is how many
//! steps a statement may take, `None` for no limit; `tx.conn.ghost_name` tells which connection a transaction writes
//! to.
#![tactic(auto)]

mod change;
mod counters;
mod fault;
mod hashes;
mod identifiers;
mod look_up;
mod record_list;
mod row_change;
mod row_reader;
mod rows;
mod schema;
mod statements;
mod store;
mod transaction;

pub use fault::StoreFault;
pub use rows::{Counts, Entry, NodeRow, NodeState, ProfileRow};
pub use store::Store;
