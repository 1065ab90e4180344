//! The store, and the trees of rows in it. Commands and what the store shows are rows of tables. What runs out of
//! memory or isn't as it should be is false.

mod commands;
mod entries;
mod last_values;
mod memory;
mod page;
mod queries;
mod rows;
mod words;
