//! The client's end.

mod allocations;
mod page;
mod rows;
