//! Tests of many connections in turns, over connections in memory.

mod hall;
mod memory;
mod orders;
mod page;
