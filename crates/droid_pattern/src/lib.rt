//! The patterns of PRONOM's byte sequences: reads their text and finds the bytes that they match.
//!
//! The places that a match has reached so far are a bit set, which moves over one element of the pattern at a time.
//! A place is the number of bytes passed so far, in the direction of the match; a position counts from the start.
#![tactic(auto)]

mod alternatives;
mod bit_sets;
mod cell;
mod class;
mod class_cache;
mod class_set;
mod compact_form;
mod direct_match;
mod direction;
mod first_bytes;
mod parser;
mod pattern;
mod pattern_fault;
mod pool;
mod short;
mod step;
mod token;

pub use class_cache::ClassCache;
pub use first_bytes::FirstBytes;
pub use parser::{byte_of, number_of, split_at_mark};
pub use pattern::Pattern;
pub use pattern_fault::PatternFault;
