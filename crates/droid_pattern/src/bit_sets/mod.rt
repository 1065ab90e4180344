//! Sets of whole numbers as bit sets of 64-bit words, and how they move over the elements of a pattern.

pub mod bit_set;
pub mod combination;
pub mod ends;
pub mod gap;
pub mod masked_step;
pub mod run;
pub mod shift;
pub mod word_count;
