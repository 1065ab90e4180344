//! What one file is, and why: its formats with the matches that show each of them, or the kind of text that it is.
//!
//! The formats are those of `Registry::identify`, which also fills a profile's rows. [`identify_file`] adds the basis
//! of each format: the signature that hits, and where its byte sequences match. [`doubt_of`] says why a file does not
//! have a format.
#![tactic(auto)]

mod ascii;
mod bases;
mod doubts;
mod found_match;
mod hit_signature;
mod identity;
mod kind;
pub mod laws;
mod nearest;
mod parts;
mod reach;
mod rivals;
mod search;
mod trials;
mod units;
mod utf8;

pub use doubts::{Doubt, doubt_of};
pub use found_match::Match;
pub use hit_signature::{SignatureBasis, signature_basis};
pub use identity::{Identity, identify_file};
pub use kind::{TextKind, text_kind};
pub use nearest::{nearest_match, window_of};
pub use rivals::beaters;
pub use trials::{Trial, tried_signatures};
