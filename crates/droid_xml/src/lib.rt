//! Reads XML 1.0 in UTF-8, piece by piece, without document type declarations and external entities.
//!
//! [`Reader`] gives the pieces of a document one after the other; [`read`] gives all of them at once.
//! Line ends are made line feeds beforehand, by [`with_line_feeds`].
//!
//! An inner function `.._at` reads from the front of bytes, and returns what it found and the bytes behind it. Where it
//! returns `None`, what it reads does not stand there: its caller makes of that
//! [`NotWellFormed`](Problem::NotWellFormed), or tries something else.
#![tactic(auto)]

mod attributes;
mod bytes;
mod characters;
mod declarations;
pub mod laws;
mod line_ends;
mod names;
mod open_elements;
mod pieces;
mod problem;
mod reader;
mod references;
mod tags;
mod values;

pub use attributes::Attribute;
pub use line_ends::with_line_feeds;
pub use pieces::Piece;
pub use problem::{Fault, Problem};
pub use reader::{Reader, read};
pub use tags::Element;
