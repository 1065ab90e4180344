//! Reads registries of file formats, and identifies files by signatures and extensions in the way of PRONOM.
//!
//! [`Registry::parse`] reads a registry file, and [`Registry::identify`] finds the formats of a file.
//! [`common_registry`] is a registry file that is part of the program, for users without their own.
#![tactic(auto)]

mod common;
mod fields;
mod format;
mod head;
mod identification;
pub mod laws;
mod letter_case;
mod record_forms;
mod registry;
mod rows;
mod steps;
mod windows;

pub use common::common_registry;
pub use droid_pattern::{Pattern, PatternFault};
pub use fields::is_puid;
pub use format::Format;
pub use identification::Found;
pub use registry::Registry;
pub use registry::fault::RegistryFault;
pub use rows::{Anchor, ByteSequence, ListedExtension, Offsets, Priority, Signature};
pub use steps::extension::extension;
pub use steps::hits::hit_formats;
