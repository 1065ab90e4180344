//! The command `registry`: makes a registry file from PRONOM's own signature file.
//!
//! [`convert_file`] is the command over any [`Places`]; [`registry_command`] runs it on this machine.
#![tactic(auto)]

mod command;
mod conversion;
mod left_out_line;
mod machine;
mod reasons;
mod registry_ending;
mod registry_places;
mod registry_report;

pub use command::{convert_file, registry_command};
pub use conversion::{Conversion, conversion_of};
pub use registry_ending::RegistryEnding;
pub use registry_places::{Part, Places, Unput, Unread};
