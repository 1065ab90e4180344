//! The command line of the program: its commands and options, what they ask for, and the help texts.
//!
//! Contracts speak of words as the kit's `clap` does. `rows_of (found_of m)` are the options and words that it found in
//! m, each with its values; `one_of name` is the value of one. `rule_of` is what an option or word takes, and `app_of`
//! a command with its rules. Which text names a mistake has no contract: `tests/program/cases`,
//! `tests/program/folders/profile_arguments.py` and `tests/program/submissions/submit_check.py` test them.
#![tactic(auto)]

mod arguments;
mod builder;
mod compact_options;
mod connection_options;
mod helps;
mod identify;
mod no_command;
mod option;
mod profile;
mod registry_options;
mod report_options;
mod source;
mod submit;
mod value;
mod verify;

pub use arguments::{Asked, VERSION, what_is_asked};
pub use connection_options::ServeOptions;
pub use identify::{IdentifyForm, IdentifyOptions, named_files};
pub use no_command::{NoCommand, unread_words};
pub use profile::ProfileOptions;
pub use registry_options::RegistryOptions;
pub use report_options::ReportOptions;
pub use source::RegistrySource;
pub use submit::{Destination, SubmitOptions};
pub use verify::VerifyOptions;
