//! The command `submit`: sends a folder of this machine to a service on a port, and compares the service's profile with
//! it.
#![tactic(auto)]

mod audience;
mod begun_options;
mod checked_submission;
mod difference_line;
mod known_nodes;
pub mod laws;
mod loopback;
mod output_files;
mod profile_comparison;
mod reported_differences;
mod submission;
mod submission_ending;
mod submission_told;
mod submit_settings;
mod timely;
mod told_transfer;

pub use audience::Audience;
pub use begun_options::BegunOptions;
pub use checked_submission::{CommandFault, submit_and_check};
pub use profile_comparison::{Compared, ComparisonFault};
pub use submission::submit_folder;
pub use submission_ending::{OutputFile, SubmissionEnding};
