//! Submits a tree of folders and files to a service, folder by folder, and returns what became of each file.
//!
//! The caller supplies the tree, the client of the service and a watcher, all traits. So the proofs hold for any tree
//! and for any service, in this process or remote.
#![tactic(auto)]

mod client;
mod client_fault;
mod entry_submission;
mod file_ending;
mod file_opening;
mod file_pieces;
mod file_upload;
mod findings;
mod folder_visit;
mod held_file;
pub mod laws;
mod node;
mod reports;
mod submission_fault;
mod tree_submission;
mod upload;
mod upload_requests;
mod watcher_reports;

pub use client::Client;
pub use client_fault::ClientFault;
pub use file_upload::upload_file;
pub use node::Node;
pub use submission_fault::SubmissionFault;
pub use tree_submission::{Options, Submitted, submit_tree};
pub use upload::{Destination, Upload, Uploaded};
pub use upload_requests::{ask, create_profile, refusal_skips};
