//! Submits a tree to a service over a connection that may break, and reads what the service exports of it. Each request
//! has a number by what it asks, so any number of runs over a tree, in any state, are one submission.
//!
//! Each new connection is first vouched for: the service has to repeat what it answered before. The caller supplies the
//! tree, the connection and the watcher, as a [`droid_tree::Tree`], a [`Connection`] and a [`droid_tree::Watcher`].
#![tactic(auto)]

mod begun_options;
pub mod laws;
pub mod number_laws;
mod numbered_frame;
mod numbering;
mod patience;
mod remote_export;
mod remote_fault;
mod remote_submission;
mod sender;
mod transfer;

pub use begun_options::options_of;
pub use numbering::numbers::number_of;
pub use remote_export::{EXPORT_LIMIT, export};
pub use remote_fault::{DownloadFault, RemoteFault};
pub use remote_submission::submit;
pub use sender::Sender;
pub use transfer::connection::{Broken, Connection};
pub use transfer::in_flight::InFlight;
pub use transfer::known_requests::{Known, KnownRequests};
pub use transfer::streams::{Open, Streams};
pub use transfer::transfer_fault::TransferFault;
