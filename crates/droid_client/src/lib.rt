//! The client's end of a stream. It numbers requests, keeps each until it is answered, and takes replies in any order
//! and any number of times.
#![tactic(auto)]

mod client;
mod client_fault;
mod heard;
mod pending_list;
mod slot;

pub use client::Client;
pub use client_fault::{HearFault, SubmitFault};
pub use heard::Heard;
