//! The submission service for DROID profiles: it judges requests, carries out the accepted ones, and keeps their
//! replies for good.
//!
//! `commands` and `queries` have a file for each kind of request. `checks` has the conditions under which one is
//! refused, and `unfinished` the files of which pieces are still to come.
#![tactic(auto)]

mod checks;
mod commands;
mod file_rows;
mod holdings;
pub mod laws;
mod limits;
mod look_ups;
mod queries;
mod replies;
mod service;
mod stamps;
mod unfinished;

pub use commands::abandonment::abandon;
pub use commands::completion::finish;
pub use commands::new_files::add_file;
pub use commands::new_folders::add_folder;
pub use commands::new_profiles::create_profile;
pub use commands::pieces::take_piece;
pub use droid_store::StoreFault;
pub use holdings::Holdings;
pub use limits::Limits;
pub use replies::{answer_again, entry_of, reply_from};
pub use service::{Outcome, Service};
pub use stamps::Stamp;
pub use unfinished::fault::IdentifyFault;
pub use unfinished::files::UnfinishedFiles;
