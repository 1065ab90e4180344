//! The command `verify`: compares a folder of this machine with a list of its files, and says what differs. It walks as
//! `profile` does.
#![tactic(auto)]

mod compared;
mod finding;
mod folder_check;
mod item_keeper;
pub mod laws;
mod listing_check;
mod lists;
mod measure;
mod noted_files;
mod outcome;
mod readable_items;
mod report;
pub mod status_laws;
mod summary;
mod tree_check;
mod verification;
mod verify_ending;
mod verify_walk;

pub use compared::Amount;
pub use finding::Kind;
pub use folder_check::verify_folder;
pub use item_keeper::ItemKeeper;
pub use lists::{ComparedList, read_lists};
pub use measure::Measure;
pub use outcome::{Outcome, outcome_of, write_outcome};
pub use verification::{ClearLine, Verified, verify_as, verify_listing, verify_tree};
pub use verify_ending::VerifyEnding;
