//! Fixity: compares a list of folders and files with what is found; and reads and writes lists of checksums, as
//! `md5sum`, `sha256sum` and the manifests of bags have them.
//!
//! Archivists say "fixity" for the question whether files are still what their list of checksums says.
#![tactic(auto)]

mod checksum_lists;
mod difference;
mod holders;
mod inventory;
mod laws;
mod pair;
mod report;

pub use checksum_lists::checksum_line::add_line;
pub use checksum_lists::form::ManifestForm;
pub use checksum_lists::list::read_manifest;
pub use checksum_lists::list_fault::ManifestFault;
pub use checksum_lists::manifest_law::{
    lines_are_read_back, lines_of_the_grammar_name_files, lists_have_one_kind,
};
pub use checksum_lists::text::without_mark;
pub use difference::Difference;
pub use inventory::{Inventory, SamePath};
pub use laws::same_items_have_no_difference;
pub use pair::{FilePair, file_pairs};
pub use report::compare;
