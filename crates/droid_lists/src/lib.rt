//! Reads a list of files in any of its forms, as items that fixity compares: the CSV of a profile, a list of checksums,
//! or the manifest of a bag. The form is seen from the first line.
//!
//! Also compares the formats that a list gives its files with those that were found, and the CSV of a profile with the
//! folders and files that were submitted.
#![tactic(auto)]

mod agreement_law;
mod comparison;
mod entries;
mod export_law;
mod format_lists;
mod known;
mod list_content;
mod list_form;
mod node;
mod spelling;

pub use agreement_law::the_items_of_the_list_agree;
pub use export_law::export_lists_its_records;
pub use format_lists::file_formats::{FileFormats, Puids};
pub use format_lists::format_change::{FormatChange, format_changes};
pub use known::{Difference, Known};
pub use list_content::{Listed, UnreadList, read_list};
pub use list_form::ListForm;
pub use node::item_of_node;
pub use spelling::column_names::column_name;
pub use spelling::text_check::check_text;
pub use spelling::text_fault::TextFault;
pub use spelling::text_law::a_text_is_wrong_in_one_place;
