//! The commands `profile` and `report`: the CSV of a folder of this machine, and if that is asked for a list of
//! checksums, what was skipped, and a page; and the page of a CSV that was written before.
#![tactic(auto)]

mod folder_profile;
mod kept_output;
pub mod laws;
mod named_registry;
mod other_files;
mod output_told;
mod pages;
mod profile_ending;
mod profile_outputs;
mod profile_page;
mod skipped_file;
mod skipped_writer;
mod tree_profile;
mod walk_options;

pub use folder_profile::profile_folder;
pub use named_registry::{NamedRegistry, RegistryLine, RegistryName};
pub use other_files::OtherFiles;
pub use output_told::told_output;
pub use pages::csv_page::{PageTexts, page_of_csv};
pub use pages::csv_report::{page_now, put_page, title_of};
pub use pages::csv_told::told_no_csv;
pub use pages::page_fault::PageFault;
pub use pages::page_writer::write_page;
pub use pages::profile_report::report_profile;
pub use pages::report_ending::ReportEnding;
pub use profile_ending::ProfileEnding;
pub use profile_outputs::OutputFile;
pub use skipped_file::{SkippedFault, SkippedFile};
pub use skipped_writer::SkippedWriter;
pub use tree_profile::profile_tree;
