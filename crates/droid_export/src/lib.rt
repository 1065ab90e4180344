//! The export: writes the records of a profile as CSV, with DROID's columns, filtered by criteria.
#![tactic(auto)]

mod column;
mod csv_error;
mod csv_row;
mod extension;
mod fault;
mod fields;
mod filter;
mod flags;
mod hash_text;
mod header;
mod index;
mod laws;
mod moment;
mod node_uri;
mod pending_text;
mod reading;
mod row_text;
mod rows;
mod selection;
mod shared_columns;
mod table;
mod text;
mod writer;

pub use column::{COLUMNS, Column};
pub use csv_error::no_memory;
pub use csv_row::{Row, said};
pub use fault::ExportFault;
pub use fields::{kind_of, number_of};
pub use filter::meets;
pub use hash_text::HashText;
pub use header::{Header, hash_of_header};
pub use laws::{text_goes_by_records, text_is_read_back};
pub use moment::{moment_bytes, moment_text};
pub use node_uri::uri;
pub use pending_text::PendingText;
pub use reading::consistency_law::rows_agree;
pub use reading::fault::ListFault;
pub use reading::fields::{has_no_slash, is_last};
pub use reading::format_row::FormatRow;
pub use reading::moment::is_moment;
pub use reading::profile::{Profile, read_profile};
pub use row_text::RowText;
pub use rows::{kind_name, method_name, truth};
pub use text::export_text;
pub use writer::export;
