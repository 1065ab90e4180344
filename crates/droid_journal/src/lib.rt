//! A journal: the accepted requests of a service in a file, each on the disk before its reply is sent.
//!
//! [`Journal`] wraps a [`Machine`], such as a service, and a [`LogFile`]. It hands the machine each request, appends
//! the accepted ones with their replies to the file, and syncs them once for all requests of a turn. [`open`] makes a
//! machine from a file. A [`DiskLog`] is such a file on a disk of this machine.
//!
//! The file is a header, and then a record for each accepted request: the frames of the request and of its reply, and a
//! check value that chains the record to the one before it.
#![tactic(auto)]

mod crash;
mod disk;
mod file_records;
mod frames;
mod journal;
mod journal_fault;
pub mod laws;
mod log_file;
mod machine;
mod records;
mod replay;
mod room;
mod start;

pub use crash::{Tears, crash_and_reopen};
pub use disk::disk_fault::DiskFault;
pub use disk::disk_log::DiskLog;
pub use disk::drive::{Drive, DriveError};
pub use disk::file_drive::{FileDrive, sync_folder};
pub use disk::header::{RANDOM, header_for};
pub use file_records::WINDOW;
pub use journal::Journal;
pub use journal_fault::Fault;
pub use log_file::{FileError, LogFile};
pub use machine::{Handled, Machine};
pub use records::checks::{MARK, turn_mark};
pub use records::checksums::checksum_of;
pub use records::comparison::is_same;
pub use records::key::{Form, Key, checked, first_place, key_of};
pub use records::place::Place;
pub use records::record_reader::{Found, record_by, request_of};
pub use records::record_writer::put_record;
pub use start::{Opened, open};
