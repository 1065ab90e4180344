//! The records of a journal as bytes.
//!
//! A journal is a header, and then a record for each accepted request. The first record of a turn begins with a mark,
//! which says that all before it was on the disk.

pub mod checks;
pub mod checksums;
pub mod comparison;
pub mod damage;
pub mod key;
pub mod place;
pub mod record_reader;
pub mod record_writer;
