//! A journal's file on a disk of this machine, and its header.
//!
//! [`DiskLog`](crate::DiskLog) reads, cuts and appends through the few calls of a [`Drive`](crate::Drive), and saves
//! what it cuts off. That the machine does what is said of these calls is not proved.

pub mod disk_fault;
pub mod disk_log;
pub mod drive;
pub mod file_drive;
pub mod header;
