//! Reads and hashes the files of a tree, eight at a time, and identifies each.

pub mod batch;
pub mod file_end;
pub mod file_lane;
pub mod file_row;
pub mod file_start;
pub mod lane_hashes;
pub mod lane_reader;
pub mod reader;
