//! Tests of the registry. (tests/program has what the built program shows of it: registry.sh, cases,
//! identification.py.)

mod common;
mod memory;
mod page;
mod pattern_page;
mod registry_files;
