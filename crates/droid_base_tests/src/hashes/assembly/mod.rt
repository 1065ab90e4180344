//! The assembly of a file from pieces.

mod faults;
mod files;
mod memory;
mod readme_example;
mod steps;
