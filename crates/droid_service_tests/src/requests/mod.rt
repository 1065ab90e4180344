//! Requests to a service, by public calls. They are written as lines of scripts, and replies are compared with what
//! they print. Tests of the built program on scripts are in tests/program/cases.

mod cache;
mod content;
mod limits;
mod memory;
mod page;
mod runs;
mod script_memory;
mod script_page;
mod steps;
