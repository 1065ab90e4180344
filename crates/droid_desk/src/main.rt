//! The program: it profiles folders, submits them to a service, runs such a service, and sends it requests. What it
//! does begins in `program.rt`.
#![tactic(auto)]

mod program;

use std::io::IsTerminal;
use std::process::ExitCode;

/// Runs the program on this machine. Whether standard error is a terminal is looked up here, once;
/// `profile_progress.py` of `tests/program/folders` tests both.
fn main(rt: HostRuntime) -> ExitCode {
    program::run(&rt, rt.stderr().is_terminal())
}
