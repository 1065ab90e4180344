//! Tests of the service by calls that the built program does not make. Its own are in tests/program.
#![tactic(auto)]

#[cfg(test)]
mod requests;
#[cfg(test)]
mod server;
