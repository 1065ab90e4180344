//! Tests of sending. Tests of the built program with a service are in tests/program/wire.

mod memory;
mod page;
