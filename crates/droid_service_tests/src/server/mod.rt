//! Serving, journals and sending. Tests of the built program are in tests/program/wire and tests/program/journal.

mod journal;
mod sending;
mod serving;
mod turns;
