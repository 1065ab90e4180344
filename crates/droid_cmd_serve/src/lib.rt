//! The commands of a service: `script` over lines, `run` over frames of standard input, `serve` over connections to a
//! port, and `send`, a client of one. `run` and `serve` may have a journal, so that what they answered outlives them.
//! Also reads the registry that `profile` uses.
#![tactic(auto)]

mod beside;
mod client;
mod command_end;
mod commands;
mod compaction;
mod exit;
mod fresh;
mod header;
mod journal;
mod journal_commands;
mod journal_connections;
mod journal_fault;
mod many_connections;
mod registry;
mod sample;
mod scripts;
mod smaller_journal;
mod stream;
mod told;
mod told_journal;
mod told_registry;

pub use command_end::Ended;
pub use commands::{run_command, script_command, send_command, serve_command};
pub use compaction::compact_command;
pub use exit::Ending;
pub use registry::{no_registry, note_formats, registry_bytes};
