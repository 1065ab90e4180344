//! A service made again from its accepted requests and their replies, where the pieces of finished and abandoned files
//! have no bytes, as in a journal that was made small. Such a file is called bare, and so are its pieces and its
//! Finish.
//!
//! [`RecoveringMachine`] takes the records in order, like any machine of a journal. A request that needs no bytes of
//! such a file, or that came again, is handled as ever. Of a piece of such a file the reply alone is kept, and its
//! Finish takes what was found from the reply. Once each such file has ended, the service that is made has the history
//! of the accepted requests, as if it had received them whole.
#![tactic(auto)]

pub mod bare_laws;
mod bare_pieces;
mod commands;
mod finishes;
mod frame_reader;
pub mod laws;
mod record_step;
mod recovery_machine;
mod reply_conditions;
mod revival_fault;
mod service;
pub mod smaller_laws;
mod words;

pub use recovery_machine::RecoveringMachine;
