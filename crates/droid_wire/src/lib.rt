//! Both ends of a stream of requests. [`serve`] answers the frames of a stream for a service, [`serve_many`] those of
//! many connections at once. [`Client`] is the other end: it numbers requests and takes their replies.
//!
//! [`answer_service`] answers one stream as [`serve_many`] answers many: the program uses these two, and [`serve`] is
//! the specification's call.
//!
//! [`ServiceJournal`] is a service with a journal: its accepted requests are on the disk before their replies are
//! written.
#![tactic(auto)]

mod journal_connections;
mod journal_handler;
pub mod journal_laws;
mod journal_stream;
pub mod laws;
mod many;
mod reading_machine;
mod reply_frame;
mod serve_fault;
mod server;
mod service_handler;
mod service_journal;
mod service_machine;
mod service_stream;
mod small_reader;
mod stream_end;

pub use droid_client::{Client, HearFault, Heard, SubmitFault};
pub use journal_connections::serve_journal;
pub use journal_handler::JournalHandler;
pub use journal_stream::answer_journal;
pub use many::serve_many;
pub use reading_machine::ReadingMachine;
pub use serve_fault::ServeFault;
pub use server::serve;
pub use service_handler::ServiceHandler;
pub use service_journal::{ServiceJournal, Unopened, crash_and_reopen};
pub use service_machine::ServiceMachine;
pub use service_stream::answer_service;
pub use small_reader::SmallReader;
pub use stream_end::Ended;
