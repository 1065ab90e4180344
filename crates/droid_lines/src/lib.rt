//! Requests and replies as lines of text.
//!
//! [`parse_line`] reads the request of a line of a script, [`print_reply`] prints a reply as a line. [`send`] is a
//! client that sends the requests of lines to a service and prints the replies.
//!
//! Where a function that reads words returns `None` (`Ok(None)` if it takes memory), the text is outside the grammar,
//! and the line is bad. `docs/FORMATS.md` has the grammar, and the help of `script` all words.
#![tactic(auto)]

mod exchange;
mod exports;
pub mod laws;
mod line_feeds;
mod line_reader;
mod parser;
mod printer;
mod reply_text;
mod requests;
mod send_fault;
mod sender;
pub mod sending_laws;
mod tally;
mod words;

pub use line_feeds::next_line;
pub use parser::{Line, parse_line};
pub use printer::{print_answer, print_reply};
pub use send_fault::{SendFault, frame_fault_name};
pub use sender::send;
pub use tally::Tally;
