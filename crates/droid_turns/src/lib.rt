//! Many connections at once, served in turns by one handler of requests.
//!
//! [`serve_in_turns`] is generic in the connections and in the handler. Its promise holds for every order in which
//! connections become ready, and for every length of their reads and writes. [`Pipe`] is one connection over a reader
//! and a writer.
#![tactic(auto)]

mod chunks;
mod connections;
mod departure;
mod feeding;
mod hall;
mod handler;
mod peer;
mod pipe;
mod reply_queue;
mod rules;
mod service_end;
mod stream_answers;
mod turns;

pub use connections::{Came, Connections, Took, WaitFault};
pub use departure::Departure;
pub use feeding::feed_result::Fed;
pub use feeding::frame_feed::FrameFeed;
pub use handler::Handler;
pub use pipe::Pipe;
pub use reply_queue::ReplyQueue;
pub use rules::Rules;
pub use service_end::Served;
pub use stream_answers::answer_pipe;
pub use turns::serve_in_turns;
