//! Frames as bytes, as values and on streams; the queue of replies, and the client's end.

mod bodies;
mod client;
mod example;
mod feed;
mod memory;
mod queue;
mod stream_bytes;
mod streams;
mod values;
