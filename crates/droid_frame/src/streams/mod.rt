//! Readers and writers of frames on streams. A stream has frames one after the other, with nothing between them.

mod arrival;
mod fault;
mod frame_reader;
mod frame_writer;
mod header;
mod reply_writer;

pub use arrival::Arrival;
pub use fault::FrameFault;
pub use frame_reader::read_frame;
pub use frame_writer::write_frame;
pub use header::{HEADER_LENGTH, Header};
pub use reply_writer::write_reply;
