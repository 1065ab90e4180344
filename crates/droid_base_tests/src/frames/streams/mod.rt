//! Frames, replies and texts on streams.

mod frame_streams;
mod inputs;
mod writers;
