//! Frames of a stream whose bytes come in pieces of any length.

pub mod body;
pub mod fed_frame;
pub mod feed_result;
pub mod frame_feed;
pub mod parts;
