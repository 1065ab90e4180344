//! What the crates of tests share: frames whose bytes are written by hand, streams that are interrupted or fail, and a
//! small registry.
#![tactic(auto)]

mod sample;
mod shaky;
mod vector_reader;
mod vectors;

pub use sample::SAMPLE;
pub use shaky::{BYTE_BY_BYTE, Manner, NOWHERE, Place, STEADY, ShakyReader, ShakyWriter, Stop};
pub use vector_reader::{comes, fault_of, is_end, reader_of};
pub use vectors::{
    BAD_OPTION_IN_TWO, FINISHED, FINISHED_WITH_MD5, FINISHED_WITH_NOTHING, FINISHED_WITH_SHA256,
    FOLDER, INCOMPLETE, MADE, MADE_IN_TWO, MALFORMED, NODE, NODES_REACHED, NUMBER_REUSED, VECTORS,
    Vector, body_of, frame, frame_of,
};
