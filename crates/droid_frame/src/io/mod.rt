//! Reading and writing over streams that may be interrupted or fail.
//!
//! An interrupted read or write is tried again, up to 64 times within one frame, file or text. Any other error, and a
//! write that takes no byte, is a fault at once.
//!
//! Contracts use the standard library's words. `R.remaining` and `W.contents` are the bytes that a reader has left and
//! a writer holds, `None` where they are not known; what follows holds where they are known. `Consumes old new bytes`:
//! the reader lost these bytes at its front. `Appends old new bytes`: the writer got them at its end. `Keeps`: nothing
//! changed. `ReadConsumes` and `WriteAppends`: the bytes that a result counts; after an error none, and a read of none
//! means the end. `ReadsAtMost`, `WritesAtMost`: the count is at most the buffer's length.

pub mod buffer;
pub mod input;
pub mod output;
pub mod recorded_stream;
pub mod retries;
pub mod steady;
pub mod stream_fault;
pub mod stream_record;
