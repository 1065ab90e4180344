//! Writers of requests and replies: they make frames and bodies in memory. After an error, which is out of memory, a
//! buffer `out` may have some of the bytes; the functions that made it drop it.

pub mod replies;
pub mod requests;
pub mod text_writer;
