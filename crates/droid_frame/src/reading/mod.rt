//! Readers of frames' bodies: they return the request or the reply that a frame's version, kind and body spell. Each
//! contract names a definition of `specs/`, mostly of the function's own name, which says what the bytes mean.

pub mod fields;
pub mod filters;
pub mod replies;
pub mod requests;
