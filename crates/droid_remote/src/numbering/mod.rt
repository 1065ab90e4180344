//! Numbers the requests of a submission: by what each request asks, not by when it is sent.

pub mod digests;
pub mod fields;
pub mod numbers;
pub mod request_bodies;
pub mod request_numbers;
