//! The steps of identification, each over plain slices. `windows` puts them together. A list of flags has one for each
//! format, at the format's place.

pub mod extension;
pub mod hits;
pub mod listings;
pub mod priority;
pub mod puids;
