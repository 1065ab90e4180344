//! Tests of what services and profiles stand on: frames, hashes, the store and the formats that the program reads and
//! writes. They make public calls alone.
#![tactic(auto)]

#[cfg(test)]
mod formats;
#[cfg(test)]
mod frames;
#[cfg(test)]
mod hashes;
#[cfg(test)]
mod store;
