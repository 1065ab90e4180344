//! Hashes of eight files that one thread reads side by side: MD5 (RFC 1321), SHA-256 (FIPS 180-4) or none; and what a
//! reply says of a finished file.
#![tactic(auto)]

mod eight_tails;
mod end_bytes;
mod finding;
mod four_tails;
mod hash_lanes;
mod md5_kernel;
pub mod md5_lanes;
mod md5_runs;
mod md5_scalar;
mod pieces;
mod runs;
mod sha256_eight;
mod sha256_kernel;
pub mod sha256_lanes;
mod sha256_runs;
mod sha256_scalar;
mod tails;

pub use end_bytes::EndBytes;
pub use finding::{Finding, RunningPuids, finding_of, no_finding};
pub use hash_lanes::{HashLanes, LANES};
pub use md5_lanes::Md5Lanes;
pub use sha256_eight::Sha256Eight;
pub use sha256_lanes::Sha256Lanes;
