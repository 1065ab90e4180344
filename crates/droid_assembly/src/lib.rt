//! Assembles one file from pieces that come in any order.
//!
//! `assembly` is what callers see. A settled piece waits in its place (`places`) until all before it are there; then
//! its bytes go to the front (`front`), which keeps the windows and the running hash. Everything else serves the speed
//! of that step.
#![tactic(auto)]

mod assembly;
mod copying;
mod fault;
mod feed;
mod front;
mod needless_pieces;
mod places;
mod seal;
mod several;
mod small_pieces;
mod windows;

pub use assembly::Assembly;
pub use fault::{Incomplete, PutFault};
pub use needless_pieces::Spent;
pub use seal::Sealed;
pub use windows::Windows;
