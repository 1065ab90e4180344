//! The limits that a service is made with, and the most that each may be. `requires` of `Service::new`, of `with_cache`
//! and of `UnfinishedFiles::new`, and `AreAllowed` in `specs/` have the same numbers, as do `requires` of
//! droid_recovery and droid_wire; the prover ties them.
//!
//! The program's service has these very limits (`program_limits` of droid_cmd_serve, and the first lines of its
//! journals, in `header.rt`). 100,000 is also `NODE_LIMIT` of droid_tree and the last number of `is_next` of
//! droid_lists, and stands in the help of `submit`; docs/SERVICE has all three. The prover only lets the program's be
//! no larger than these; nothing ties the others.

/// The limits of a service. A request past a limit is refused with the limit's name.
#[derive(Clone, Copy)]
pub struct Limits {
    /// The most profiles of the service, itself at most 64.
    pub profiles: u32,
    /// The most nodes ever accepted in one profile, itself at most 100,000.
    pub nodes: u32,
    /// The most unfinished files of the whole service, itself at most 64.
    pub unfinished: u32,
}
