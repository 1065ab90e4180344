//! How many connections are served, and how long each may be idle.

/// How many connections are served, and how long each may be idle.
#[derive(Clone, Copy)]
pub struct Rules {
    /// The most connections that are open at once.
    pub seats: usize,
    /// How many connections are served in all. `None`: no limit.
    pub total: Option<u64>,
    /// A connection is closed after this many milliseconds without a byte in either direction.
    pub idle: u64,
}
