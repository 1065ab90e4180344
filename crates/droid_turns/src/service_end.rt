//! How serving many connections ended: the result of the loop.

/// How serving many connections ended. Each connection has left.
#[derive(Clone, Copy, PartialEq, Eq)]
pub enum Served {
    /// As many connections as the rules allow came.
    All,
    /// Waiting failed, or there were 2^64 - 1 turns.
    Stopped,
    /// Out of memory for the list of connections. None was accepted.
    Memory,
    /// The handler could not settle. Nothing was written after that.
    Unsettled,
}
