//! The size of a journal, in records and in bytes.

/// The size of a journal.
#[derive(Clone, Copy)]
pub struct Size {
    /// How many records it has.
    pub records: u64,
    /// How many bytes it has, with its header.
    pub bytes: u64,
}
