//! What is kept of a row to compare it with other rows.

/// What the first row of an item says beside the item, to be compared with the other rows.
#[derive(Clone, Copy)]
pub(crate) struct Tag {
    /// The record's number.
    pub(crate) number: u64,
    /// The ID.
    pub(crate) id: u32,
    /// The ID of the folder above, or 0 at the top.
    pub(crate) parent: u32,
    /// How many bytes of the path are that of the folder above.
    pub(crate) above: usize,
}
