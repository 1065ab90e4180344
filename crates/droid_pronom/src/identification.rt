//! The result of identifying a file.

use droid_frame::{Method, Texts};

/// The formats of a file, and how they were found.
#[derive(Drop)]
pub struct Found {
    /// How they were found.
    pub method: Method,
    /// Whether the extension contradicts the formats.
    ///
    /// It does if the method is `Signature`, the extension is not empty, at least one of the formats lists an
    /// extension, and none of them lists this one. The case of ASCII letters makes no difference.
    pub mismatch: bool,
    /// The PUIDs of the formats, in the registry's order.
    pub puids: Texts,
}
