//! What a registry does not have of a signature file, and why.

use droid_signature_pattern::Reason;

/// Something that the registry does not have.
#[derive(Clone, Copy)]
pub struct LeftOut {
    /// The format that it belongs to, by its place in the signature file, if it belongs to one.
    pub format: Option<usize>,
    pub item: Item,
    pub why: Why,
}

/// What the registry does not have.
#[derive(Clone, Copy)]
pub enum Item {
    /// A whole format, with its signatures, extensions and priorities.
    Format,
    /// An extension of the format, by its place among the format's.
    Extension(usize),
    /// The priority over the format with this ID.
    Priority(u32),
    /// The signature with this ID.
    Signature(u32),
}

/// Why the registry does not have it.
#[derive(Clone, Copy)]
pub enum Why {
    /// The format has no PUID.
    NoPuid,
    /// The format's PUID is not of 1 to 32 ASCII letters, digits, `/` and `-`.
    BadPuid,
    /// An earlier format has the same PUID.
    PuidTaken,
    /// The format has no name, or one of more than 255 bytes.
    BadName,
    /// The format's version or media type has more than 255 bytes.
    LongNote,
    /// The extension is empty, has more than 64 bytes, or has a `.` or a `/`.
    BadExtension,
    /// The format is said to have priority over itself.
    OverItself,
    /// The registry has no format with that ID.
    NoSuchFormat,
    /// Several formats of the registry have that ID.
    SeveralFormats,
    /// The file has no signature with that ID.
    NoSuchSignature,
    /// Several signatures of the file have that ID.
    SeveralSignatures,
    /// No format of the file names the signature.
    Unnamed,
    /// A registry cannot hold the signature.
    Signature(Reason),
    /// None of the format's signatures is in the registry, so that its extensions find it as if it had none. What is
    /// missing is listed on its own; the format itself is in the registry.
    NoSignatureLeft,
    /// The registry has as many rows of this kind as it may have.
    Full,
}
