//! The kinds of a registry file's records, and the letters that name them.

ghost use Rattle.std.specs.Prelude.{◌≡◌, option_map};
ghost use Rattle.droid_pronom.specs.RegistryFields as field;
ghost use Rattle.droid_pronom.specs.RegistryCalls.{kind_is};

/// The kind of a record. The letter is the record's first field.
#[derive(Clone, Copy)]
pub(crate) enum RecordKind {
    /// `F`: a format.
    Format,
    /// `E`: a format lists an extension.
    Extension,
    /// `P`: a format has priority over another.
    Priority,
    /// `S`: a new signature of a format, with its first byte sequence.
    Signature,
    /// `B`: one more byte sequence of the signature just before.
    Sequence,
}

/// Returns the kind of a record by its first field, one capital letter. Any other text is `None`.
pub(crate) fn kind_of(text: &str) -> Option<RecordKind>
    ensures { option_map kind_is result ≡ field.kind_of text.now }
{
    if text == "F" {
        Some(RecordKind::Format)
    } else if text == "E" {
        Some(RecordKind::Extension)
    } else if text == "P" {
        Some(RecordKind::Priority)
    } else if text == "S" {
        Some(RecordKind::Signature)
    } else if text == "B" {
        Some(RecordKind::Sequence)
    } else {
        None
    }
}
