//! Checks the five fields of an F, an E or a P record behind its kind, all together. The parameters are the fields in
//! their order; those that a kind of record doesn't use have to be empty. `registry/draft/signatures` has S and B
//! records.

ghost use Rattle.std.specs.Prelude.{◌≡◌, ◌&&◌, not};
ghost use Rattle.std.specs.Str.{bytes_eq};
ghost use Rattle.droid_pronom.specs.RegistryFields as field;

use crate::fields::{is_extension, is_name, is_note, is_puid};

/// Returns whether the fields of an F record are valid: PUID, name, version, media type, and nothing.
pub fn is_format(puid: &str, name: &str, version: &str, mime: &str, empty: &str) -> bool
    ensures { result
        ≡ (field.is_puid puid.now && field.is_name name.now && field.is_note version.now && field.is_note mime.now
        && field.is_empty empty.now) }
{
    is_puid(puid) && is_name(name) && is_note(version) && is_note(mime) && empty.is_empty()
}

/// Returns whether the fields of an E record are valid: the PUID of a format, an extension, and three times nothing.
pub fn is_listing(puid: &str, extension: &str, empty: &str, more: &str, last: &str) -> bool
    ensures { result
        ≡ (field.is_puid puid.now && field.is_extension extension.now && field.is_empty empty.now
        && field.is_empty more.now && field.is_empty last.now) }
{
    is_puid(puid)
        && is_extension(extension)
        && empty.is_empty()
        && more.is_empty()
        && last.is_empty()
}

/// Returns whether the fields of a P record are valid: the PUID of a format, another PUID, and three times nothing.
pub fn is_priority(puid: &str, other: &str, empty: &str, more: &str, last: &str) -> bool
    ensures { result
        ≡ (field.is_puid puid.now && field.is_puid other.now && not (bytes_eq puid.now other.now)
        && field.is_empty empty.now && field.is_empty more.now && field.is_empty last.now) }
{
    is_puid(puid)
        && is_puid(other)
        && puid != other
        && empty.is_empty()
        && more.is_empty()
        && last.is_empty()
}
