//! A format of a registry.

use droid_frame::Text;

/// A format, with the texts of its record in the registry file.
#[derive(Drop)]
pub struct Format {
    /// PRONOM's persistent unique identifier, such as `fmt/95`: 1 to 32 ASCII letters, digits, `/` and `-`.
    pub puid: Text,
    /// The name, 1 to 255 bytes.
    pub name: Text,
    /// The version, at most 255 bytes. It may be empty.
    pub version: Text,
    /// The media type, at most 255 bytes. It may be empty.
    pub mime: Text,
}
