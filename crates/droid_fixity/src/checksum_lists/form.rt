//! The forms of a list of checksums.

/// How the lines of a list of checksums are written.
#[derive(Clone, Copy)]
pub enum ManifestForm {
    /// As `md5sum` and `sha256sum` of GNU coreutils write and check them.
    Checksums,
    /// As the payload manifest of a bag has them (RFC 8493, section 2.1.3).
    Bag,
}

/// How the bytes of a path are spelled in a line.
#[derive(Clone, Copy)]
pub(crate) enum Escapes {
    /// Each byte stands for itself.
    Nothing,
    /// `\\`, `\n` and `\r` stand for a backslash, a line feed and a carriage return.
    Backslash,
    /// `%25`, `%0A` and `%0D` stand for a percent sign, a line feed and a carriage return.
    Percent,
}
