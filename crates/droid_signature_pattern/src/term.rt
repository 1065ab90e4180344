//! The terms that a text of the signature file is read as.

/// One item of a text.
#[derive(Drop)]
pub enum TextItem {
    /// `61`: that byte.
    Byte(u8),
    /// `??`: any byte.
    AnyByte,
    /// `{3}`, `{2-5}`, `{2-*}` or `*`: any bytes, at least `least`, and at most `most` if there is such a limit.
    Gap { least: u16, most: Option<u16> },
    /// `[61:7A]`: a byte of a range.
    Range { low: u8, high: u8 },
    /// `[!61]`: any other byte.
    Except(u8),
    /// `[!61:7A]`: a byte outside a range.
    Outside { low: u8, high: u8 },
    /// `[0100:0300]`: bytes of a range of several bytes.
    Between { low: Vec<u8>, high: Vec<u8> },
    /// `'text'`: these bytes.
    Quoted(Vec<u8>),
}

/// One item, or one of several lists of items.
#[derive(Drop)]
pub enum TextTerm {
    One(TextItem),
    /// `(61|6263|[30:39])`.
    OneOf(Vec<Vec<TextItem>>),
}
