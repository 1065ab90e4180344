//! The text of one pattern.

ghost use Rattle.std.specs.Prelude.{◌≡◌};

use std::marker::Model;

/// A pattern's text. In contracts it is the list of its bytes.
pub struct PatternText {
    bytes: Vec<u8>,
}

// Written by hand, so that the crates above do not prove again how each part is dropped.
impl Drop for PatternText {
    fn drop(self) {
        let PatternText { bytes: _bytes } = self;
    }
}

impl Model for PatternText {
    ghost use Rattle.std.specs.Prelude.{List, ℕ};

    ghost Value = { List ℕ };

    ghost view = { λ text. text.bytes.items };
}

impl PatternText {
    /// Makes a text of its bytes, whatever they are. Allocates nothing.
    pub(crate) fn new(bytes: Vec<u8>) -> PatternText
        ensures { result ≡ bytes.items }
    {
        PatternText { bytes }
    }

    /// Returns the bytes: ASCII, in all that this crate makes.
    pub fn as_slice(&self) -> &[u8]
        ensures { result.now ≡ self.now }
    {
        self.bytes.as_slice()
    }
}
