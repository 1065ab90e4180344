//! Owned text: `Text`, one name, path or format identifier.

ghost use Rattle.std.specs.Prelude.{◌≡◌, IfOk, length, string_bytes};
ghost use Rattle.std.specs.Str.{IsUtf8};

use std::alloc::{AllocError, Global};
use std::marker::Model;

/// Owned UTF-8 text, such as the name of a file. In contracts it is the list of its bytes.
pub struct Text {
    text: String,
}

// Frees its one field, as a derived `Drop` would. Written by hand, so that the crates above do not prove again how each
// part is dropped. No clause says more.
impl Drop for Text {
    fn drop(self) {
        let Text { text: _text } = self;
    }
}

impl Model for Text {
    ghost use Rattle.std.specs.Prelude.{List, ℕ, string_bytes};

    ghost Value = { List ℕ };

    ghost view = { λ it. string_bytes it.text };
}

impl Text {
    /// Copies the text into a new buffer. Fails only when out of memory.
    pub fn copy_of(alloc: Global, text: &str) -> Result<Text, AllocError>
        ensures { IfOk result (λ it. it ≡ text.now) }
    {
        Ok(Text {
            text: String::from_str(alloc, text)?,
        })
    }

    /// Copies the text into a new buffer. Fails only when out of memory.
    pub fn try_clone(&self, alloc: Global) -> Result<Text, AllocError>
        ensures { IfOk result (λ it. it ≡ self.now) }
    {
        Text::copy_of(alloc, self.as_str())
    }

    /// Returns the text.
    pub fn as_str(&self) -> &str
        ensures value { result.now ≡ self.now }
        // For the proofs of callers: any text is UTF-8.
        ensures utf8 { IsUtf8 self.now }
    {
        self.text.as_str()
    }

    /// Returns the length of the text in bytes.
    pub fn len(&self) -> usize
        ensures { result ≡ length self.now }
    {
        self.text.len()
    }

    /// Returns the string itself. Allocates nothing.
    pub fn into_string(self) -> String
        ensures { string_bytes result ≡ self }
    {
        let Text { text } = self;
        text
    }
}

impl From<String> for Text {
    ghost from_gives = { λ text it. it ≡ string_bytes text };

    /// Takes over the string. Allocates nothing.
    fn from(text: String) -> Text {
        Text { text }
    }
}
