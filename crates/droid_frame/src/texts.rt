//! A list of texts: `Texts`, such as the identifiers of a file's formats.

ghost use Rattle.std.specs.Prelude.{◌≡◌, ◌↔◌, ◌++◌, ◌∷◌, [], IsTrue, IfOk, OnOk, OnErr, length};
ghost use Rattle.std.specs.Option.{option_copied};
ghost use Rattle.std.specs.List.{slice_get};

use crate::text::Text;
use std::alloc::{AllocError, Global};
use std::marker::Model;

/// Texts in order, such as the identifiers of a file's formats. In contracts it is the list of their bytes.
pub struct Texts {
    items: Vec<Text>,
}

// Frees its one field, as a derived `Drop` would. Written by hand, so that the crates above do not prove again how each
// part is dropped. No clause says more.
impl Drop for Texts {
    fn drop(self) {
        let Texts { items: _items } = self;
    }
}

impl Model for Texts {
    ghost use Rattle.std.specs.Prelude.{List, ℕ};

    ghost Value = { List (List ℕ) };

    ghost view = { λ texts. texts.items.items };
}

impl Texts {
    /// Makes an empty list. Allocates nothing.
    pub fn new(alloc: Global) -> Texts
        ensures { result ≡ [] }
    {
        Texts {
            items: Vec::new(alloc),
        }
    }

    /// Appends a text. When out of memory it fails, and the list is unchanged.
    pub fn push(&mut self, text: Text) -> Result<(), AllocError>
        ensures ok { OnOk result (self.new ≡ self.old ++ text ∷ []) }
        ensures err { OnErr result (self.new ≡ self.old) }
    {
        self.items.push(text)?;
        Ok(())
    }

    /// Returns the text at this index, counted from 0, or `None` past the end.
    pub fn get(&self, place: usize) -> Option<&Text>
        ensures { option_copied result ≡ slice_get self.now place }
    {
        self.items.get(place)
    }

    /// Returns the texts as a slice.
    pub fn as_slice(&self) -> &[Text]
        ensures { result.now ≡ self.now }
    {
        self.items.as_slice()
    }

    /// Returns the number of texts.
    pub fn len(&self) -> usize
        ensures { result ≡ length self.now }
    {
        self.items.len()
    }

    /// Returns whether the list is empty.
    pub fn is_empty(&self) -> bool
        ensures { IsTrue result ↔ (self.now ≡ []) }
    {
        self.items.is_empty()
    }

    /// Copies the list and each text. Fails only when out of memory.
    pub fn try_clone(&self, alloc: Global) -> Result<Texts, AllocError>
        ensures { IfOk result (λ texts. texts ≡ self.now) }
    {
        let mut items = Vec::with_capacity(alloc, self.items.len())?;
        for text in &self.items {
            items.push(text.try_clone(alloc)?)?;
        }
        Ok(Texts { items })
    }
}
