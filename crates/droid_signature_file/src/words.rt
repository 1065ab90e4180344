//! Reads elements that have text alone: as a text, such as `Extension`, or as a number, such as `InternalSignatureID`.

ghost use Rattle.std.specs.Prelude.{◌≡◌};
ghost use Rattle.droid_signature_file.specs.Signatures as spec;

use crate::fault::Stop;
use crate::from_node::FromNode;
use crate::node::Node;
use crate::numbers::number;
use crate::white_space::trimmed;
use droid_frame::Text;
use std::alloc::Global;

impl FromNode for Text {
    ghost says = { spec.text };

    /// Returns the text of an element, without the white space at both ends.
    fn from_node(alloc: Global, node: &Node<'_, '_>) -> Result<Self, Stop> {
        let words = node.words(alloc)?;
        let text = Text::copy_of(alloc, trimmed(words.as_str()))?;
        Ok(text)
    }
}

impl FromNode for u32 {
    ghost says = { spec.numbered };

    /// Reads the number that is an element's text.
    fn from_node(alloc: Global, node: &Node<'_, '_>) -> Result<Self, Stop> {
        let words = node.words(alloc)?;
        number(trimmed(words.as_str()))
    }
}
