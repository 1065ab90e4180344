//! Reads the elements of signatures, with their byte sequences, subsequences and fragments.

ghost use Rattle.std.specs.Prelude.{◌≡◌};
ghost use Rattle.std.specs.Option.{option_map};
ghost use Rattle.droid_signature_file.specs.Outcomes.{Gives, node_of};
ghost use Rattle.droid_signature_file.specs.Signatures as spec;

use crate::fault::{Stop, Wrong};
use crate::from_node::{FromNode, read_each};
use crate::node::Node;
use crate::numbers::{optional, wanted};
use crate::sequence::{Reference, SequenceRecord};
use crate::signature::InternalSignature;
use crate::subsequence::{Fragment, OffsetRange, SubSequence};
use droid_frame::Text;
use std::alloc::Global;

impl FromNode for InternalSignature {
    ghost says = { spec.signature };

    /// Reads an `InternalSignature`: its `ID`, which has to be there, and its byte sequences.
    #[tactic(auto, unfolding(crate::specs::Signatures::signature))]
    fn from_node(alloc: Global, node: &Node<'_, '_>) -> Result<Self, Stop> {
        let id = wanted(node.value("ID"))?;
        let sequences = read_each(alloc, node, "ByteSequence")?;
        Ok(InternalSignature::new(id, sequences))
    }
}

impl FromNode for SequenceRecord {
    ghost says = { spec.byte_sequence };

    /// Reads a `ByteSequence`: its `Reference`, which may be missing, and its subsequences.
    #[tactic(auto, unfolding(crate::specs::Signatures::byte_sequence))]
    fn from_node(alloc: Global, node: &Node<'_, '_>) -> Result<Self, Stop> {
        let reference = reference(node.value("Reference"));
        let parts = read_each(alloc, node, "SubSequence")?;
        Ok(SequenceRecord::new(reference, parts))
    }
}

/// Reads from where offsets count: the attribute `Reference`.
fn reference(value: Option<&str>) -> Reference
    ensures { result ≡ spec.reference (option_map (λ text. text.now) value.entry) }
{
    let Some(text) = value else {
        return Reference::Other;
    };
    if text == "BOFoffset" {
        Reference::Beginning
    } else if text == "EOFoffset" {
        Reference::End
    } else {
        Reference::Other
    }
}

impl FromNode for SubSequence {
    ghost says = { spec.sub_sequence };

    /// Reads a `SubSequence`: its `Position` and its one `Sequence`, which have to be there, its offsets, which may be
    /// missing, and its fragments.
    #[tactic(auto, unfolding(crate::specs::Signatures::sub_sequence))]
    fn from_node(alloc: Global, node: &Node<'_, '_>) -> Result<Self, Stop> {
        let position = wanted(node.value("Position"))?;
        let range = offsets(node, "SubSeqMinOffset", "SubSeqMaxOffset")?;
        let text = only_sequence(alloc, node)?;
        let left = read_each(alloc, node, "LeftFragment")?;
        let right = read_each(alloc, node, "RightFragment")?;
        Ok(SubSequence::new(position, range, text, left, right))
    }
}

/// Reads the text of the one `Sequence` of a `SubSequence`. None or several are wrong.
#[tactic(auto, unfolding(crate::specs::Signatures::only_sequence))]
fn only_sequence(alloc: Global, node: &Node<'_, '_>) -> Result<Text, Stop>
    ensures { Gives (λ text. text) result (spec.only_sequence (node_of node.now)) }
{
    let texts = read_each(alloc, node, "Sequence")?;
    let text = only(texts)?;
    Ok(text)
}

/// Returns the text if there is exactly one. Otherwise its `SubSequence` is wrong.
fn only(texts: Vec<Text>) -> Result<Text, Stop>
    ensures { Gives (λ text. text) result (spec.only texts.items) }
{
    let mut texts = texts;
    if texts.len() != 1 {
        return Err(Stop::Wrong(Wrong::Sequence));
    }
    match texts.pop() {
        Some(text) => Ok(text),
        None => Err(Stop::Wrong(Wrong::Sequence)),
    }
}

impl FromNode for Fragment {
    ghost says = { spec.fragment };

    /// Reads a `LeftFragment` or a `RightFragment`: its `Position`, which has to be there, its offsets, which may be
    /// missing, and its text.
    #[tactic(auto, unfolding(crate::specs::Signatures::fragment))]
    fn from_node(alloc: Global, node: &Node<'_, '_>) -> Result<Self, Stop> {
        let position = wanted(node.value("Position"))?;
        let offsets = offsets(node, "MinOffset", "MaxOffset")?;
        let text = Text::from_node(alloc, node)?;
        Ok(Fragment {
            position,
            offsets,
            text,
        })
    }
}

/// Reads two offsets, by the names of their attributes, each of which may be missing.
#[tactic(auto, unfolding(crate::specs::Signatures::offsets))]
fn offsets(node: &Node<'_, '_>, min: &str, max: &str) -> Result<OffsetRange, Stop>
    ensures { Gives (λ it. it) result (spec.offsets min.now max.now (node_of node.now)) }
{
    let min = optional(node.value(min))?;
    let max = optional(node.value(max))?;
    Ok(OffsetRange { min, max })
}
