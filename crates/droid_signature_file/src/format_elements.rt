//! Reads the element `FileFormat`, and the texts of attributes that may be missing.

ghost use Rattle.std.specs.Prelude.{◌≡◌, IfOk};
ghost use Rattle.std.specs.Option.{option_map};
ghost use Rattle.droid_signature_file.specs.Outcomes.{Gives, node_of};
ghost use Rattle.droid_signature_file.specs.Signatures as spec;

use crate::fault::Stop;
use crate::format::{FileFormat, FormatAttributes};
use crate::from_node::{FromNode, read_each};
use crate::node::Node;
use crate::numbers::wanted;
use droid_frame::Text;
use std::alloc::{AllocError, Global};

impl FromNode for FileFormat {
    ghost says = { spec.format };

    /// Reads a `FileFormat`. `Wrong::Number`: its `ID`, or the text of an ID in it, is no number.
    #[tactic(auto, unfolding(crate::specs::Signatures::format))]
    fn from_node(alloc: Global, node: &Node<'_, '_>) -> Result<Self, Stop> {
        let attributes = attributes(alloc, node)?;
        let signatures = read_each(alloc, node, "InternalSignatureID")?;
        let extensions = read_each(alloc, node, "Extension")?;
        let priorities = read_each(alloc, node, "HasPriorityOverFileFormatID")?;
        Ok(FileFormat::new(attributes, signatures, extensions, priorities))
    }
}

/// Reads the attributes of a `FileFormat`. Only `ID` has to be there.
#[tactic(auto, unfolding(crate::specs::Signatures::attributes))]
fn attributes(alloc: Global, node: &Node<'_, '_>) -> Result<FormatAttributes, Stop>
    ensures { Gives (λ it. it) result (spec.attributes (node_of node.now)) }
{
    let id = wanted(node.value("ID"))?;
    let puid = if_there(alloc, node.value("PUID"))?;
    let name = or_empty(alloc, node.value("Name"))?;
    let version = or_empty(alloc, node.value("Version"))?;
    let mime = or_empty(alloc, node.value("MIMEType"))?;
    Ok(FormatAttributes {
        id,
        puid,
        name,
        version,
        mime,
    })
}

/// Copies the value of an attribute, if it is there. Fails only if memory runs out.
fn if_there(alloc: Global, value: Option<&str>) -> Result<Option<Text>, AllocError>
    ensures { IfOk result (λ text. text ≡ option_map (λ text. text.now) value.entry) }
{
    match value {
        Some(text) => Ok(Some(Text::copy_of(alloc, text)?)),
        None => Ok(None),
    }
}

/// Copies the value of an attribute. One that is missing is empty. Fails only if memory runs out.
pub(crate) fn or_empty(alloc: Global, value: Option<&str>) -> Result<Text, AllocError>
    ensures { IfOk result (λ text. text ≡ spec.or_empty (option_map (λ text. text.now) value.entry)) }
{
    match value {
        Some(text) => Text::copy_of(alloc, text),
        None => Text::copy_of(alloc, ""),
    }
}
