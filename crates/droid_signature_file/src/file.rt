//! Reads a whole signature file: from bytes to pieces, from pieces to the root, from the root to records.

ghost use Rattle.std.specs.Prelude.{map};
ghost use Rattle.droid_xml.specs.LineEnds.{with_line_feeds};
ghost use Rattle.droid_xml.specs.Views.{part};
ghost use Rattle.droid_signature_file.specs.Outcomes.{Gives, Reads, ReadsText, node_of};
ghost use Rattle.droid_signature_file.specs.Signatures as spec;

use crate::fault::{FileFault, Stop, Wrong};
use crate::format_elements::or_empty;
use crate::from_node::read_collected;
use crate::node::{Node, first_node};
use crate::pieces::pieces_of;
use crate::tally::{Tally, unknown_names};
use crate::whole_file::SignatureFile;
use droid_xml::{Fault, Piece, with_line_feeds};
use std::alloc::Global;

/// Reads a signature file.
///
/// `Document` comes where the bytes are no XML document without a document type declaration, `NotASignatureFile` where
/// they are one, but not of a signature file. Search tables, comments and processing instructions are passed over, and
/// names that are not known are counted: an unknown element with all in it once.
pub fn read(alloc: Global, bytes: &[u8]) -> Result<SignatureFile, FileFault>
    ensures { Reads bytes.now result }
{
    match with_line_feeds(alloc, bytes) {
        Ok(Some(made)) => read_text(alloc, made.as_slice()),
        Ok(None) => read_text(alloc, bytes),
        Err(_) => Err(FileFault::Memory),
    }
}

/// Reads a signature file whose line ends are line feeds. A problem of the document comes before anything that is wrong
/// with its elements.
fn read_text(alloc: Global, text: &[u8]) -> Result<SignatureFile, FileFault>
    ensures { ReadsText text.now result }
{
    let pieces = match pieces_of(alloc, text) {
        Ok(pieces) => pieces,
        Err(Fault::Memory) => return Err(FileFault::Memory),
        Err(Fault::Problem { problem, line }) => {
            return Err(FileFault::Document { problem, line });
        }
    };
    match said(alloc, pieces.as_slice()) {
        Ok(file) => Ok(file),
        Err(Stop::Memory) => Err(FileFault::Memory),
        Err(Stop::Wrong(wrong)) => Err(FileFault::NotASignatureFile(wrong)),
    }
}

/// Makes the file of a document's pieces, those that mean something. `Wrong::Root`: the root has another name. All else
/// that can be wrong stands in the root.
fn said(alloc: Global, pieces: &[Piece<'_>]) -> Result<SignatureFile, Stop>
    ensures { Gives (λ it. it) result (spec.said (map part pieces.entry.now)) }
{
    let Some((root, _)) = first_node(pieces) else {
        return Err(Stop::Wrong(Wrong::Root));
    };
    if root.element.name != "FFSignatureFile" {
        return Err(Stop::Wrong(Wrong::Root));
    }
    let found = unknown_names(alloc, pieces)?;
    let file = file(alloc, found, &root)?;
    Ok(file)
}

/// Reads what the root of a signature file says: its attributes, signatures and formats. `found` are the unknown names,
/// which were counted before.
#[tactic(auto, unfolding(crate::specs::Signatures::file))]
fn file(alloc: Global, found: Tally, root: &Node<'_, '_>) -> Result<SignatureFile, Stop>
    ensures { Gives (λ it. it) result (spec.file found (node_of root.now)) }
{
    let version = or_empty(alloc, root.value("Version"))?;
    let created = or_empty(alloc, root.value("DateCreated"))?;
    let signatures = read_collected(
        alloc,
        root,
        "InternalSignatureCollection",
        "InternalSignature",
    )?;
    let formats = read_collected(alloc, root, "FileFormatCollection", "FileFormat")?;
    Ok(SignatureFile::new(
        version,
        created,
        signatures,
        formats,
        found.names,
        found.unlisted,
    ))
}
