//! Reads the pieces of a document that mean something: no comment, no processing instruction and no search table.

ghost use Rattle.std.specs.Prelude.{◌≡◌, ◌++◌, List, map, IfOk, IfErr, OnOk};
ghost use Rattle.droid_xml.specs.Documents.{IsDocument};
ghost use Rattle.droid_xml.specs.Pieces.{Part};
ghost use Rattle.droid_xml.specs.Views.{IsFaultOf, IsMemory, part};
ghost use Rattle.droid_signature_file.specs.Tables.{kept_piece, meaningful};

use crate::search_tables::{depth_behind, is_kept};
use droid_xml::{Fault, Piece, Reader};
use std::alloc::Global;

/// Reads the pieces of a document that mean something. Its line ends are line feeds. A problem anywhere in the document
/// is found, also in what is left out.
pub(crate) fn pieces_of(alloc: Global, text: &[u8]) -> Result<Vec<Piece<'_>>, Fault>
    ensures found { IfOk result (λ pieces.
        (parts : List Part) × IsDocument text.now parts × (map part pieces.items ≡ meaningful 0 parts)) }
    ensures fault { IfErr result (λ fault. IsFaultOf text.now fault) }
{
    let mut reader = Reader::new(alloc, text)?;
    let mut pieces = Vec::new(alloc);
    let mut depth = 0;
    // The prover asks for a bound. No document has as many pieces.
    for _ in 0..u64::MAX {
        match reader.next(alloc) {
            Ok(Some(piece)) => {
                let behind = depth_behind(depth, &piece);
                add_kept(&mut pieces, depth, piece)?;
                depth = behind;
            }
            Ok(None) => return Ok(pieces),
            Err(fault) => return Err(fault),
        }
    }
    Err(Fault::Memory)
}

/// Adds a piece, if it is kept where `depth` elements are open in a search table.
fn add_kept<'a>(pieces: &mut Vec<Piece<'a>>, depth: u64, piece: Piece<'a>) -> Result<(), Fault>
    ensures added { OnOk result
        (map part pieces.new.items ≡ map part pieces.old.items ++ kept_piece depth (part piece.entry)) }
    ensures fault { IfErr result IsMemory }
{
    if is_kept(depth, &piece) {
        pieces.push(piece)?;
    }
    Ok(())
}
