//! Which pieces mean nothing: search tables, which a signature file has for programs that search, comments, and
//! processing instructions.

ghost use Rattle.std.specs.Prelude.{◌≡◌, ◌+◌, ◌<◌, ◌^◌};
ghost use Rattle.droid_xml.specs.Views.{part};
ghost use Rattle.droid_signature_file.specs.Tables as spec;

use droid_xml::Piece;

/// Returns whether elements of this name are search tables: `Shift` and `DefaultShift`.
pub(crate) fn is_table(name: &str) -> bool
    ensures { result ≡ spec.is_table name.now }
{
    name == "Shift" || name == "DefaultShift"
}

/// Returns how many elements are open in a search table behind a piece, the table itself included. Before it `depth`
/// were.
pub(crate) fn depth_behind(depth: u64, piece: &Piece<'_>) -> u64
    requires { depth + 1 < 2 ^ 64 }
    ensures { result ≡ spec.depth_behind depth (part piece.now) }
{
    match piece {
        Piece::Start(element) if element.is_empty => depth,
        Piece::Start(element) if depth > 0 || is_table(element.name) => depth + 1,
        Piece::End(_) => depth.saturating_sub(1),
        _ => depth,
    }
}

/// Returns whether a piece is kept, where `depth` elements are open in a search table.
pub(crate) fn is_kept(depth: u64, piece: &Piece<'_>) -> bool
    ensures { result ≡ spec.is_kept depth (part piece.now) }
{
    if depth > 0 {
        return false;
    }
    match piece {
        Piece::Start(element) => !is_table(element.name),
        Piece::Comment(_) | Piece::Instruction(_, _) => false,
        _ => true,
    }
}
