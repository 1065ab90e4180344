//! Writes the URI of a node.

ghost use Rattle.std.specs.Prelude.{◌≡◌, ◌++◌, IfOk, OnOk, string_bytes};
ghost use Rattle.droid_export.specs.Uris as uris;

use droid_frame::{NodeKind, Text};
use percent_encoding::{AsciiSet, NON_ALPHANUMERIC, ascii_set, percent_encode};
use std::alloc::{AllocError, Global};

/// The ASCII bytes of a path that are escaped. Every byte that is not ASCII is escaped too.
const ESCAPED: AsciiSet = ascii_set!(
    NON_ALPHANUMERIC
        .remove(b'-')
        .remove(b'.')
        .remove(b'_')
        .remove(b'~')
        .remove(b'/')
);

/// Writes the URI of a node with this path: `file:` and the path, percent-encoded (RFC 3986, section 2).
///
/// ASCII letters, digits, `-`, `.`, `_`, `~` and `/` stay. Every other byte is written as `%` and two upper-case
/// hexadecimal digits. The URI of a folder ends in `/`. Fails only if memory runs out. The text is allocated once, with
/// room for three bytes for each byte of the path, and six for `file:` and the `/`; no clause holds the room.
pub fn uri(alloc: Global, path: &str, kind: NodeKind) -> Result<Text, AllocError>
    ensures { IfOk result (λ text. text ≡ uris.uri path.now kind) }
{
    let room = path.len().saturating_mul(3).saturating_add(6);
    let mut text = String::with_capacity(alloc, room)?;
    add_uri(&mut text, path, kind)?;
    Ok(Text::from(text))
}

/// Appends the URI that [`uri`] returns. After an error nothing is promised of `text`: `uri` drops it, and `add_rows`
/// clears it first.
pub(crate) fn add_uri(text: &mut String, path: &str, kind: NodeKind) -> Result<(), AllocError>
    ensures { OnOk result (string_bytes text.new ≡ string_bytes text.old ++ uris.uri path.now kind) }
{
    text.push_str("file:")?;
    percent_encode(path.as_bytes(), ESCAPED).append_to(text)?;
    text.push_str(uri_end(kind))?;
    Ok(())
}

/// Returns the end of the URI of a node of this kind.
fn uri_end(kind: NodeKind) -> &'static str
    ensures { result.now ≡ uris.uri_end kind }
{
    match kind {
        NodeKind::File => "",
        NodeKind::Folder => "/",
    }
}
