//! Writers of texts, each after its length in one byte: the lists of a filter, and the identifiers of a Finished. After
//! an error, which is out of memory, `out` may have some of the bytes; the callers drop it.

ghost use Rattle.std.specs.Prelude.{◌≡◌, ◌≤◌, ◌++◌, OnOk, length};
ghost use Rattle.std.specs.List.{AllByRecursion};
ghost use Rattle.std.specs.Str.{IsUtf8};
ghost use Rattle.droid_frame.specs.TextLists.{sized_bytes, texts_bytes};

use crate::text::Text;
use crate::texts::Texts;
use std::alloc::AllocError;

/// Appends the texts, each after its length.
pub(crate) fn append_texts(out: &mut Vec<u8>, texts: &Texts) -> Result<(), AllocError>
    requires { AllByRecursion (λ text. length text ≤ 255) texts.now }
    ensures added { OnOk result (out.new.items ≡ out.old.items ++ texts_bytes texts.now) }
    ensures utf8 { OnOk result (AllByRecursion IsUtf8 texts.now) }
{
    for text in texts.as_slice() {
        append_text(out, text)?;
    }
    Ok(())
}

/// Appends a text behind its length in one byte, so it has at most 255 bytes.
fn append_text(out: &mut Vec<u8>, text: &Text) -> Result<(), AllocError>
    requires { length text.now ≤ 255 }
    ensures added { OnOk result (out.new.items ≡ out.old.items ++ sized_bytes text.now) }
    ensures utf8 { OnOk result (IsUtf8 text.now) }
{
    let bytes = text.as_str().as_bytes();
    out.push(bytes.len() as u8)?;
    out.extend_from_slice(bytes)?;
    Ok(())
}
