//! Converts ASCII letters to lower case: extensions are compared so.

ghost use Rattle.std.specs.Prelude.{◌≡◌, IfOk};
ghost use Rattle.std.specs.Str.{str_to_ascii_lowercase};

use droid_frame::Text;
use std::alloc::{AllocError, Global};

/// Copies the text with its ASCII letters in lower case. Fails only if memory runs out.
pub fn lower_case(alloc: Global, text: &str) -> Result<Text, AllocError>
    ensures { IfOk result (λ lower. lower ≡ str_to_ascii_lowercase text.now) }
{
    let mut lower = String::from_str(alloc, text)?;
    lower.make_ascii_lowercase();
    Ok(Text::from(lower))
}
