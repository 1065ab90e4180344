//! The text of the last export, kept for its further parts.

ghost use Rattle.std.specs.Prelude.{◌≡◌, None, Some, true, false, IfSome, IsSome, length};
ghost use Rattle.droid_core.specs.KeptTexts.{IsFor, bytes_in, leaves_more};
ghost use Rattle.droid_core.specs.declared.queries.kept_text.KeptText.{KeptText as Kept};

use crate::queries::same_filters::are_same_filters;
use droid_frame::{Blob, Filter};

/// A longer text is not kept: 256 MiB. It is the `2 ^ 28` of `specs/KeptTexts.antt`; the prover refuses another number
/// here. docs/DECISIONS has it too.
const MOST_KEPT: usize = 268_435_456;

/// The text of an export of a profile by a filter. It is kept until a command is accepted, or an export by another
/// filter or of another profile makes its own text.
#[derive(Drop)]
pub struct KeptText {
    profile: u32,
    filter: Filter,
    text: Blob,
}

/// Returns the kept text if it is of this profile and by this filter, otherwise `None`.
pub fn text_for<'a>(last: &'a Option<KeptText>, profile: u32, filter: &Filter) -> Option<&'a Blob>
    ensures its { IfSome result (λ text. IsFor profile filter.now last.now) }
    ensures text { IfSome result (λ text. text.now ≡ bytes_in last.now) }
    ensures found { IsFor profile filter.now last.now → IsSome result }
{
    let kept = last.as_ref()?;
    if kept.profile != profile {
        return None;
    }
    if !are_same_filters(&kept.filter, filter) {
        return None;
    }
    Some(&kept.text)
}

/// Keeps the text in the place of another if this part, of at most `max` bytes from `from` on, leaves something of it
/// unread and it is not too long. Otherwise no text is kept. Takes no memory.
pub fn keep_text(
    last: &mut Option<KeptText>,
    profile: u32,
    filter: Filter,
    text: Blob,
    from: u64,
    max: u32,
)
    ensures kept { leaves_more (length text) from max ≡ true
        → last.new ≡ Some (record { profile = profile; filter = filter; text = text }) }
    ensures only { leaves_more (length text) from max ≡ false → last.new ≡ None }
{
    *last = None;
    let total = text.len();
    if total > MOST_KEPT {
        return;
    }
    let rest = total.saturating_sub(from as usize);
    if rest <= max as usize {
        return;
    }
    *last = Some(KeptText {
        profile,
        filter,
        text,
    });
}

/// Forgets the kept text, if there is one, and frees its memory: an accepted command made it out of date, or another
/// takes its place.
pub fn forget_text(last: &mut Option<KeptText>)
    ensures { last.new ≡ None }
{
    *last = None;
}
