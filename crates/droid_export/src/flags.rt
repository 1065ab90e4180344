//! The flags of a filter's criteria, one for each at its place, which look-ups in an index set: the record meets the
//! criterion.

ghost use Rattle.std.specs.Prelude.{◌≡◌, ◌||◌, ◌<◌, ◌==◌, ℕ, false, get_or, length};
ghost use Rattle.std.specs.List.{list_any};
ghost use Rattle.droid_export.specs.Index.{names};

use crate::index::{Places, places_of};
use droid_frame::Texts;

/// Sets the flag of each criterion whose list has one of these texts, as the index `named` says. Other flags stay.
pub(crate) fn mark_all(flags: &mut [bool], named: &Places, texts: &Texts)
    ensures length { length flags.new ≡ length flags.old }
    ensures marked { (at : ℕ) → at < length flags.old
        → get_or flags.new at false
        ≡ (get_or flags.old at false || list_any (λ text. names named.now text at) texts.now) }
{
    let items = texts.as_slice();
    for text in items {
        mark(flags, places_of(named, text.as_str()));
    }
}

/// Sets the flags at these places. Places behind the last flag are passed over.
pub(crate) fn mark(flags: &mut [bool], places: &[usize])
    ensures length { length flags.new ≡ length flags.old }
    ensures marked { (at : ℕ) → at < length flags.old
        → get_or flags.new at false ≡ (get_or flags.old at false || list_any (λ place. place == at) places.now) }
{
    for place in places {
        set_flag(flags, *place);
    }
}

/// Sets the flag at a place, if there is a flag.
fn set_flag(flags: &mut [bool], place: usize)
    ensures length { length flags.new ≡ length flags.old }
    ensures marked { (at : ℕ) → at < length flags.old
        → get_or flags.new at false ≡ (get_or flags.old at false || (place == at)) }
{
    if place >= flags.len() {
        return;
    }
    flags[place] = true;
}
