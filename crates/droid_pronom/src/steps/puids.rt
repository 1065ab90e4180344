//! Whether any format was found, and the PUIDs of those that were. A flag at a format's place says whether it was.

ghost use Rattle.std.specs.Prelude.{◌≡◌, IfOk, length};
ghost use Rattle.std.specs.List.{list_any};
ghost use Rattle.droid_pronom.specs.Found.{Chosen};
ghost use Rattle.droid_pronom.specs.FoundWindows.{Stands};

use crate::format::Format;
use droid_frame::Texts;
use std::alloc::{AllocError, Global};

/// Returns the PUIDs of the formats whose flags are set, in the order of the formats.
pub fn puids_of(alloc: Global, formats: &[Format], flags: &[bool]) -> Result<Texts, AllocError>
    requires { length flags.now ≡ length formats.now }
    ensures { IfOk result (λ puids. Chosen (Stands flags.now) 0 formats.now puids) }
{
    let mut puids = Texts::new(alloc);
    let none = !is_any_set(flags);
    // For speed; no clause needs it.
    if none {
        return Ok(puids);
    }
    for (place, format) in formats.iter().enumerate() {
        if flags[place] {
            puids.push(format.puid.try_clone(alloc)?)?;
        }
    }
    Ok(puids)
}

/// Returns whether at least one flag is set. Two callers spare themselves further work if none is.
pub fn is_any_set(flags: &[bool]) -> bool
    ensures { result ≡ list_any (λ flag. flag) flags.now }
{
    flags.iter().any(|flag| *flag)
}
