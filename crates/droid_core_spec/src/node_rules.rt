//! The rules for a node's name and moment, as code: the service refuses what breaks them, and who reads a folder skips
//! it. `specs/Conditions.antt` has the same rules; the prover ties each number here to it.

ghost use Rattle.std.specs.Prelude.{◌≡◌};
ghost use Rattle.std.specs.List.{list_any};
ghost use Rattle.droid_core_spec.specs.Conditions.{is_bad_name, is_moment, is_separator};

/// Returns whether a node can't have this name: it is empty, over 255 bytes, `.` or `..`, or has a `/` or a zero byte.
/// It is the name alone, without its path. The service answers BadName then.
#[tactic(auto, using(crate::proofs::Meanings::bad_name_is))]
pub fn is_bad_name(name: &str) -> bool
    ensures { result ≡ is_bad_name name.now }
{
    name.is_empty()
        || name.len() > 255
        || name == "."
        || name == ".."
        || has_separator(name.as_bytes())
}

/// Returns whether the bytes of a name have a `/`, which parts names in a path, or a zero byte, which ends it.
fn has_separator(name: &[u8]) -> bool
    ensures { result ≡ list_any is_separator name.now }
{
    name.iter().any(|byte| *byte == b'/' || *byte == 0)
}

/// Returns whether a moment, in seconds since 1970-01-01T00:00:00 UTC, lies from 0001-01-01T00:00:00 to
/// 9999-12-31T23:59:59: the moments whose year has four digits. The service answers BadOption otherwise.
#[tactic(auto, using(crate::proofs::Meanings::moment_is))]
pub fn is_moment(seconds: i64) -> bool
    ensures { result ≡ is_moment seconds }
{
    !(seconds < -62_135_596_800) && !(253_402_300_799 < seconds)
}
