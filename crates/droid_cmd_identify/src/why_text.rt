//! The answer to `--why`: why a file does not have a format, or what shows it.

ghost use Rattle.std.specs.Prelude.{◌≡◌, ◌≤◌, length};

use crate::ends::FileEnds;
use crate::forms::why_lines::{BeatenLine, TriedLine, UnsignedLine};
use droid_identity::doubt_of;
use droid_pronom::Registry;
use std::alloc::{AllocError, Global};

/// Returns the lines that say why a file of these ends, which is printed under the path `shown`, does not have the
/// format at this place of the registry, or what shows it: a line for each of the format's signatures, with the matches
/// of its byte sequences, or one that says that it has none; and a line for each format that the file has and that has
/// priority over it. Returns an empty text if the registry has no such place. No clause holds the lines; `test_why` of
/// `tests/program/identify/forms.py` does.
pub(crate) fn why_text(
    alloc: Global,
    registry: &Registry,
    ends: &FileEnds,
    shown: &str,
    place: u32,
) -> Result<String, AllocError> {
    let mut text = String::new(alloc);
    let Some(format) = registry.format(place) else {
        return Ok(text);
    };
    let puid = format.puid.as_str();
    let first = window(ends.first());
    let last = window(ends.last());
    let doubt = doubt_of(alloc, registry, place, first, last)?;
    if doubt.trials.is_empty() {
        let line = format!(in alloc; "{}", UnsignedLine { path: shown, puid })?;
        text.push_str(line.as_str())?;
    }
    for trial in &doubt.trials {
        let line = TriedLine {
            path: shown,
            puid,
            number: trial.signature,
            matches: trial.matches.as_slice(),
        };
        let line = format!(in alloc; "{line}")?;
        text.push_str(line.as_str())?;
    }
    for place in &doubt.beaters {
        if let Some(other) = registry.format(*place) {
            let line = BeatenLine {
                path: shown,
                puid,
                by: other.puid.as_str(),
            };
            let line = format!(in alloc; "{line}")?;
            text.push_str(line.as_str())?;
        }
    }
    Ok(text)
}

/// Returns the first 65,536 of these bytes. These are all, since `telling` of `machine.rt` caps how many bytes of each
/// end are read. But no clause says so of `ends`, and `doubt_of` requires it.
fn window(bytes: &[u8]) -> &[u8]
    ensures few { length result.now ≤ 65536 }
    ensures same { length bytes.now ≤ 65536 → result.now ≡ bytes.now }
{
    &bytes[..bytes.len().min(65_536)]
}
