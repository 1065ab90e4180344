//! The versions of frames, and the longest body of each.

ghost use Rattle.std.specs.Prelude.{◌≡◌, ◌↔◌, ◌≤◌, IsTrue};
ghost use Rattle.droid_frame.specs.Limits.{body_limit};
ghost use Rattle.droid_frame.specs.Versions.{IsVersion};

/// Returns whether this is a version of frames: 1 or 2.
pub fn is_version(version: u8) -> bool
    ensures { IsTrue result ↔ IsVersion version }
{
    matches!(version, 1 | 2)
}

/// Returns the limit on a frame's body in bytes: 1,048,640 in version 1, and 4,194,368 in version 2 (and for any other
/// number). Each is the largest piece, 1 MiB or 4 MiB, and 64 bytes. `specs/Limits.antt` has the same two; the prover
/// ties them, also to `least` and `most`.
pub fn body_limit(version: u8) -> usize
    ensures limit { result ≡ body_limit version }
    ensures least { 1048640 ≤ result }
    ensures most { result ≤ 4194368 }
{
    if version == 1 { 1_048_640 } else { 4_194_368 }
}
