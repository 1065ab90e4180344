//! The extension of a file's name, in the letter case in which it stands there.

ghost use Rattle.std.specs.Prelude.{◌≡◌};
ghost use Rattle.droid_pronom.specs.Found.{extension_of};

use memchr::memrchr;

/// Returns the part of a name after its last dot. It is empty if there is no dot, or if the last dot is the first byte.
pub fn extension(name: &str) -> &str
    ensures { result.now ≡ extension_of name.now }
{
    match memrchr(b'.', name.as_bytes()) {
        Some(dot) if dot > 0 => &name[dot + 1..],
        _ => "",
    }
}
