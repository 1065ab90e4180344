//! The names of the kinds of text and of hashes, which lines, CSV and JSON share.

ghost use Rattle.std.specs.Prelude.{◌≡◌};
ghost use Rattle.droid_cmd_identify.specs.Lines.{hash_name, kind_name};

use droid_frame::HashKind;
use droid_identity::TextKind;

/// Returns the name of a kind of text. Both orders of the bytes of UTF-16 have one name.
#[tactic(auto, unfolding(crate::specs::Lines::kind_name))]
pub fn kind_name(kind: TextKind) -> &'static str
    ensures { result.now ≡ kind_name kind }
{
    match kind {
        TextKind::Ascii => "ASCII",
        TextKind::Utf8 => "UTF-8",
        TextKind::Utf16Little | TextKind::Utf16Big => "UTF-16",
    }
}

/// Returns the name of a hash. That of `Nothing` is printed nowhere.
pub fn hash_name(kind: HashKind) -> &'static str
    ensures { result.now ≡ hash_name kind }
{
    match kind {
        HashKind::Nothing => "none",
        HashKind::Md5 => "md5",
        HashKind::Sha256 => "sha256",
    }
}
