//! Takes the fronts off the paths of a list that its folder's paths do not have: `./`, and in a bag `data/`.

ghost use Rattle.std.specs.Prelude.{◌≡◌};
ghost use Rattle.std.specs.Option.{option_map};
ghost use Rattle.droid_fixity.specs.FilePaths as paths;

use crate::checksum_lists::form::ManifestForm;

/// Returns what the path of a line is below the folder: without `./` in front, and in a bag without the `data/` behind
/// that. `None` if a bag's path is not below `data`.
pub(crate) fn below(form: ManifestForm, text: &[u8]) -> Option<&[u8]>
    ensures { option_map (λ rest. rest.now) result ≡ paths.below form text.now }
{
    let text = without_dot(text);
    match form {
        ManifestForm::Checksums => Some(text),
        ManifestForm::Bag => behind(b"data/".as_slice(), text),
    }
}

/// Returns a path without the `./` in front, if it has one. One alone is taken off.
fn without_dot(text: &[u8]) -> &[u8]
    ensures { result.now ≡ paths.without_dot text.now }
{
    match behind(b"./".as_slice(), text) {
        Some(rest) => rest,
        None => text,
    }
}

/// Returns what stands behind the text `front`, or `None` if `text` does not begin with it. Lines and whole texts are
/// read by it, too.
pub(crate) fn behind<'a>(front: &[u8], text: &'a [u8]) -> Option<&'a [u8]>
    ensures { option_map (λ rest. rest.now) result ≡ paths.behind front.now text.now }
{
    match text.split_at_checked(front.len()) {
        Some((first, rest)) => { if first == front { Some(rest) } else { None } }
        None => None,
    }
}
