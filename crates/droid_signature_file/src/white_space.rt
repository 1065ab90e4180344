//! Takes the white space off the texts of attributes and elements.

ghost use Rattle.std.specs.Prelude.{◌≡◌};
ghost use Rattle.droid_signature_file.specs.Signatures as spec;

/// Returns the text without the white space at both ends: ASCII's, of which XML has all but the form feed.
pub(crate) fn trimmed(text: &str) -> &str
    ensures { result.now ≡ spec.trimmed text.now }
{
    text.trim_ascii()
}
