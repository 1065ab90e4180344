//! Whether bytes are ASCII text, and which control characters text may have in any encoding.

ghost use Rattle.std.specs.Prelude.{◌≡◌};
ghost use Rattle.droid_identity.specs.TextKinds.{is_ascii_byte, is_ascii_text, is_usual};

/// Returns whether the code is one of the control characters that are usual in text: a tab, a line feed, a form feed or
/// a carriage return.
pub(crate) fn is_usual(code: u32) -> bool
    ensures { result ≡ is_usual code }
{
    code == 9 || code == 10 || code == 12 || code == 13
}

/// Returns whether the byte is ASCII, and no control character but a usual one.
fn is_ascii_byte(byte: u8) -> bool
    ensures { result ≡ is_ascii_byte byte }
{
    (byte >= 32 && byte <= 126) || is_usual(u32::from(byte))
}

/// Returns whether each byte may stand in ASCII text. No bytes are text.
#[tactic(auto, unfolding(crate::specs::TextKinds::is_ascii_text))]
pub(crate) fn is_ascii_text(bytes: &[u8]) -> bool
    ensures { result ≡ is_ascii_text bytes.now }
{
    bytes.iter().all(|byte| is_ascii_byte(*byte))
}
