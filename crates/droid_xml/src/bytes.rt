//! What stands at the front of bytes, and what stands after it.

ghost use Rattle.std.specs.Prelude.{◌≡◌, ◌≤◌, length};
ghost use Rattle.std.specs.List.{position_or_len, prefix_len};
ghost use Rattle.std.specs.Option.{option_map};
ghost use Rattle.droid_xml.specs.Bytes.{after, cut_at, cut_at_byte, is_byte, is_space, past_spaces, past_some_space};

/// Returns what follows `front`, where the text begins with it. `None`: it begins otherwise.
#[tactic(auto, unfolding(crate::specs::Bytes::after))]
pub fn after<'a>(text: &'a [u8], front: &[u8]) -> Option<&'a [u8]>
    ensures { option_map (λ x. x.now) result ≡ after front.now text.now }
{
    if text.starts_with(front) {
        Some(&text[front.len()..])
    } else {
        None
    }
}

/// Returns what stands before the first `mark`, and what follows it. `None`: it stands nowhere.
pub fn cut_at<'a>(text: &'a [u8], mark: &[u8]) -> Option<(&'a [u8], &'a [u8])>
    ensures { option_map (λ x. (x.0.now, x.1.now)) result ≡ cut_at mark.now text.now }
{
    for place in 0..text.len() {
        match after(&text[place..], mark) {
            Some(rest) => return Some((&text[..place], rest)),
            None => {}
        }
    }
    None
}

/// Returns what stands before the first such byte, and what follows it. `None`: there is no such byte.
#[tactic(auto, unfolding(crate::specs::Bytes::cut_at_byte))]
pub fn cut_at_byte(text: &[u8], byte: u8) -> Option<(&[u8], &[u8])>
    ensures { option_map (λ x. (x.0.now, x.1.now)) result ≡ cut_at_byte byte text.now }
{
    let place = len_before(text, byte);
    if place < text.len() {
        Some((&text[..place], &text[place + 1..]))
    } else {
        None
    }
}

/// Counts the bytes before the first such byte: all of them, if there is none.
fn len_before(text: &[u8], byte: u8) -> usize
    ensures { result ≡ position_or_len (is_byte byte) text.now }
{
    for (place, other) in text.iter().enumerate() {
        if *other == byte {
            return place;
        }
    }
    text.len()
}

/// Returns whether the byte is XML's white space, which is ASCII alone.
pub fn is_space(byte: u8) -> bool
    ensures { result ≡ is_space byte }
{
    matches!(byte, b' ' | b'\t' | b'\r' | b'\n')
}

/// Counts the bytes of white space at the front.
fn space_len(text: &[u8]) -> usize
    ensures count { result ≡ prefix_len is_space text.now }
    ensures bound { result ≤ length text.now }
{
    for (place, byte) in text.iter().enumerate() {
        if !is_space(*byte) {
            return place;
        }
    }
    text.len()
}

/// Returns what follows the white space, of which there may be none.
#[tactic(auto, unfolding(crate::specs::Bytes::past_spaces))]
pub fn past_spaces(text: &[u8]) -> &[u8]
    ensures { result.now ≡ past_spaces text.now }
{
    &text[space_len(text)..]
}

/// Returns what follows white space that has to be there. `None`: the first byte is no white space.
#[tactic(auto, unfolding(crate::specs::Bytes::past_some_space, crate::specs::Bytes::past_spaces))]
pub fn past_some_space(text: &[u8]) -> Option<&[u8]>
    ensures { option_map (λ x. x.now) result ≡ past_some_space text.now }
{
    let length = space_len(text);
    if length > 0 {
        Some(&text[length..])
    } else {
        None
    }
}
