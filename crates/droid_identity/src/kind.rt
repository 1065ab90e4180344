//! How a file is written that is plain text: whether its first and last bytes are ASCII, UTF-8 or UTF-16, and which of
//! these is named. `specs/TextKinds.antt` defines each test under the same name.

ghost use Rattle.std.specs.Prelude.{◌≡◌, ◌==◌, ◌≤◌, length};
ghost use Rattle.droid_identity.specs.TextKinds.{byte_kind, is_ascii_file, is_utf16_file, is_utf8_file, text_kind};
ghost use Rattle.droid_identity.specs.TextKinds.{utf16_kind};

use crate::ascii::is_ascii_text;
use crate::units::{Order, is_back, is_units, order_of};
use crate::utf8::{is_utf8_back, is_utf8_front, is_utf8_text};

/// How plain text is written.
#[derive(Clone, Copy)]
pub enum TextKind {
    /// ASCII alone.
    Ascii,
    /// UTF-8 with a character that is not ASCII.
    Utf8,
    /// UTF-16 with the lower byte first, after a mark that says so.
    Utf16Little,
    /// UTF-16 with the higher byte first, after a mark that says so.
    Utf16Big,
}

/// Returns how a file of this size is written if it is plain text, by its first and last bytes.
///
/// `first` and `last` have the same length; of a file that is not longer they are all its bytes. Text has at least one
/// byte, and no control character but tab, line feed, form feed and carriage return. UTF-16 needs a mark. Of a longer
/// file a character may be cut off where the first bytes end and the last ones begin.
#[tactic(auto, unfolding(crate::specs::TextKinds::text_kind))]
pub fn text_kind(first: &[u8], last: &[u8], size: u64) -> Option<TextKind>
    requires same { length first.now ≡ length last.now }
    requires inside { length last.now ≤ size }
    ensures { result ≡ text_kind first.now last.now size }
{
    if first.is_empty() {
        return None;
    }
    match order_of(first) {
        Some(order) => utf16_kind(order, first, last, size),
        None => byte_kind(first, last, size),
    }
}

/// Returns the kind of a file that begins with the mark of this order, or `None` if it is not UTF-16.
#[tactic(auto, unfolding(crate::specs::TextKinds::utf16_kind))]
fn utf16_kind(order: Order, first: &[u8], last: &[u8], size: u64) -> Option<TextKind>
    requires same { length first.now ≡ length last.now }
    requires inside { length last.now ≤ size }
    ensures { result ≡ utf16_kind order first.now last.now size }
{
    if !is_utf16_file(order, first, last, size) {
        return None;
    }
    match order {
        Order::Big => Some(TextKind::Utf16Big),
        Order::Little => Some(TextKind::Utf16Little),
    }
}

/// Returns the kind of a file that begins with no mark of UTF-16, or `None` if it is no text. ASCII is UTF-8 too, so it
/// is tried first.
#[tactic(auto, unfolding(crate::specs::TextKinds::byte_kind))]
fn byte_kind(first: &[u8], last: &[u8], size: u64) -> Option<TextKind>
    ensures { result ≡ byte_kind first.now last.now size }
{
    if is_ascii_file(first, last, size) {
        return Some(TextKind::Ascii);
    }
    if is_utf8_file(first, last, size) {
        return Some(TextKind::Utf8);
    }
    None
}

/// Returns whether these first bytes are all bytes of the file: then no character is cut off.
fn are_all(first: &[u8], size: u64) -> bool
    ensures { result ≡ (length first.now == size) }
{
    first.len() as u64 == size
}

/// Returns whether the file's first and last bytes are ASCII text.
#[tactic(auto, unfolding(crate::specs::TextKinds::is_ascii_file))]
fn is_ascii_file(first: &[u8], last: &[u8], size: u64) -> bool
    ensures { result ≡ is_ascii_file first.now last.now size }
{
    is_ascii_text(first) && (are_all(first, size) || is_ascii_text(last))
}

/// Returns whether the file's first and last bytes are UTF-8 text. In a longer file a character may be cut off between
/// them.
#[tactic(auto, unfolding(crate::specs::TextKinds::is_utf8_file))]
fn is_utf8_file(first: &[u8], last: &[u8], size: u64) -> bool
    ensures { result ≡ is_utf8_file first.now last.now size }
{
    if are_all(first, size) {
        return is_utf8_text(first);
    }
    is_utf8_front(first) && is_utf8_back(last)
}

/// Returns whether the file's first and last bytes are UTF-16 text of this order. Units begin at even places of the
/// file; in a longer file a pair may be cut off between the first and the last bytes.
#[tactic(auto, unfolding(crate::specs::TextKinds::is_utf16_file))]
fn is_utf16_file(order: Order, first: &[u8], last: &[u8], size: u64) -> bool
    requires inside { length last.now ≤ size }
    ensures { result ≡ is_utf16_file order first.now last.now size }
{
    if are_all(first, size) {
        return is_units(order, false, false, first);
    }
    if !is_units(order, true, false, first) {
        return false;
    }
    let before = size - last.len() as u64;
    is_back(order, before % 2 == 1, last)
}
