//! Cuts texts to a number of columns of a terminal. `width` and `columns_of` are those of the kit's `unicode_width`: a
//! wide character takes two columns, a combining mark none.

ghost use Rattle.std.specs.Prelude.{◌≡◌, ◌<◌, ◌≤◌, length, take, drop, IsUtf8, MatchOption};
ghost use Rattle.droid_terminal.specs.Cuts.{columns_of, IsEnd, IsFront};

use unicode_width::UnicodeWidthStr;

/// How many bytes a character has at most. `IsFront` and `IsEnd` name the same 4; the prover ties them to it.
const CHARACTER: usize = 4;

/// Returns the longest end of a text that fits these columns, among its last four bytes for each column: empty if none
/// fits. To try longer ends, with characters of no width, would take time.
pub(crate) fn end_within(text: &str, columns: usize) -> &str
    ensures { IsEnd text.now columns result.now }
{
    let from = text.len().saturating_sub(columns.saturating_mul(CHARACTER));
    for at in from..text.len() {
        if let Some(end) = end_from(text, at, columns) {
            return end;
        }
    }
    ""
}

/// Returns the text from its byte `from` on, or `None` if `from` is within a character or the rest does not fit the
/// columns.
fn end_from(text: &str, from: usize, columns: usize) -> Option<&str>
    ensures { from < length text.now
        → MatchOption result (IsUtf8 (drop from text.now) → columns < columns_of (drop from text.now)) (λ end.
        (end.now ≡ drop from text.now) × (columns_of end.now ≤ columns)) }
{
    let Some(end) = text.get(from..) else {
        return None;
    };
    if end.width() > columns {
        return None;
    }
    Some(end)
}

/// Returns the longest beginning of a text that fits these columns, among its first four bytes for each column: empty
/// if none fits.
pub(crate) fn front_within(text: &str, columns: usize) -> &str
    ensures { IsFront text.now columns result.now }
{
    let most = text.len().min(columns.saturating_mul(CHARACTER));
    for less in 0..most {
        if let Some(front) = front_of(text, most - less, columns) {
            return front;
        }
    }
    ""
}

/// Returns the first `count` bytes of the text, or `None` if they end within a character or do not fit the columns.
fn front_of(text: &str, count: usize, columns: usize) -> Option<&str>
    ensures { count ≤ length text.now
        → MatchOption result (IsUtf8 (take count text.now) → columns < columns_of (take count text.now)) (λ front.
        (front.now ≡ take count text.now) × (columns_of front.now ≤ columns)) }
{
    let Some(front) = text.get(..count) else {
        return None;
    };
    if front.width() > columns {
        return None;
    }
    Some(front)
}
