//! Numbers in a profile's text: reads them, compares them, and checks their limits.

ghost use Rattle.std.specs.Prelude.{◌≡◌, [], IfOk, bytes_eq};
ghost use Rattle.std.specs.Fmt.{decimal};
ghost use Rattle.droid_export.specs.Rows.{parent_text};
ghost use Rattle.droid_lists.specs.RowTests as tests;

use droid_export::number_of;
use itoa::Buffer;

/// Reads a number as an export writes it: decimal digits without a zero in front, below 2^64. `None` for any other
/// text.
#[tactic(auto, unfolding(crate::specs::RowTests::number_of))]
pub(crate) fn plain_number(text: &[u8]) -> Option<u64>
    ensures { result ≡ tests.number_of text.now }
{
    match number_of(text) {
        Some(number) => {
            if is_decimal(text, number) {
                Some(number)
            } else {
                None
            }
        }
        None => None,
    }
}

/// Returns whether a text is this number in decimal digits, without a zero in front.
pub(crate) fn is_decimal(text: &[u8], number: u64) -> bool
    ensures { result ≡ bytes_eq text.now (decimal number) }
{
    let mut digits = Buffer::new();
    text == digits.format(number).as_bytes()
}

/// Returns whether a text is the PARENT_ID of an entry whose folder has this ID; no text is, if there is no folder.
pub(crate) fn is_parent(text: &[u8], parent: Option<u64>) -> bool
    ensures { result ≡ tests.is_parent text.now parent }
{
    match parent {
        Some(id) => is_parent_text(text, id),
        None => false,
    }
}

/// Returns whether a text is this PARENT_ID: nothing stands for 0, the top.
pub(crate) fn is_parent_text(text: &[u8], id: u64) -> bool
    ensures { result ≡ bytes_eq text.now (parent_text id) }
{
    let nothing: &[u8] = b"";
    if id == 0 {
        text == nothing
    } else {
        is_decimal(text, id)
    }
}

/// Returns whether an ID follows the last one, and is at most 100,000, the number of entries that a profile may have.
/// The definition has the number too, and the prover compares both; it is that of a service and of `NODE_LIMIT` of
/// `droid_tree`.
pub(crate) fn is_next(last: u64, number: Option<u64>) -> bool
    ensures { result ≡ tests.is_next last number }
{
    match number {
        Some(number) => last < number && number <= 100_000,
        None => false,
    }
}

/// Returns whether there is a number, and it is at most `most`.
fn is_at_most(most: u64, number: Option<u64>) -> bool
    ensures { result ≡ tests.is_at_most most number }
{
    match number {
        Some(number) => number <= most,
        None => false,
    }
}

/// Returns whether a text is the size of a file: at most 2^40 bytes, as a service takes it (`droid_core`).
pub(crate) fn is_size(text: &[u8]) -> bool
    ensures { result ≡ tests.is_size text.now }
{
    is_at_most(1_099_511_627_776, plain_number(text))
}

/// Returns whether a text is a number of formats: at most 4,096, as a registry has them (`FORMATS_LIMIT` of
/// `droid_pronom`).
pub(crate) fn is_count(text: &[u8]) -> bool
    ensures { result ≡ tests.is_count text.now }
{
    is_at_most(4096, plain_number(text))
}
