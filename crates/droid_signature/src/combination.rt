//! The rows of a signature: for each way to choose one text for each byte sequence, one signature of the registry.

ghost use Rattle.std.specs.Prelude.{◌≡◌, ◌*◌, ◌<◌, ◌≤◌, ◌++◌, min, length, OnOk};
ghost use Rattle.std.specs.List.{flat_map};
ghost use Rattle.droid_signature.specs.Csv.{line};
ghost use Rattle.droid_signature_pattern.specs.Choices.{ways};
ghost use Rattle.droid_signature.specs.RegistryTables.{anchor_text};
ghost use Rattle.droid_signature.specs.Combinations.{further_fields, lines_below, pick, pick_fields, pick_rows, picks};

use crate::row_text::push_row;
use droid_pronom::Anchor;
use droid_signature_pattern::Choices;
use itoa::Buffer;
use std::alloc::AllocError;

/// Returns in how many ways one text of each can be chosen, or 2^64 - 1 if there are more. Of no byte sequence: 1.
pub(crate) fn ways(all: &[Choices]) -> usize
    ensures { result ≡ min (ways all.now) 18446744073709551615 }
{
    let mut count = 1;
    for choices in all {
        count = times(count, choices.texts.len());
    }
    count
}

/// Multiplies, but returns 2^64 - 1 where the product is larger.
fn times(count: usize, more: usize) -> usize
    ensures { result ≡ min (count * more) 18446744073709551615 }
{
    count.saturating_mul(more)
}

/// Appends the rows of the first `count` ways, of which the first byte sequence's changes slowest. The one caller
/// passes all ways. The 64 is `MOST_WAYS` of `choices.rt` of `droid_signature_pattern`: so few ways [`ways`] counts
/// exactly.
pub(crate) fn push_combinations(
    text: &mut Vec<u8>,
    puid: &str,
    all: &[Choices],
    count: usize,
) -> Result<(), AllocError>
    requires few { ways all.now ≤ 64 }
    requires count { count ≤ ways all.now }
    ensures { OnOk result (text.new.items ≡ text.old.items ++ lines_below puid.now all.now count) }
{
    for number in 0..count {
        push_combination(text, puid, all, number)?;
    }
    Ok(())
}

/// Appends the rows of the way with a number: a row `S` of its first byte sequence, a row `B` of each further one. For
/// no byte sequence it appends nothing. No divisor is 0, since there are more ways than the number.
fn push_combination(
    text: &mut Vec<u8>,
    puid: &str,
    all: &[Choices],
    number: usize,
) -> Result<(), AllocError>
    requires few { ways all.now ≤ 64 }
    requires number { number < ways all.now }
    ensures { OnOk result
        (text.new.items ≡ text.old.items ++ flat_map line (pick_rows puid.now (picks all.now number))) }
{
    match all.split_first() {
        Some((first, rest)) => {
            let block = ways(rest);
            push_pick(text, "S", puid, first, number / block)?;
            push_further(text, puid, rest, block, number % block)?;
        }
        None => {}
    }
    Ok(())
}

/// Appends the rows of further byte sequences, for the way with this number among their own. `block` is the number of
/// these ways. The number is taken apart like one in digits: each byte sequence has a digit, which is the place of its
/// text, and the first has the highest.
fn push_further(
    text: &mut Vec<u8>,
    puid: &str,
    rest: &[Choices],
    block: usize,
    number: usize,
) -> Result<(), AllocError>
    requires block { block ≡ ways rest.now }
    requires number { number < block }
    ensures { OnOk result
        (text.new.items ≡ text.old.items ++ flat_map line (further_fields puid.now (picks rest.now number))) }
{
    let mut size = block;
    let mut left = number;
    for choices in rest {
        size /= choices.texts.len();
        push_pick(text, "B", puid, choices, left / size)?;
        left %= size;
    }
    Ok(())
}

/// Appends the row of a byte sequence with the text at a place. `letter` begins it: `S` or `B`.
fn push_pick(
    text: &mut Vec<u8>,
    letter: &str,
    puid: &str,
    choices: &Choices,
    place: usize,
) -> Result<(), AllocError>
    requires { place < length choices.now.texts }
    ensures { OnOk result
        (text.new.items ≡ text.old.items ++ line (pick_fields letter.now puid.now (pick choices.now place))) }
{
    let mut min = Buffer::new();
    let mut max = Buffer::new();
    push_row(
        text,
        letter.as_bytes(),
        puid.as_bytes(),
        anchor_text(choices.offsets.anchor).as_bytes(),
        min.format(choices.offsets.min).as_bytes(),
        max.format(choices.offsets.max).as_bytes(),
        choices.texts.get(place),
    )?;
    Ok(())
}

/// Returns the field that says from which end of a file the offsets of a byte sequence count.
fn anchor_text(anchor: Anchor) -> &'static str
    ensures { result.now ≡ anchor_text anchor }
{
    match anchor {
        Anchor::Bof => "BOF",
        Anchor::Eof => "EOF",
    }
}
