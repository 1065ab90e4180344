//! Writes the texts of the patterns that stand for the terms of a sequence's or a fragment's text.

ghost use Rattle.std.specs.Prelude.{◌≡◌, ◌+◌, ◌≤◌, ◌++◌, ◌∷◌, [], IsTrue, IfOk, OnOk, length, map};
ghost use Rattle.std.specs.List.{flat_map, list_all};
ghost use Rattle.droid_pattern.specs.Patterns.{Choice};
ghost use Rattle.droid_signature_pattern.specs.TermValues.{atom_of, term_of};
ghost use Rattle.droid_signature_file.specs.Terms.{Between, OneOf};
ghost use Rattle.droid_signature_file.specs.Expansions.{patterns_of, patterns_of_atom, patterns_of_atoms};
ghost use Rattle.droid_signature_file.specs.Expansions.{patterns_of_each, patterns_of_term, ranges, runs_outside};
ghost use Rattle.droid_signature_file.specs.Expansions.{upward};
ghost use Rattle.droid_signature_pattern.specs.Outcomes.{IfLeftOut, IsReasonOfAtom, IsReasonOfAtoms, IsReasonOfEach};
ghost use Rattle.droid_signature_pattern.specs.Outcomes.{IsReasonOfTerm, IsReasonOfTerms};
ghost use Rattle.droid_signature_pattern.specs.Items.{items_of};
ghost use Rattle.droid_signature_pattern.specs.Texts.{AreSmall};
ghost use Rattle.droid_signature_pattern.specs.Written as spec;
ghost use Rattle.droid_signature_pattern.specs.Written.{marked, one_text, pair, written, written_each};

use crate::element_texts::{push_byte, push_bytes, push_except, push_gap, push_range};
use crate::growth::Growing;
use crate::pattern_texts::PatternTexts;
use crate::range_texts::range_texts;
use crate::reason::{Reason, Stop};
use crate::term::{TextItem, TextTerm};
use std::alloc::{AllocError, Global};

/// The most bytes of each bound of a range. This limit is the project's own. The definition `IsLongRange` has this
/// number too. With it `range_texts`, which has no limit, makes at most 33 texts: twice 16 and one.
const MOST_RANGE_BYTES: usize = 16;

/// Each byte as two digits, behind a bar.
const EACH_BYTE: &[u8] = b"\
    |00|01|02|03|04|05|06|07|08|09|0A|0B|0C|0D|0E|0F|10|11|12|13|14|15|16|17|18|19|1A|1B|1C|1D|1E|1F\
    |20|21|22|23|24|25|26|27|28|29|2A|2B|2C|2D|2E|2F|30|31|32|33|34|35|36|37|38|39|3A|3B|3C|3D|3E|3F\
    |40|41|42|43|44|45|46|47|48|49|4A|4B|4C|4D|4E|4F|50|51|52|53|54|55|56|57|58|59|5A|5B|5C|5D|5E|5F\
    |60|61|62|63|64|65|66|67|68|69|6A|6B|6C|6D|6E|6F|70|71|72|73|74|75|76|77|78|79|7A|7B|7C|7D|7E|7F\
    |80|81|82|83|84|85|86|87|88|89|8A|8B|8C|8D|8E|8F|90|91|92|93|94|95|96|97|98|99|9A|9B|9C|9D|9E|9F\
    |A0|A1|A2|A3|A4|A5|A6|A7|A8|A9|AA|AB|AC|AD|AE|AF|B0|B1|B2|B3|B4|B5|B6|B7|B8|B9|BA|BB|BC|BD|BE|BF\
    |C0|C1|C2|C3|C4|C5|C6|C7|C8|C9|CA|CB|CC|CD|CE|CF|D0|D1|D2|D3|D4|D5|D6|D7|D8|D9|DA|DB|DC|DD|DE|DF\
    |E0|E1|E2|E3|E4|E5|E6|E7|E8|E9|EA|EB|EC|ED|EE|EF|F0|F1|F2|F3|F4|F5|F6|F7|F8|F9|FA|FB|FC|FD|FE|FF";

/// Returns the texts of the patterns that stand for terms: at most 64, each of at most 4,096 bytes, with at most 16,384
/// in all.
pub fn texts_of(alloc: Global, terms: &[TextTerm]) -> Result<PatternTexts, Stop>
    ensures ok { IfOk result (λ texts. texts ≡ written_each (patterns_of (map term_of terms.now))) }
    ensures small { IfOk result AreSmall }
    ensures err { IfLeftOut result (IsReasonOfTerms (map term_of terms.now)) }
{
    let mut growing = Growing::new(alloc)?;
    for term in terms {
        let level = term_texts(alloc, term)?;
        growing.push(alloc, &level)?;
    }
    let texts = growing.texts(alloc)?;
    Ok(texts)
}

/// Returns the texts of the patterns that stand for a term: an item, or alternatives.
fn term_texts(alloc: Global, term: &TextTerm) -> Result<PatternTexts, Stop>
    ensures ok { IfOk result (λ texts. texts ≡ written_each (patterns_of_term (term_of term.now))) }
    ensures err { IfLeftOut result (λ reason. IsReasonOfTerm reason (term_of term.now)) }
{
    match term {
        TextTerm::One(item) => item_texts(alloc, item),
        TextTerm::OneOf(alternatives) => choice_texts(alloc, alternatives.as_slice()),
    }
}

/// Returns the texts of the patterns that stand for an item: one, but for a range of several bytes.
fn item_texts(alloc: Global, item: &TextItem) -> Result<PatternTexts, Stop>
    ensures ok { IfOk result (λ texts. texts ≡ written_each (patterns_of_atom (atom_of item.now))) }
    ensures err { IfLeftOut result (λ reason. IsReasonOfAtom reason (atom_of item.now)) }
{
    match item {
        TextItem::Between { low, high } => { between_texts(alloc, low.as_slice(), high.as_slice()) }
        TextItem::Byte(_)
        | TextItem::AnyByte
        | TextItem::Gap { .. }
        | TextItem::Range { .. }
        | TextItem::Except(_)
        | TextItem::Outside { .. }
        | TextItem::Quoted(_) => {
            let texts = one_item_text(alloc, item)?;
            Ok(texts)
        }
    }
}

/// Returns the texts of a range whose bounds have at most 16 bytes each, otherwise `LongRange`. `item_parser` has seen
/// to it that both are equally long, so one is looked at.
fn between_texts(alloc: Global, low: &[u8], high: &[u8]) -> Result<PatternTexts, Stop>
    ensures ok { IfOk result (λ texts. texts ≡ written_each (ranges low.now high.now)) }
    ensures err { IfLeftOut result (λ reason. IsReasonOfAtom reason (Between low.now high.now)) }
{
    if low.len() > MOST_RANGE_BYTES {
        return Err(Stop::LeftOut(Reason::LongRange));
    }
    let texts = range_texts(alloc, low, high)?;
    Ok(texts)
}

/// Returns the text of an item that one pattern stands for, as a list of one.
fn one_item_text(alloc: Global, item: &TextItem) -> Result<PatternTexts, AllocError>
    ensures { IfOk result (λ texts. texts ≡ one_text (atom_of item.now) ∷ []) }
{
    let mut text = Vec::new(alloc);
    push_item(&mut text, item)?;
    PatternTexts::one(alloc, text)
}

/// Appends the text of an item that one pattern stands for: any but a range of several bytes, for which it appends
/// nothing, and which no caller passes.
fn push_item(text: &mut Vec<u8>, item: &TextItem) -> Result<(), AllocError>
    ensures { OnOk result (text.new.items ≡ text.old.items ++ one_text (atom_of item.now)) }
{
    match item {
        TextItem::Byte(byte) => push_byte(text, *byte),
        TextItem::AnyByte => text.extend_from_slice(b"??"),
        TextItem::Gap { least, most } => push_gap(text, *least, *most),
        TextItem::Range { low, high } => push_range(text, *low, *high),
        TextItem::Except(byte) => push_except(text, *byte),
        TextItem::Outside { low, high } => push_outside(text, *low, *high),
        TextItem::Quoted(bytes) => push_bytes(text, bytes.as_slice()),
        TextItem::Between { .. } => Ok(()),
    }
}

/// Appends the bytes outside a range, each as an alternative: `(00|01|FF)`. `item_parser` takes no range that leaves
/// none: for that a `)` would stand alone.
fn push_outside(text: &mut Vec<u8>, low: u8, high: u8) -> Result<(), AllocError>
    ensures { OnOk result (text.new.items ≡ text.old.items ++ written (Choice (runs_outside low high))) }
{
    let mark = push_each(text, b'(', 0, usize::from(low))?;
    push_each(text, mark, usize::from(high) + 1, usize::from(255 - high))?;
    text.push(b')')?;
    Ok(())
}

/// Appends `count` bytes from one on, each behind a mark: the given one before the first, a bar before each other.
/// Returns the mark for what follows. In the table each byte has 3 characters; the bar of the first is left out.
fn push_each(text: &mut Vec<u8>, mark: u8, from: usize, count: usize) -> Result<u8, AllocError>
    requires { from + count ≤ 256 }
    ensures text { OnOk result (text.new.items ≡ text.old.items ++ marked pair mark (upward from count)) }
    ensures mark { IfOk result (λ next. next ≡ spec.next_mark mark count) }
{
    if count == 0 {
        return Ok(mark);
    }
    let all = each_byte();
    text.push(mark)?;
    text.extend_from_slice(&all[from * 3 + 1..(from + count) * 3])?;
    Ok(b'|')
}

/// Returns each byte as two digits, behind a bar: 256 times 3 characters. A table, for speed.
fn each_byte() -> &'static [u8]
    ensures text { result.now ≡ marked pair 124 (upward 0 256) }
    ensures len { length result.now ≡ 768 }
{
    EACH_BYTE
}

/// Returns the texts of the patterns that stand for one of several lists of items.
fn choice_texts(alloc: Global, alternatives: &[Vec<TextItem>]) -> Result<PatternTexts, Stop>
    ensures ok { IfOk result (λ texts.
        texts ≡ written_each (patterns_of_term (OneOf (map items_of alternatives.now)))) }
    ensures err { IfLeftOut result (λ reason. IsReasonOfTerm reason (OneOf (map items_of alternatives.now))) }
{
    if are_all_runs(alternatives) {
        let texts = runs_text(alloc, alternatives)?;
        return Ok(texts);
    }
    let texts = each_texts(alloc, alternatives)?;
    Ok(texts)
}

/// Returns whether each alternative is a run of bytes: then one pattern stands for all of them.
fn are_all_runs(alternatives: &[Vec<TextItem>]) -> bool
    ensures { result ≡ list_all (λ items. list_all (λ item. spec.is_run (atom_of item)) items.items) alternatives.now }
{
    alternatives.iter().all(|items| are_runs(items.as_slice()))
}

/// Returns whether each item is a run of bytes, which an alternative of a pattern can hold as it stands.
fn are_runs(items: &[TextItem]) -> bool
    ensures { result ≡ list_all (λ item. spec.is_run (atom_of item)) items.now }
{
    items.iter().all(|item| is_run(item))
}

/// Returns whether an item is a run of bytes, which an alternative of a pattern can hold as it stands.
fn is_run(item: &TextItem) -> bool
    ensures { result ≡ spec.is_run (atom_of item.now) }
{
    match item {
        TextItem::Byte(_) | TextItem::Quoted(_) => true,
        TextItem::AnyByte
        | TextItem::Gap { .. }
        | TextItem::Range { .. }
        | TextItem::Except(_)
        | TextItem::Outside { .. }
        | TextItem::Between { .. } => false,
    }
}

/// Returns the one text of alternatives that are runs of bytes: `(61|6263)`.
fn runs_text(alloc: Global, alternatives: &[Vec<TextItem>]) -> Result<PatternTexts, AllocError>
    ensures { IfOk result (λ texts.
        texts ≡ (marked (flat_map one_text) 40 (map items_of alternatives.now) ++ 41 ∷ []) ∷ []) }
{
    let mut text = Vec::new(alloc);
    let mut mark = b'(';
    for items in alternatives {
        text.push(mark)?;
        push_items(&mut text, items.as_slice())?;
        mark = b'|';
    }
    text.push(b')')?;
    PatternTexts::one(alloc, text)
}

/// Appends the texts of items, one after another.
fn push_items(text: &mut Vec<u8>, items: &[TextItem]) -> Result<(), AllocError>
    ensures { OnOk result (text.new.items ≡ text.old.items ++ flat_map one_text (map atom_of items.now)) }
{
    for item in items {
        push_item(text, item)?;
    }
    Ok(())
}

/// Returns the texts of the patterns that stand for each alternative, those of all alternatives in one list.
fn each_texts(alloc: Global, alternatives: &[Vec<TextItem>]) -> Result<PatternTexts, Stop>
    ensures ok { IfOk result (λ texts. texts ≡ written_each (patterns_of_each (map items_of alternatives.now))) }
    ensures err { IfLeftOut result (λ reason. IsReasonOfEach reason (map items_of alternatives.now)) }
{
    let mut texts = PatternTexts::new(alloc);
    for items in alternatives {
        let alternative = items_texts(alloc, items.as_slice())?;
        texts.add_all(alternative)?;
    }
    Ok(texts)
}

/// Returns whether there is one item, and it is no run of bytes: its texts are short, and need not grow. This is for
/// speed: after `false` they grow to the same texts.
fn is_one_class(items: &[TextItem]) -> bool
    ensures { IsTrue result → length items.now ≡ 1 }
{
    items.len() == 1 && !is_run(&items[0])
}

/// Returns the texts of the patterns that stand for the items of an alternative, one behind the other.
fn items_texts(alloc: Global, items: &[TextItem]) -> Result<PatternTexts, Stop>
    ensures ok { IfOk result (λ texts. texts ≡ written_each (patterns_of_atoms (map atom_of items.now))) }
    ensures err { IfLeftOut result (λ reason. IsReasonOfAtoms reason (map atom_of items.now)) }
{
    if is_one_class(items) {
        let own = item_texts(alloc, &items[0])?;
        return Ok(own);
    }
    let mut growing = Growing::new(alloc)?;
    for item in items {
        let level = item_texts(alloc, item)?;
        growing.push(alloc, &level)?;
    }
    let texts = growing.texts(alloc)?;
    Ok(texts)
}
