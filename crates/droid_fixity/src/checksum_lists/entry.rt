//! Splits a line that names a file into its parts: the hash, how the path is spelled, and the spelling.

ghost use Rattle.std.specs.Prelude.{◌≡◌};
ghost use Rattle.std.specs.List.{position};
ghost use Rattle.std.specs.Option.{option_map};
ghost use Rattle.droid_fixity.specs.Lines as lines;

use crate::checksum_lists::digest::{hash_of, md5_of, sha256_of};
use crate::checksum_lists::form::{Escapes, ManifestForm};
use crate::checksum_lists::path::behind;
use droid_frame::HashValue;

/// Splits a line without its end into the hash, how the path is spelled, and the spelling. `None` if a list of this
/// form has no such line; whether the path is right is seen later.
pub(crate) fn entry_of(form: ManifestForm, line: &[u8]) -> Option<(HashValue, Escapes, &[u8])>
    ensures { option_map (λ entry. (entry.0, entry.1, entry.2.now)) result ≡ lines.entry_of form line.now }
{
    match form {
        ManifestForm::Checksums => checksum_entry(line),
        ManifestForm::Bag => bag_entry(line),
    }
}

/// Splits a line of `md5sum` or `sha256sum`, also one of `--tag`. No line is of both kinds: a tag begins with no
/// digits.
fn checksum_entry(line: &[u8]) -> Option<(HashValue, Escapes, &[u8])>
    ensures { option_map (λ entry. (entry.0, entry.1, entry.2.now)) result ≡ lines.checksum_entry line.now }
{
    match plain_entry(line) {
        Some(entry) => Some(entry),
        None => tag_entry(line),
    }
}

/// Splits a line of `md5sum` or `sha256sum`: digest, two spaces (or a space and `*`), path. A backslash may stand in
/// front.
#[tactic(auto, unfolding(crate::specs::Lines::plain_entry))]
fn plain_entry(line: &[u8]) -> Option<(HashValue, Escapes, &[u8])>
    ensures { option_map (λ entry. (entry.0, entry.1, entry.2.now)) result ≡ lines.plain_entry line.now }
{
    let (digits, rest) = cut_at_gap(without_backslash(line))?;
    let hash = hash_of(digits)?;
    let text = behind_mark(rest)?;
    Some((hash, escapes_of(line), text))
}

/// Splits a line of `md5sum --tag` or `sha256sum --tag`. A backslash may stand in front.
fn tag_entry(line: &[u8]) -> Option<(HashValue, Escapes, &[u8])>
    ensures { option_map (λ entry. (entry.0, entry.1, entry.2.now)) result ≡ lines.tag_entry line.now }
{
    let (hash, text) = tag_parts(without_backslash(line))?;
    Some((hash, escapes_of(line), text))
}

/// Splits a line of `--tag`, without a backslash in front, into the hash and the spelling of the path.
fn tag_parts(line: &[u8]) -> Option<(HashValue, &[u8])>
    ensures { option_map (λ parts. (parts.0, parts.1.now)) result ≡ lines.tag_parts line.now }
{
    match md5_tag(line) {
        Some(parts) => Some(parts),
        None => sha256_tag(line),
    }
}

/// Splits a line `MD5 (PATH) = DIGEST`. The digest is the last 32 bytes, so a path may have `) = ` in it.
#[tactic(auto, unfolding(crate::specs::Lines::md5_tag, crate::specs::Lines::tagged))]
fn md5_tag(line: &[u8]) -> Option<(HashValue, &[u8])>
    ensures { option_map (λ parts. (parts.0, parts.1.now)) result ≡ lines.md5_tag line.now }
{
    let text = behind(b"MD5 (".as_slice(), line)?;
    let (front, digits) = cut_last(32, text)?;
    let path = before(b") = ".as_slice(), front)?;
    let hash = md5_of(digits)?;
    Some((hash, path))
}

/// Splits a line `SHA256 (PATH) = DIGEST`. The digest is the last 64 bytes, so a path may have `) = ` in it.
#[tactic(auto, unfolding(crate::specs::Lines::sha256_tag, crate::specs::Lines::tagged))]
fn sha256_tag(line: &[u8]) -> Option<(HashValue, &[u8])>
    ensures { option_map (λ parts. (parts.0, parts.1.now)) result ≡ lines.sha256_tag line.now }
{
    let text = behind(b"SHA256 (".as_slice(), line)?;
    let (front, digits) = cut_last(64, text)?;
    let path = before(b") = ".as_slice(), front)?;
    let hash = sha256_of(digits)?;
    Some((hash, path))
}

/// Splits a text before its last `count` bytes, or returns `None` if it has fewer.
fn cut_last(count: usize, text: &[u8]) -> Option<(&[u8], &[u8])>
    ensures { option_map (λ parts. (parts.0.now, parts.1.now)) result ≡ lines.cut_last count text.now }
{
    if count <= text.len() {
        Some(text.split_at(text.len() - count))
    } else {
        None
    }
}

/// Returns what stands before the text `end`, or `None` if `text` does not end with it.
fn before<'a>(end: &[u8], text: &'a [u8]) -> Option<&'a [u8]>
    ensures { option_map (λ front. front.now) result ≡ lines.before end.now text.now }
{
    match cut_last(end.len(), text) {
        Some((front, last)) => { if last == end { Some(front) } else { None } }
        None => None,
    }
}

/// Splits a line of a bag's manifest: digest, spaces or tabs, perhaps `*`, path. Its path is always read with percent
/// signs.
#[tactic(auto, unfolding(crate::specs::Lines::bag_entry))]
fn bag_entry(line: &[u8]) -> Option<(HashValue, Escapes, &[u8])>
    ensures { option_map (λ entry. (entry.0, entry.1, entry.2.now)) result ≡ lines.bag_entry line.now }
{
    let (digits, rest) = cut_at_gap(line)?;
    let hash = hash_of(digits)?;
    let text = behind_gaps(rest)?;
    Some((hash, Escapes::Percent, text))
}

/// Returns how the path of a line of `md5sum` is spelled: with backslashes if the line begins with one.
fn escapes_of(line: &[u8]) -> Escapes
    ensures { result ≡ lines.escapes_of line.now }
{
    match line.first() {
        Some(first) => {
            if *first == b'\\' {
                Escapes::Backslash
            } else {
                Escapes::Nothing
            }
        }
        None => Escapes::Nothing,
    }
}

/// Returns a line without the backslash in front that says that its path is escaped.
fn without_backslash(line: &[u8]) -> &[u8]
    ensures { result.now ≡ lines.without_backslash line.now }
{
    match line.split_first() {
        Some((first, rest)) => { if *first == b'\\' { rest } else { line } }
        None => line,
    }
}

/// Splits a line before its first space or tab, which stays in the second part. `None` if it has neither.
fn cut_at_gap(line: &[u8]) -> Option<(&[u8], &[u8])>
    ensures { option_map (λ parts. (parts.0.now, parts.1.now)) result ≡ lines.cut_at_gap line.now }
{
    match first_gap(line) {
        Some(place) => Some(line.split_at(place)),
        None => None,
    }
}

/// Returns the place of the first space or tab, counted from 0.
fn first_gap(line: &[u8]) -> Option<usize>
    ensures { result ≡ position lines.is_gap line.now }
{
    line.iter().position(|byte| is_gap(*byte))
}

/// Returns the place of the first byte that is neither space nor tab, counted from 0.
fn first_no_gap(line: &[u8]) -> Option<usize>
    ensures { result ≡ position lines.is_no_gap line.now }
{
    line.iter().position(|byte| !is_gap(*byte))
}

/// Returns whether a byte is a space or a tab.
fn is_gap(byte: u8) -> bool
    ensures { result ≡ lines.is_gap byte }
{
    byte == b' ' || byte == b'\t'
}

/// Returns what stands behind two spaces, or behind a space and `*`, or `None` if `text` begins with neither.
fn behind_mark(text: &[u8]) -> Option<&[u8]>
    ensures { option_map (λ rest. rest.now) result ≡ lines.behind_mark text.now }
{
    let (space, rest) = text.split_first()?;
    let (mark, rest) = rest.split_first()?;
    if *space == b' ' && (*mark == b' ' || *mark == b'*') {
        Some(rest)
    } else {
        None
    }
}

/// Returns what stands behind the spaces and tabs in front, without a `*` before it. `None` if there is nothing else.
fn behind_gaps(text: &[u8]) -> Option<&[u8]>
    ensures { option_map (λ rest. rest.now) result ≡ lines.behind_gaps text.now }
{
    match first_no_gap(text) {
        Some(place) => Some(without_star(&text[place..])),
        None => None,
    }
}

/// Returns a text without the `*` in front, if it has one.
fn without_star(text: &[u8]) -> &[u8]
    ensures { result.now ≡ lines.without_star text.now }
{
    match text.split_first() {
        Some((first, rest)) => { if *first == b'*' { rest } else { text } }
        None => text,
    }
}
