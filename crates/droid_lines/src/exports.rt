//! The text after the word `export`, and the criteria of a filter.

ghost use Rattle.std.specs.Prelude.{◌≡◌, IfOk};
ghost use Rattle.std.specs.Option.{option_map};
ghost use Rattle.droid_lines.specs.Exports.{export_words, export_place, filter_after, filter_words, criteria_after};
ghost use Rattle.droid_lines.specs.Exports.{criteria_words, criterion_word, criterion_of, join_word, method_word};
ghost use Rattle.droid_lines.specs.Exports.{mismatch_word, least_word, most_word, kind_word, list_word};

use crate::words::{first_word, name_and_value, u32_in, u32_word, u64_in, u64_word};
use droid_frame::{Criteria, Criterion, Filter, Method, NodeKind, Request, Text, Texts};
use std::alloc::{AllocError, Global};

/// Parses `PROFILE FROM MAX` or `PROFILE FROM MAX JOIN CRITERION ..`, behind `export`.
#[tactic(auto, unfolding(crate::specs::Exports::export_words))]
pub fn parse_export(alloc: Global, text: &str) -> Result<Option<Request>, AllocError>
    ensures { IfOk result (λ request. request ≡ export_words text.now) }
{
    let Some((profile, from, max, rest)) = export_place(text) else {
        return Ok(None);
    };
    let Some(filter) = filter_after(alloc, rest)? else {
        return Ok(None);
    };
    Ok(Some(Request::Export {
        profile,
        from,
        max,
        filter,
    }))
}

/// Parses `PROFILE FROM MAX`. Returns it with the text after the space, if there is one.
#[tactic(auto, unfolding(crate::specs::Exports::export_place))]
fn export_place(text: &str) -> Option<(u32, u64, u32, Option<&str>)>
    ensures { option_map (λ x. (x.0, x.1, x.2, option_map (λ rest. rest.now) x.3)) result ≡ export_place text.now }
{
    let (profile, rest) = u32_word(text)?;
    let (from, rest) = u64_word(rest)?;
    let (max, rest) = first_word(rest);
    Some((profile, from, u32_in(max)?, rest))
}

/// Parses the filter after MAX. Without one (`None`) every record passes.
#[tactic(auto, unfolding(crate::specs::Exports::filter_after))]
fn filter_after(alloc: Global, text: Option<&str>) -> Result<Option<Filter>, AllocError>
    ensures { IfOk result (λ filter. filter ≡ filter_after (option_map (λ text. text.now) text.entry)) }
{
    match text {
        None => Ok(Some(Filter {
            all: true,
            criteria: Criteria::new(alloc),
        })),
        Some(text) => parse_filter(alloc, text),
    }
}

/// Parses `JOIN CRITERION ..`, where there may be no criterion.
#[tactic(auto, unfolding(crate::specs::Exports::filter_words))]
fn parse_filter(alloc: Global, text: &str) -> Result<Option<Filter>, AllocError>
    ensures { IfOk result (λ filter. filter ≡ filter_words text.now) }
{
    let (join, rest) = first_word(text);
    let Some(all) = join_in(join) else {
        return Ok(None);
    };
    let Some(criteria) = criteria_after(alloc, rest)? else {
        return Ok(None);
    };
    Ok(Some(Filter { all, criteria }))
}

/// Reads the criteria behind the word for how they are joined; no text means none.
#[tactic(auto, unfolding(crate::specs::Exports::criteria_after))]
fn criteria_after(alloc: Global, text: Option<&str>) -> Result<Option<Criteria>, AllocError>
    ensures { IfOk result (λ criteria. criteria ≡ criteria_after (option_map (λ text. text.now) text.entry)) }
{
    match text {
        None => Ok(Some(Criteria::new(alloc))),
        Some(text) => parse_criteria(alloc, text),
    }
}

/// Parses `CRITERION ..`: one or more, with a space between each two.
fn parse_criteria(alloc: Global, text: &str) -> Result<Option<Criteria>, AllocError>
    ensures { IfOk result (λ criteria. criteria ≡ criteria_words text.now) }
{
    let mut criteria = Criteria::new(alloc);
    for word in text.split(' ') {
        let Some(criterion) = parse_criterion(alloc, word)? else {
            return Ok(None);
        };
        criteria.push(criterion)?;
    }
    Ok(Some(criteria))
}

/// Parses `NAME=VALUE`. The first `=` ends the name.
#[tactic(auto, unfolding(crate::specs::Exports::criterion_word))]
fn parse_criterion(alloc: Global, word: &str) -> Result<Option<Criterion>, AllocError>
    ensures { IfOk result (λ criterion. criterion ≡ criterion_word word.now) }
{
    let Some((name, value)) = name_and_value(word) else {
        return Ok(None);
    };
    criterion_of(alloc, name, value)
}

/// Makes a criterion of its name and its value, or returns `None` if there is no such one.
#[tactic(auto, unfolding(crate::specs::Exports::criterion_of))]
fn criterion_of(alloc: Global, name: &str, value: &str) -> Result<Option<Criterion>, AllocError>
    ensures { IfOk result (λ criterion. criterion ≡ criterion_of name.now value.now) }
{
    if name == "method" {
        Ok(method_in(value))
    } else if name == "puid" {
        Ok(Some(Criterion::PuidIn(texts_in(alloc, value)?)))
    } else if name == "ext" {
        Ok(Some(Criterion::ExtIn(texts_in(alloc, value)?)))
    } else if name == "mismatch" {
        Ok(mismatch_in(value))
    } else if name == "atleast" {
        Ok(least_in(value))
    } else if name == "atmost" {
        Ok(most_in(value))
    } else if name == "type" {
        Ok(kind_in(value))
    } else {
        Ok(None)
    }
}

/// Reads how criteria are joined: `all` or `any`. Returns whether all have to hold.
#[tactic(auto, unfolding(crate::specs::Exports::join_word))]
fn join_in(word: &str) -> Option<bool>
    ensures { result ≡ join_word word.now }
{
    if word == "all" {
        Some(true)
    } else if word == "any" {
        Some(false)
    } else {
        None
    }
}

/// Reads the value of `method`: `none`, `Signature` or `Extension`, the words that a printed reply has.
#[tactic(auto, unfolding(crate::specs::Exports::method_word))]
fn method_in(word: &str) -> Option<Criterion>
    ensures { result ≡ method_word word.now }
{
    if word == "none" {
        Some(Criterion::MethodIs(Method::Unidentified))
    } else if word == "Signature" {
        Some(Criterion::MethodIs(Method::Signature))
    } else if word == "Extension" {
        Some(Criterion::MethodIs(Method::Extension))
    } else {
        None
    }
}

/// Reads the value of `mismatch`: `true` or `false`.
#[tactic(auto, unfolding(crate::specs::Exports::mismatch_word))]
fn mismatch_in(word: &str) -> Option<Criterion>
    ensures { result ≡ mismatch_word word.now }
{
    if word == "false" {
        Some(Criterion::MismatchIs(false))
    } else if word == "true" {
        Some(Criterion::MismatchIs(true))
    } else {
        None
    }
}

/// Reads the value of `atleast`: the least size of a file, in bytes.
#[tactic(auto, unfolding(crate::specs::Exports::least_word))]
fn least_in(word: &str) -> Option<Criterion>
    ensures { result ≡ least_word word.now }
{
    let size = u64_in(word)?;
    Some(Criterion::SizeAtLeast(size))
}

/// Reads the value of `atmost`: the largest size of a file, in bytes.
#[tactic(auto, unfolding(crate::specs::Exports::most_word))]
fn most_in(word: &str) -> Option<Criterion>
    ensures { result ≡ most_word word.now }
{
    let size = u64_in(word)?;
    Some(Criterion::SizeAtMost(size))
}

/// Reads the value of `type`: `File` or `Folder`.
#[tactic(auto, unfolding(crate::specs::Exports::kind_word))]
fn kind_in(word: &str) -> Option<Criterion>
    ensures { result ≡ kind_word word.now }
{
    if word == "File" {
        Some(Criterion::KindIs(NodeKind::File))
    } else if word == "Folder" {
        Some(Criterion::KindIs(NodeKind::Folder))
    } else {
        None
    }
}

/// Returns the texts between the commas of the value of `puid` or `ext`. An empty value gives one empty text.
fn texts_in(alloc: Global, value: &str) -> Result<Texts, AllocError>
    ensures { IfOk result (λ texts. texts ≡ list_word value.now) }
{
    let mut texts = Texts::new(alloc);
    for text in value.split(',') {
        texts.push(Text::copy_of(alloc, text)?)?;
    }
    Ok(texts)
}
