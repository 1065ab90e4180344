//! An index of the lists in a filter's criteria: for each text, the places of the criteria that list it. `selection.rt`
//! asks it for each record.

ghost use Rattle.std.specs.Prelude.{◌≡◌, ◌||◌, ◌&&◌, ◌==◌, ℕ, List, false, IfOk, OnOk, string_bytes};
ghost use Rattle.std.specs.List.{list_any};
ghost use Rattle.std.specs.Str.{bytes_eq};
ghost use Rattle.droid_export.specs.Index.{IsIndex, asks_extension, asks_identifier, has_key, key, names, places_of};

use droid_frame::{Criteria, Criterion, Texts};
use std::alloc::{AllocError, Global};
use std::collections::BTreeMap;

/// For each text of a list, the places of the criteria whose lists have it.
pub(crate) type Places = BTreeMap<String, Vec<usize>>;

/// The lists of a filter's criteria, indexed once for all records of an export.
#[derive(Drop)]
pub(crate) struct Index {
    /// The places of the criteria that list a PUID.
    pub(crate) identifiers: Places,
    /// The places of the criteria that list an extension, by the extension in lower case.
    pub(crate) extensions: Places,
}

impl Index {
    /// Indexes the lists of these criteria. Fails only if memory runs out.
    pub(crate) fn build(alloc: Global, criteria: &Criteria) -> Result<Index, AllocError>
        ensures { IfOk result (IsIndex criteria.now) }
    {
        let mut index = Index {
            identifiers: BTreeMap::new(alloc),
            extensions: BTreeMap::new(alloc),
        };
        for place in 0..criteria.len() {
            if let Some(criterion) = criteria.get(place) {
                index.add(alloc, criterion, place)?;
            }
        }
        Ok(index)
    }

    /// Adds the list of the criterion at a place, if it has one: PUIDs as they are, extensions in lower case. After an
    /// error nothing is promised of the index: [`Index::build`] drops it.
    #[tactic(auto, unfolding(crate::specs::Index::asks_identifier, crate::specs::Index::asks_extension))]
    fn add(&mut self, alloc: Global, criterion: &Criterion, place: usize) -> Result<(), AllocError>
        ensures identifiers { OnOk result ((text : List ℕ) (at : ℕ)
            → names self.new.identifiers text at
            ≡ (names self.old.identifiers text at || (asks_identifier text criterion.now && (place == at)))) }
        ensures extensions { OnOk result ((text : List ℕ) (at : ℕ)
            → names self.new.extensions text at
            ≡ (names self.old.extensions text at || (asks_extension text criterion.now && (place == at)))) }
    {
        match criterion {
            Criterion::PuidIn(texts) => add_all(&mut self.identifiers, alloc, texts, false, place),
            Criterion::ExtIn(texts) => add_all(&mut self.extensions, alloc, texts, true, place),
            Criterion::MethodIs(_) => Ok(()),
            Criterion::MismatchIs(_) => Ok(()),
            Criterion::SizeAtLeast(_) => Ok(()),
            Criterion::SizeAtMost(_) => Ok(()),
            Criterion::KindIs(_) => Ok(()),
        }
    }
}

/// Adds a place to each of these texts. With `caseless` the texts are converted to lower case first. After an error
/// nothing is promised of the index, nor by the functions below.
fn add_all(
    named: &mut Places,
    alloc: Global,
    texts: &Texts,
    caseless: bool,
    place: usize,
) -> Result<(), AllocError>
    ensures { OnOk result ((text : List ℕ) (at : ℕ)
        → names named.new text at ≡ (names named.old text at || (has_key caseless texts.now text && (place == at)))) }
{
    let items = texts.as_slice();
    for text in items {
        let key = key_of(alloc, text.as_str(), caseless)?;
        add_one(named, alloc, key, place)?;
    }
    Ok(())
}

/// Returns the key by which a text is looked up: the text, with `caseless` its ASCII letters in lower case. Fails only
/// if memory runs out.
pub(crate) fn key_of(alloc: Global, text: &str, caseless: bool) -> Result<String, AllocError>
    ensures { IfOk result (λ it. string_bytes it ≡ key caseless text.now) }
{
    if caseless {
        text.to_ascii_lowercase(alloc)
    } else {
        String::from_str(alloc, text)
    }
}

/// Adds a place to the text whose key this is.
fn add_one(named: &mut Places, alloc: Global, key: String, place: usize) -> Result<(), AllocError>
    ensures { OnOk result ((text : List ℕ) (at : ℕ)
        → names named.new text at ≡ (names named.old text at || (bytes_eq text (string_bytes key) && (place == at)))) }
{
    let mut places = taken(named, alloc, key.as_str());
    note(&mut places, place)?;
    named.insert(key, places)?;
    Ok(())
}

/// Removes the places of a text from the index and returns them: none if the index lacks the text.
fn taken(named: &mut Places, alloc: Global, text: &str) -> Vec<usize>
    ensures value { result.items ≡ places_of named.old text.now }
    ensures others { (other : List ℕ) → bytes_eq text.now other ≡ false
        → places_of named.new other ≡ places_of named.old other }
{
    named.remove(text).unwrap_or(Vec::new(alloc))
}

/// Adds a place at the end, unless it is already the last one: a list may have a text twice.
fn note(places: &mut Vec<usize>, place: usize) -> Result<(), AllocError>
    ensures { OnOk result ((at : ℕ)
        → list_any (λ other. other == at) places.new.items
        ≡ (list_any (λ other. other == at) places.old.items || (place == at))) }
{
    if places.last().copied() == Some(place) {
        return Ok(());
    }
    places.push(place)?;
    Ok(())
}

/// Returns the places of the criteria that list the text with this key: none if the index lacks it.
pub(crate) fn places_of<'a>(named: &'a Places, text: &str) -> &'a [usize]
    ensures { result.now ≡ places_of named.now text.now }
{
    match named.get(text) {
        Some(places) => places.as_slice(),
        None => &[],
    }
}
