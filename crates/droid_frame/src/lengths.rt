//! Which requests a frame can carry, and how long their bodies are. Both are one question: a body has a length here
//! only where it fits.
//!
//! The numbers are the lengths in bytes of the fields that `request_body` in `specs/Bodies.antt` lists: 4 of a u32, 8
//! of a u64 or i64, 1 of a truth value, a count, a tag or a kind. The prover ties the two.

ghost use Rattle.std.specs.Prelude.{◌≡◌, ◌↔◌, ◌<◌, ◌≤◌, ◌+◌, ◌++◌, Bool, IsTrue, MatchOption, length};
ghost use Rattle.droid_frame.specs.Bodies.{Fits, request_body};
ghost use Rattle.droid_frame.specs.Filters.{ListFits, CriterionFits, FilterFits, list_bytes, criterion_bytes};
ghost use Rattle.droid_frame.specs.Filters.{filter_bytes};
ghost use Rattle.droid_frame.specs.Fields.{truth_bytes};
ghost use Rattle.droid_frame.specs.Hashes.{CarriesHash, hash_field};

use crate::criterion::Criterion;
use crate::filter::Filter;
use crate::hash_kind::HashKind;
use crate::request::Request;
use crate::texts::Texts;
use crate::versions::{body_limit, is_version};

/// The limit on the criteria of a filter, on the texts of a list, and on the bytes of each of these texts: what one
/// byte can count. It is `count_limit` of `specs/Limits.antt`, to which the contracts below tie it.
const COUNT_LIMIT: usize = 255;

impl Request {
    /// Returns whether a frame of this version can carry the request. It can if the version is 1 or 2; the body has
    /// at most [`body_limit`] bytes; a filter has at most 255 criteria, each list of a criterion at most 255 texts,
    /// and each text at most 255 bytes; and, in version 1, a new profile's hash is MD5. Allocates nothing.
    pub fn fits(&self, version: u8) -> bool
        ensures { IsTrue result ↔ Fits version self.now }
    {
        self.body_len(version).is_some()
    }

    /// Returns the length in bytes of the request's body in this version, or `None` where [`Request::fits`] is false.
    pub fn body_len(&self, version: u8) -> Option<usize>
        ensures { MatchOption result (¬ Fits version self.now)
            (λ len. Fits version self.now × (len ≡ length (request_body version self.now))) }
    {
        if !is_version(version) {
            return None;
        }
        let limit = body_limit(version);
        match self {
            Request::CreateProfile { hash, .. } => options_len(version, *hash),
            Request::AddFolder { name, .. } => len_with(limit, 16, name.len()),
            Request::AddFile { name, .. } => len_with(limit, 28, name.len()),
            Request::Piece { bytes, .. } => len_with(limit, 12, bytes.len()),
            Request::Finish { .. } => Some(8),
            Request::Abandon { .. } => Some(8),
            Request::Status { .. } => Some(8),
            Request::Export { filter, .. } => len_with(limit, 16, filter_len(filter)?),
        }
    }
}

/// Returns the body length of a CreateProfile, or `None` if the version cannot carry the hash kind. Version 1 has no
/// byte for the kind, and carries MD5 alone. The version is 1 or 2: `body_len` checks it.
fn options_len(version: u8, hash: HashKind) -> Option<usize>
    ensures { MatchOption result (¬ CarriesHash version hash)
        (λ len.
        CarriesHash version hash
        × ((match_all : Bool) → len ≡ 4 + length (truth_bytes match_all ++ hash_field version hash))) }
{
    if version != 1 {
        return Some(6);
    }
    match hash {
        HashKind::Nothing => None,
        HashKind::Md5 => Some(5),
        HashKind::Sha256 => None,
    }
}

/// Adds the length of a body's fields and that of the name, bytes or filter behind them. Returns `None` if the sum is
/// over the limit, that of a body in this version.
fn len_with(limit: usize, fields: usize, rest: usize) -> Option<usize>
    requires { fields ≤ limit }
    ensures { MatchOption result (limit < fields + rest) (λ len. (len ≡ fields + rest) × (len ≤ limit)) }
{
    if rest > limit - fields {
        return None;
    }
    Some(fields + rest)
}

/// Returns the length of a filter in an Export's body, or `None` if a body cannot hold it: it has more than 255
/// criteria, or one of them does not fit. Whether the body's limit allows this length, the caller checks.
fn filter_len(filter: &Filter) -> Option<usize>
    ensures { MatchOption result (¬ FilterFits filter.now) (λ len.
        FilterFits filter.now × (len ≡ length (filter_bytes filter.now))) }
{
    let criteria = filter.criteria.as_slice();
    if criteria.len() > COUNT_LIMIT {
        return None;
    }
    let mut len = 2;
    for criterion in criteria {
        len += criterion_len(criterion)?;
    }
    Some(len)
}

/// Returns the length of a criterion in a filter, its tag included, or `None` if a filter cannot hold it: its list does
/// not fit. The bound on the length keeps the caller's sum from overflowing.
fn criterion_len(criterion: &Criterion) -> Option<usize>
    ensures { MatchOption result (¬ CriterionFits criterion.now)
        (λ len. CriterionFits criterion.now × (len ≡ length (criterion_bytes criterion.now)) × (len ≤ 65536)) }
{
    match criterion {
        Criterion::PuidIn(texts) => Some(1 + list_len(texts)?),
        Criterion::ExtIn(texts) => Some(1 + list_len(texts)?),
        Criterion::SizeAtLeast(_) => Some(9),
        Criterion::SizeAtMost(_) => Some(9),
        Criterion::MethodIs(_) => Some(2),
        Criterion::MismatchIs(_) => Some(2),
        Criterion::KindIs(_) => Some(2),
    }
}

/// Returns the length of a criterion's list of texts, its count included, or `None` if a criterion cannot hold it: more
/// than 255 texts, or a text of more than 255 bytes. 65,281 is 1 + 255 texts of 1 + 255 bytes.
fn list_len(texts: &Texts) -> Option<usize>
    ensures { MatchOption result (¬ ListFits texts.now)
        (λ len. ListFits texts.now × (len ≡ length (list_bytes texts.now)) × (len ≤ 65281)) }
{
    let texts = texts.as_slice();
    if texts.len() > COUNT_LIMIT {
        return None;
    }
    let mut len = 1;
    for text in texts {
        if text.len() > COUNT_LIMIT {
            return None;
        }
        len += 1 + text.len();
    }
    Some(len)
}
