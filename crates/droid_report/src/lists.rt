//! The page's lists of files: the first of a kind, and the largest, oldest and newest. They grow row by row.
//!
//! After an error a list may have the row already: `Counts::add` says so, and its caller drops the counts.

ghost use Rattle.std.specs.Prelude.{◌≡◌, ◌++◌, ◌∷◌, ◌≤◌, [], IfOk, OnOk, length, nat_lt};
ghost use Rattle.std.specs.List.{insert, position_or_len};
ghost use Rattle.droid_report.specs.Lines.{line_of, lines_in};
ghost use Rattle.droid_report.specs.Lists as lists;

use crate::row::Row;
use crate::totals::{What, is_counted, is_first_of_file};
use std::alloc::{AllocError, Global};

/// An order of files.
#[derive(Clone, Copy)]
pub enum Rank {
    /// The largest first.
    Largest,
    /// Those that were changed first. Files without a date are not in it.
    Oldest,
    /// Those that were changed last. Files without a date are not in it.
    Newest,
}

/// Lists of files: each has the first of its kind. A file stands in a list by its first row.
#[derive(Drop)]
pub struct Lists {
    /// The first 200 that were not identified.
    pub unidentified: Vec<Row>,
    /// The first 200 whose extension is none of their formats'.
    pub mismatches: Vec<Row>,
    /// The first 200 with more than one format.
    pub several_formats: Vec<Row>,
    /// The 50 largest. Of files of one size the first come first.
    pub largest: Vec<Row>,
    /// The 20 that were changed first.
    pub oldest: Vec<Row>,
    /// The 20 that were changed last.
    pub newest: Vec<Row>,
}

/// How many rows a list of the first has at most. The page shows no more: 200 is also the greatest limit of
/// `view/page.rt`, to which nothing but these lines ties it. The prover ties this number and the two below to
/// `AreLists` and `ListsAfter`, and this one to the clause of [`keep_first`]. `numbers_of.py` of `tests/program/report`
/// has all three, and so have the comments of [`Lists`].
const MOST_ROWS: usize = 200;

/// How many rows the list of the largest has at most.
const MOST_LARGE: usize = 50;

/// How many rows the lists of the oldest and the newest have at most.
const MOST_AGED: usize = 20;

impl Lists {
    ghost use Rattle.droid_report.specs.Lists.{ListsAfter};

    /// Starts with empty lists.
    pub(crate) fn new(alloc: Global) -> Lists
        ensures unidentified { result.unidentified.items ≡ [] }
        ensures mismatches { result.mismatches.items ≡ [] }
        ensures several_formats { result.several_formats.items ≡ [] }
        ensures largest { result.largest.items ≡ [] }
        ensures oldest { result.oldest.items ≡ [] }
        ensures newest { result.newest.items ≡ [] }
    {
        Lists {
            unidentified: Vec::new(alloc),
            mismatches: Vec::new(alloc),
            several_formats: Vec::new(alloc),
            largest: Vec::new(alloc),
            oldest: Vec::new(alloc),
            newest: Vec::new(alloc),
        }
    }

    /// Puts a copy of a row into each list that it belongs to and that has room for it, or where it displaces another.
    pub(crate) fn add(&mut self, row: &Row) -> Result<(), AllocError>
        ensures { OnOk result (ListsAfter (line_of row.now) self.old self.new) }
    {
        keep_first(&mut self.unidentified, row, What::Unidentified)?;
        keep_first(&mut self.mismatches, row, What::Mismatches)?;
        keep_first(&mut self.several_formats, row, What::SeveralFormats)?;
        keep_ranked(&mut self.largest, row, Rank::Largest, MOST_LARGE)?;
        keep_ranked(&mut self.oldest, row, Rank::Oldest, MOST_AGED)?;
        keep_ranked(&mut self.newest, row, Rank::Newest, MOST_AGED)?;
        Ok(())
    }
}

/// Adds a copy of a row at the end, if it counts for the total `what` and the list has fewer than [`MOST_ROWS`].
fn keep_first(list: &mut Vec<Row>, row: &Row, what: What) -> Result<(), AllocError>
    ensures { OnOk result
        (lines_in list.new.items ≡ lists.first_after what 200 (lines_in list.old.items) (line_of row.now)) }
{
    if list.len() >= MOST_ROWS {
        return Ok(());
    }
    if !is_counted(row, what) {
        return Ok(());
    }
    push_row(list, row)?;
    Ok(())
}

/// Adds a copy of a row at the end. Fails only if memory runs out.
fn push_row(list: &mut Vec<Row>, row: &Row) -> Result<(), AllocError>
    ensures { OnOk result (lines_in list.new.items ≡ lines_in list.old.items ++ line_of row.now ∷ []) }
{
    let copy = row.copy()?;
    list.push(copy)?;
    Ok(())
}

/// Puts a copy of a row in its place, if that is among the first `limit` of the order, behind its equals. What then is
/// over the limit falls out at the end.
fn keep_ranked(list: &mut Vec<Row>, row: &Row, rank: Rank, limit: usize) -> Result<(), AllocError>
    ensures { OnOk result
        (lines_in list.new.items ≡ lists.ranked_after rank limit (lines_in list.old.items) (line_of row.now)) }
{
    if !is_ranked(row, rank) {
        return Ok(());
    }
    let place = place_for(list.as_slice(), row, rank);
    if place >= limit {
        return Ok(());
    }
    insert_row(list, place, row)?;
    list.truncate(limit);
    Ok(())
}

/// Puts a copy of a row at a place, in front of what stood there. Fails only if memory runs out.
fn insert_row(list: &mut Vec<Row>, place: usize, row: &Row) -> Result<(), AllocError>
    requires { place ≤ length list.old.items }
    ensures { OnOk result (lines_in list.new.items ≡ insert (lines_in list.old.items) place (line_of row.now)) }
{
    let copy = row.copy()?;
    list.insert(place, copy)?;
    Ok(())
}

/// Returns the place at which a row belongs: that of the first of `rows` that comes after it, or the end.
fn place_for(rows: &[Row], row: &Row, rank: Rank) -> usize
    ensures place { result ≡ lists.place_for rank (line_of row.now) (lines_in rows.now) }
    ensures bound { result ≤ length rows.now }
{
    let key = rank_of(row, rank);
    first_above(rows, key, rank)
}

/// Returns the place of the first row whose number, by [`rank_of`], is greater than `key`, or the end.
fn first_above(rows: &[Row], key: u64, rank: Rank) -> usize
    ensures place { result ≡ position_or_len (λ other. nat_lt key (lists.rank_of rank (line_of other))) rows.now }
    ensures bound { result ≤ length rows.now }
{
    rows.iter()
        .position(|other| key < rank_of(other, rank))
        .unwrap_or(rows.len())
}

/// Returns whether a row may stand in an order: it is the first of a file, which has a date where the date decides.
fn is_ranked(row: &Row, rank: Rank) -> bool
    ensures { result ≡ lists.is_ranked rank (line_of row.now) }
{
    match rank {
        Rank::Largest => is_first_of_file(row),
        Rank::Oldest => is_first_of_file(row) && row.facts.year.is_some(),
        Rank::Newest => is_first_of_file(row) && row.facts.year.is_some(),
    }
}

/// Returns the number of a row by which an order goes: the smaller comes first.
fn rank_of(row: &Row, rank: Rank) -> u64
    ensures { result ≡ lists.rank_of rank (line_of row.now) }
{
    match rank {
        Rank::Largest => u64::MAX.saturating_sub(row.facts.size),
        Rank::Oldest => row.facts.moment,
        Rank::Newest => u64::MAX.saturating_sub(row.facts.moment),
    }
}
