//! Random edits by a fixed seed, removals until no row is left, and a list that is filled again; and the example of
//! crates/droid_store_trees/README.md.

ghost use Rattle.std.specs.Prelude.{◌≡◌};

use droid_store_trees::{Entries, PackedRow};
use sqlite_value::row::Row;
use sqlite_value::value::ValueRef;
use std::alloc::{AllocError, Global};
use std::test::Fail;

/// A random number below `limit`, and 0 if that is 0.
fn below(state: &mut u64, limit: usize) -> usize {
    *state = (*state)
        .wrapping_mul(6_364_136_223_846_793_005)
        .wrapping_add(1_442_695_040_888_963_407);
    let drawn = (*state >> 33) as usize;
    if limit == 0 { 0 } else { drawn % limit }
}

fn row(alloc: Global, number: i64) -> Result<PackedRow, AllocError> {
    let mut row = Row::new(alloc);
    row.push(ValueRef::Int(number))?;
    PackedRow::of(alloc, &row)
}

/// Whether the list has exactly these numbers.
fn agrees(entries: &Entries, plain: &[i64]) -> bool {
    for at in 0..plain.len() {
        let Some(found) = entries.get(at) else {
            return false;
        };
        if !matches!(found.first(), ValueRef::Int(number) if number == plain[at]) {
            return false;
        }
    }
    entries.len() == plain.len() && entries.get(plain.len()).is_none()
}

/// Edits both lists: of ten kinds five insert a row, three remove one and two replace one.
fn edit(
    alloc: Global,
    entries: &mut Entries,
    plain: &mut Vec<i64>,
    kind: usize,
    at: usize,
    number: i64,
) -> Result<(), AllocError> {
    if kind < 5 {
        if at <= entries.len() && at <= plain.len() {
            entries.insert(alloc, at, row(alloc, number)?)?;
            plain.insert(at, number)?;
        }
    } else if at < entries.len() && at < plain.len() {
        if kind < 8 {
            entries.remove(alloc, at)?;
            plain.remove(at);
        } else {
            entries.set(alloc, at, row(alloc, number)?)?;
            plain[at] = number;
        }
    }
    Ok(())
}

/// Whether the lists agree after each 500 edits, when all rows are removed, and when 3,000 are inserted again.
fn agree(alloc: Global) -> Result<bool, AllocError> {
    let mut state = 20_251_125u64;
    let mut entries = Entries::new();
    let mut plain: Vec<i64> = Vec::new(alloc);
    let mut all = true;
    for step in 0..10_000i64 {
        let kind = below(&mut state, 10);
        let at = below(&mut state, plain.len().saturating_add(1));
        edit(alloc, &mut entries, &mut plain, kind, at, step)?;
        all &= step % 500 != 499 || agrees(&entries, &plain);
    }
    let before = entries.copy()?;
    let kept = plain.clone()?;
    for _ in 0..kept.len() {
        let at = below(&mut state, plain.len());
        edit(alloc, &mut entries, &mut plain, 5, at, 0)?;
    }
    all &= agrees(&entries, &[]) & agrees(&before, &kept);
    for number in 0..3_000i64 {
        let at = if number < 1_500 { 0 } else { plain.len() };
        edit(alloc, &mut entries, &mut plain, 0, at, number)?;
    }
    Ok(all & agrees(&entries, &plain))
}

#[test]
fn random_edits_agree_with_a_plain_list(rt: HostRuntime) -> Result<(), Fail> {
    assert!(rt; agree(rt.alloc())?);
    Ok(())
}

#[test]
fn example_of_the_page(rt: HostRuntime) -> Result<(), Fail> {
    let alloc = rt.alloc();
    let mut rows = Entries::new();
    rows.insert(alloc, 0, row(alloc, 7)?)?;
    let before = rows.copy()?;
    rows.set(alloc, 0, row(alloc, 8)?)?;
    let (Some(old), Some(new)) = (before.get(0), rows.get(0)) else {
        return Err("a row is missing".into());
    };
    assert!(rt; matches!(old.first(), ValueRef::Int(7)));
    assert!(rt; matches!(new.first(), ValueRef::Int(8)));
    Ok(())
}
