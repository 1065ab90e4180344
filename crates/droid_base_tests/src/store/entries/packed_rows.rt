//! Packs rows with values of each kind and reads them back.

use droid_store_trees::PackedRow;
use sqlite_value::keys::Order;
use sqlite_value::row::Row;
use sqlite_value::value::ValueRef;
use std::alloc::{AllocError, Global};
use std::cmp::Ordering;
use std::test::Fail;

/// The first and last numbers that fit into 1, 2, 3, 4, 6 and 8 bytes, and their neighbours.
const NUMBERS: [i64; 20] = [
    0,
    1,
    2,
    -1,
    127,
    128,
    -128,
    -129,
    32_767,
    -32_769,
    8_388_608,
    -8_388_608,
    2_147_483_647,
    -2_147_483_649,
    140_737_488_355_327,
    140_737_488_355_328,
    -140_737_488_355_329,
    i64::MAX,
    i64::MIN,
    129,
];

const FRACTIONS: [f64; 4] = [0.0, -0.0, 1.5, -1e300];

/// Lengths at which the type of a text or of a blob takes one more byte, and their neighbours.
const LENGTHS: [usize; 6] = [0, 1, 57, 58, 8_185, 8_186];

fn push_numbers(row: &mut Row) -> Result<(), AllocError> {
    for number in &NUMBERS {
        row.push(ValueRef::Int(*number))?;
    }
    Ok(())
}

fn push_others(row: &mut Row, bytes: &[u8]) -> Result<(), AllocError> {
    for fraction in &FRACTIONS {
        row.push(ValueRef::Real(*fraction))?;
    }
    row.push(ValueRef::Null)?;
    for len in &LENGTHS {
        let part = &bytes[..bytes.len().min(*len)];
        row.push(ValueRef::Text(part))?;
        row.push(ValueRef::Blob(part))?;
    }
    Ok(())
}

/// Whether the packed row is read back as it was, over another row, and compares as equal to itself.
fn is_kept(alloc: Global, row: &Row) -> Result<bool, AllocError> {
    let packed = PackedRow::of(alloc, row)?;
    let mut back = Row::new(alloc);
    back.push(ValueRef::Text(b"before"))?;
    packed.copy_into(&mut back)?;
    let entry = packed.cmp_entry(Order::PLAIN, row);
    let prefix = packed.cmp_prefix(Order::PLAIN, row);
    Ok(back.is_same(row) && entry == Ordering::Equal && prefix == Ordering::Equal)
}

#[test]
fn each_kind_of_value_is_read_back(rt: HostRuntime) -> Result<(), Fail> {
    let alloc = rt.alloc();
    let bytes = vec![in alloc; 0xa5; 8_186]?;
    let mut row = Row::new(alloc);
    let mut all = is_kept(alloc, &row)?;
    push_numbers(&mut row)?;
    all &= is_kept(alloc, &row)?;
    push_others(&mut row, bytes.as_slice())?;
    push_numbers(&mut row)?;
    assert!(rt; all & is_kept(alloc, &row)?);
    Ok(())
}

/// Whether a shorter row is below the one that extends it, and the longer one is above it and has it as its prefix.
fn are_in_order(alloc: Global) -> Result<bool, AllocError> {
    let mut shorter = Row::new(alloc);
    shorter.push(ValueRef::Int(-7))?;
    let mut longer = Row::new(alloc);
    longer.push(ValueRef::Int(-7))?;
    longer.push(ValueRef::Text(b"b"))?;
    let packed = PackedRow::of(alloc, &shorter)?;
    let all = PackedRow::of(alloc, &longer)?;
    Ok(
        packed.cmp_entry(Order::PLAIN, &longer) == Ordering::Less
            && packed.cmp_prefix(Order::PLAIN, &longer) == Ordering::Less
            && all.cmp_entry(Order::PLAIN, &shorter) == Ordering::Greater
            && all.cmp_prefix(Order::PLAIN, &shorter) == Ordering::Equal
            && matches!(all.first(), ValueRef::Int(-7)),
    )
}

#[test]
fn a_shorter_row_is_below_what_extends_it_and_a_nan_is_refused(
    rt: HostRuntime,
) -> Result<(), Fail> {
    let alloc = rt.alloc();
    let mut row = Row::new(alloc);
    row.push(ValueRef::Real(f64::NAN))?;
    assert!(rt; are_in_order(alloc)? & PackedRow::of(alloc, &row).is_err());
    Ok(())
}
