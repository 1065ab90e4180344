//! Makes the whole text of an export, in memory.

ghost use Rattle.std.specs.Prelude.{◌≡◌, ◌++◌, IfOk, OnOk};
ghost use Rattle.std.specs.List.{flat_map};
ghost use Rattle.droid_export.specs.Index.{IsIndex};
ghost use Rattle.droid_export.specs.Text.{HaveMoments, chosen_rows, row_text, text};

use crate::index::Index;
use crate::row_text::RowText;
use crate::selection::is_chosen;
use droid_frame::{Blob, Filter, HashKind, Record};
use droid_pronom::Registry;
use std::alloc::{AllocError, Global};

/// Writes the records that meet the filter as CSV (RFC 4180), and returns the text. Fails only if memory runs out.
///
/// Every field stands between double quotes, and a line feed ends each row. The first row has the names of the columns.
/// Then come the rows of the records, in the order of `records`: one for each format, in order, or one row whose last
/// four fields are empty. If the registry lacks a format, only the PUID is shown.
///
/// `hash` names the hash column only; each row shows the hash of its record. So `hash` has to be the kind that the
/// profile has. The caller ensures that each record was modified from 0001-01-01T00:00:00 to 9999-12-31T23:59:59.
#[tactic(auto, unfolding(crate::specs::Text::text))]
pub fn export_text(
    alloc: Global,
    records: &[Record],
    registry: &Registry,
    filter: &Filter,
    hash: HashKind,
) -> Result<Blob, AllocError>
    requires { HaveMoments records.now }
    ensures { IfOk result (λ bytes. bytes ≡ text registry.now filter.now hash records.now) }
{
    let index = Index::build(alloc, &filter.criteria)?;
    let mut rows = RowText::new(alloc);
    rows.add_header(hash)?;
    add_records(alloc, &mut rows, records, registry, filter, &index)?;
    Ok(Blob::from(rows.into_vec()))
}

/// Appends the rows of each record that meets the filter, in order. After an error nothing is promised of `rows`: the
/// only caller drops it.
fn add_records(
    alloc: Global,
    rows: &mut RowText,
    records: &[Record],
    registry: &Registry,
    filter: &Filter,
    index: &Index,
) -> Result<(), AllocError>
    requires moments { HaveMoments records.now }
    requires index { IsIndex filter.now.criteria index.now }
    ensures { OnOk result (rows.new ≡ rows.old ++ flat_map row_text (chosen_rows registry.now filter.now records.now)) }
{
    for node in records {
        let chosen = is_chosen(alloc, filter, index, node)?;
        if chosen {
            rows.add(registry, node)?;
        }
    }
    Ok(())
}
