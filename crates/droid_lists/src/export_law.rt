//! The law that an export lists its records.

ghost use Rattle.std.specs.Prelude.{List, filter};
ghost use Rattle.droid_frame.specs.declared.filter.Filter.{Filter};
ghost use Rattle.droid_frame.specs.declared.hash_kind.HashKind.{HashKind};
ghost use Rattle.droid_frame.specs.declared.record.Record.{Record};
ghost use Rattle.droid_pronom.specs.Registry.{Contents};
ghost use Rattle.droid_export.specs.Filters.{meets};
ghost use Rattle.droid_export.specs.Text.{text};
ghost use Rattle.droid_lists.specs.Exports.{AreRecordsOf, Lists, items_of};

use droid_export::text_is_read_back;

/// States that the text of an export lists the items of its records: exactly one for each, in order.
pub fn export_lists_its_records()
    ensures { (registry : Contents) (criteria : Filter) (hash : HashKind) (nodes : List Record)
        → AreRecordsOf hash nodes
        → Lists (text registry criteria hash nodes) (items_of (filter (meets criteria) nodes)) }
{
    text_is_read_back();
}
