//! Laws of the export. Each is the contract of a function that does nothing.

ghost use Rattle.std.specs.Prelude.{◌≡◌, ◌++◌, [], List, map};
ghost use Rattle.std.specs.List.{flat_map};
ghost use Rattle.csv.specs.Reading.{AreRecords, default_config, strip_bom};
ghost use Rattle.csv.specs.declared.parser.State.TheVariants as st;
ghost use Rattle.droid_frame.specs.declared.filter.Filter.{Filter};
ghost use Rattle.droid_frame.specs.declared.hash_kind.HashKind.{HashKind};
ghost use Rattle.droid_frame.specs.declared.record.Record.{Record};
ghost use Rattle.droid_pronom.specs.Registry.{Contents};
ghost use Rattle.droid_export.specs.Rows.{fields, header};
ghost use Rattle.droid_export.specs.Text.{record_text, row_text, shown_rows, text};

/// States that the kit's `csv`, with its default settings, reads the text of an export back to exactly the fields of
/// its rows.
pub fn text_is_read_back()
    ensures { (registry : Contents) (criteria : Filter) (hash : HashKind) (nodes : List Record) →
        AreRecords default_config st.StartRecord (strip_bom (text registry criteria hash nodes))
        (map fields (shown_rows registry criteria hash nodes)) }
{}

/// States that the text of an export without criteria is the header and then the text of each record, in order.
pub fn text_goes_by_records()
    ensures { (registry : Contents) (everything : Filter) (hash : HashKind) (nodes : List Record)
        → everything.criteria ≡ []
        → text registry everything hash nodes ≡ row_text (header hash) ++ flat_map (record_text registry) nodes }
{}
