//! Laws of a comparison. Each is the contract of a function that does nothing.

ghost use Rattle.std.specs.Prelude.{◌≡◌, ℕ, Bool, List, [], Ok, Some, true, false, filter, map, slice_get};
ghost use Rattle.std.specs.List.{AllByRecursion};
ghost use Rattle.csv.specs.Reading.{AreRecords, default_config, strip_bom};
ghost use Rattle.csv.specs.declared.parser.State.TheVariants as st;
ghost use Rattle.droid_cmd_verify.specs.Agreements.{Agree, EachFoundIsSame, EachListedIsSame, HaveHashes};
ghost use Rattle.droid_cmd_verify.specs.CheckedTrees.{Compares, formats_of, items_of, readable_in};
ghost use Rattle.droid_cmd_verify.specs.Compared.{is_hashed, is_unchecked};
ghost use Rattle.droid_cmd_verify.specs.Findings.{AreFindings, IsSilentAt};
ghost use Rattle.droid_lists.specs.ListForms.{form_of};
ghost use Rattle.droid_lists.specs.Listings.{ListSays, IsInventory};
ghost use Rattle.droid_cmd_verify.specs.declared.finding.Finding.{Finding};
ghost use Rattle.droid_lists.specs.declared.list_form.ListForm.TheVariants.{Profile};
ghost use Rattle.droid_lists.specs.declared.list_content.Listed.{Listed};
ghost use Rattle.droid_cmd_verify.specs.declared.measure.Measure.{Measure};
ghost use Rattle.droid_cmd_verify.specs.declared.measure.Measure.TheVariants.{Hashes, Moments};
ghost use Rattle.droid_cmd_verify.specs.declared.tree_check.Checked.{Checked};
ghost use Rattle.droid_terminal.specs.declared.skipped.recorder.Recorder.{Recorder};
ghost use Rattle.droid_terminal.specs.declared.skipped.skipped_entry.SkippedEntry.{SkippedEntry};
ghost use Rattle.droid_export.specs.Filters.{meets};
ghost use Rattle.droid_export.specs.Rows.{fields};
ghost use Rattle.droid_export.specs.Text.{shown_rows, text};
ghost use Rattle.droid_export.specs.FormatRows.{HasRows};
ghost use Rattle.droid_lists.specs.Formats.{changes_in};
ghost use Rattle.droid_export.specs.declared.reading.format_row.FormatRow.{FormatRow};
ghost use Rattle.droid_lists.specs.declared.format_lists.format_change.FormatChange.{FormatChange};
ghost use Rattle.droid_fixity.specs.FilePairs.{AreFilePairs};
ghost use Rattle.droid_fixity.specs.Inventories.{AreInOrder};
ghost use Rattle.droid_frame.specs.Items.{both_hashed, changes_between, is_any, other_moment};
ghost use Rattle.droid_fixity.specs.Reports.{IsReport, path_at};
ghost use Rattle.droid_fixity.specs.declared.difference.Difference.{Difference};
ghost use Rattle.droid_frame.specs.declared.item.Item.{Item};
ghost use Rattle.droid_fixity.specs.declared.pair.FilePair.{FilePair};
ghost use Rattle.droid_lists.specs.Exports.{AreRecordsOf};
ghost use Rattle.droid_frame.specs.declared.filter.Filter.{Filter};
ghost use Rattle.droid_frame.specs.declared.hash_kind.HashKind.{HashKind};
ghost use Rattle.droid_frame.specs.declared.record.Record.{Record};
ghost use Rattle.droid_pronom.specs.Registry.{Contents};

use droid_lists::{export_lists_its_records, the_items_of_the_list_agree};

/// States that nothing is reported where a list and a tree agree, and nowhere else: if nothing is, files being compared
/// by their hashes, each folder and file of the list was found and each that was found is in the list, each file with
/// an equal hash on both sides, and nothing was unreadable.
pub fn nothing_reported_is_agreement()
    ensures listed { (listed found : List Item) (differences : List Difference) (pairs : List FilePair)
        (unreadable : List SkippedEntry) (changes : List FormatChange)
        → IsReport listed found differences → AreFilePairs listed found pairs
        → AreFindings Hashes listed found differences pairs unreadable changes [] → EachListedIsSame listed found }
    ensures found { (listed found : List Item) (differences : List Difference) (pairs : List FilePair)
        (unreadable : List SkippedEntry) (changes : List FormatChange)
        → IsReport listed found differences → AreFilePairs listed found pairs
        → AreFindings Hashes listed found differences pairs unreadable changes [] → EachFoundIsSame listed found }
    ensures unreadable { (how : Measure) (listed found : List Item) (differences : List Difference)
        (pairs : List FilePair) (unreadable : List SkippedEntry) (changes : List FormatChange)
        → AreFindings how listed found differences pairs unreadable changes [] → unreadable ≡ [] }
{}

/// States the same of the list itself and of the whole tree, and not only of what was compared of them: if nothing is
/// reported, files being compared by their hashes, all of both was compared, and they agree.
pub fn all_was_compared_where_nothing_is_reported<W>()
    ensures { (listed found : List Item) (checked : Checked) (changes : List FormatChange) (old new : Recorder W)
        → Compares listed found checked old new
        → AreFindings Hashes checked.listed checked.found checked.differences.items checked.files.items
        new.skipped.items changes []
        → Agree listed found }
{}

/// States that the export of a tree's records, which `profile` writes, is read as a profile; that it has no difference
/// to a tree with these records in which nothing is unreadable; and that each of its files is then compared by a hash,
/// if each record of a file has one.
pub fn a_profile_agrees_with_its_tree()
    ensures form { (registry : Contents) (criteria : Filter) (hash : HashKind) (nodes : List Record) (in_bag : Bool)
        → form_of in_bag (text registry criteria hash nodes) ≡ Profile }
    ensures agrees { (registry : Contents) (criteria : Filter) (hash : HashKind) (nodes : List Record) (in_bag : Bool)
        (formats : Bool) (listed : Listed) (checked : Checked)
        → AreRecordsOf hash nodes
        → ListSays in_bag formats (text registry criteria hash nodes) (Ok listed)
        → IsInventory (readable_in [] listed.items) checked.listed
        → IsInventory (readable_in [] (items_of false (filter (meets criteria) nodes))) checked.found
        → IsReport checked.listed checked.found checked.differences.items → checked.differences.items ≡ [] }
    ensures hashed { (registry : Contents) (criteria : Filter) (hash : HashKind) (nodes : List Record) (in_bag : Bool)
        (formats : Bool) (listed : Listed) (checked : Checked)
        → AreRecordsOf hash nodes → HaveHashes nodes
        → ListSays in_bag formats (text registry criteria hash nodes) (Ok listed)
        → IsInventory (readable_in [] listed.items) checked.listed
        → IsInventory (readable_in [] (items_of false (filter (meets criteria) nodes))) checked.found
        → AreFilePairs checked.listed checked.found checked.files.items
        → AllByRecursion (λ pair. is_hashed checked.listed checked.found pair ≡ true) checked.files.items }
{
    export_lists_its_records();
    the_items_of_the_list_agree();
}

/// States that nothing is reported where there is no difference, nothing is unreadable, no file has other formats, and
/// each file has a hash on both sides, if files are to be compared by hashes.
pub fn nothing_is_reported_of_agreement()
    ensures { (how : Measure) (listed found : List Item) (pairs : List FilePair) (findings : List Finding)
        → AreFindings how listed found [] pairs [] [] findings
        → (how ≡ Hashes → AllByRecursion (λ pair. is_hashed listed found pair ≡ true) pairs) → findings ≡ [] }
{}

/// States that nothing is reported at the path of an item of the list that agrees with what was found: the same kind,
/// the same length and hash where both have one, and the same moment if moments are reported; and that it is not
/// reported as unchecked, if both have a hash.
pub fn what_agrees_is_not_reported()
    ensures agrees { (how : Measure) (listed found : List Item) (report : List Difference) (l f : ℕ) (a b : Item)
        → AreInOrder (map (λ item. item.path) listed) → AreInOrder (map (λ item. item.path) found)
        → IsReport listed found report
        → slice_get listed l ≡ Some a → slice_get found f ≡ Some b → a.path ≡ b.path
        → is_any (changes_between a b) ≡ false → (how ≡ Moments → other_moment a.modified b.modified ≡ false)
        → AllByRecursion (IsSilentAt how listed found a.path) report }
    ensures unchecked { (how : Measure) (listed found : List Item) (pairs : List FilePair) (l f : ℕ) (a b : Item)
        → AreInOrder (map (λ item. item.path) listed) → AreInOrder (map (λ item. item.path) found)
        → AreFilePairs listed found pairs
        → slice_get listed l ≡ Some a → slice_get found f ≡ Some b → a.path ≡ b.path
        → (how ≡ Hashes → both_hashed a b ≡ true)
        → AllByRecursion (λ pair. is_unchecked how listed found pair ≡ true → ¬ (path_at listed pair.listed ≡ a.path))
        pairs }
{}

/// States that no file of a tree has other formats than the rows of the export of its records. `text_is_read_back` of
/// `droid_export` states the premise: `csv` reads the export back.
pub fn the_formats_of_a_profile_agree()
    ensures { (registry : Contents) (criteria : Filter) (hash : HashKind) (nodes : List Record) (rows : List FormatRow)
        → AreRecordsOf hash nodes
        → AreRecords default_config st.StartRecord (strip_bom (text registry criteria hash nodes))
        (map fields (shown_rows registry criteria hash nodes))
        → HasRows (text registry criteria hash nodes) rows
        → changes_in rows (formats_of true (filter (meets criteria) nodes)) ≡ [] }
{}
