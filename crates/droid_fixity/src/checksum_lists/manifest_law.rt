//! Laws of lists of checksums. Each is the contract of a function that does nothing.

ghost use Rattle.std.specs.Prelude.{◌≡◌, ◌≢◌, ◌↔◌, ℕ, List, [], Ok};
ghost use Rattle.droid_frame.specs.declared.hash_value.HashValue.{HashValue};
ghost use Rattle.droid_frame.specs.declared.item.Item.{Item};
ghost use Rattle.droid_fixity.specs.Grammar.{NamesFile};
ghost use Rattle.droid_fixity.specs.Lines.{file_item, meaning};
ghost use Rattle.droid_fixity.specs.Lists.{HaveOneKind, items_of};
ghost use Rattle.droid_fixity.specs.ReadBack.{AreListed, lines_of};
ghost use Rattle.droid_fixity.specs.declared.checksum_lists.form.ManifestForm.{ManifestForm};
ghost use Rattle.droid_fixity.specs.declared.checksum_lists.form.ManifestForm.TheVariants.{Checksums};
ghost use Rattle.droid_fixity.specs.declared.checksum_lists.line_content.Meaning.TheVariants.{File};

/// States that the lines of files are read as exactly these files, in the same order. A list of no file is a fault.
pub fn lines_are_read_back()
    ensures { (items : List Item) → AreListed items → items ≢ [] → items_of Checksums (lines_of items) ≡ Ok items }
{}

/// States which lines name a file: those of the grammar, and no others.
pub fn lines_of_the_grammar_name_files()
    ensures { (form : ManifestForm) (line : List ℕ) (hash : HashValue) (path : List ℕ) →
        (meaning form line ≡ File (file_item hash path)) ↔ NamesFile form line hash path }
{}

/// States that the digests of a list that can be read are of one kind.
pub fn lists_have_one_kind()
    ensures { (form : ManifestForm) (text : List ℕ) (items : List Item) → items_of form text ≡ Ok items
        → HaveOneKind items }
{}
