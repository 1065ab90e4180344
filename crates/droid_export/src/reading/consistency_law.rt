//! The law on lists whose rows do not contradict each other.

ghost use Rattle.std.specs.Prelude.{◌≡◌, List, None};
ghost use Rattle.droid_frame.specs.declared.item.Item.{Item};
ghost use Rattle.droid_export.specs.FolderNumbers.{AreConsistent, contradiction};
ghost use Rattle.droid_export.specs.declared.reading.tag.Tag.{Tag};

/// States what it means that no row contradicts another: no two rows have one ID, and a folder has one number, which no
/// other folder has.
pub fn rows_agree()
    ensures { (items : List Item) (tags : List Tag) → contradiction items tags ≡ None → AreConsistent items tags }
{}
