//! Laws of fixity. Each is the contract of a function that does nothing.

ghost use Rattle.std.specs.Prelude.{◌≡◌, List, [], map};
ghost use Rattle.droid_fixity.specs.Inventories.{AreInOrder};
ghost use Rattle.droid_fixity.specs.Reports.{IsReport};
ghost use Rattle.droid_fixity.specs.declared.difference.Difference.{Difference};
ghost use Rattle.droid_frame.specs.declared.item.Item.{Item};

/// States that the report is empty if the same items were found that the list has.
pub fn same_items_have_no_difference()
    ensures { (items : List Item) (report : List Difference) → AreInOrder (map (λ item. item.path) items)
        → IsReport items items report → report ≡ [] }
{}
