//! The law on a list that agrees with the items that were found.

ghost use Rattle.std.specs.Prelude.{◌≡◌, List, []};
ghost use Rattle.droid_fixity.specs.Reports.{IsReport};
ghost use Rattle.droid_fixity.specs.declared.difference.Difference.{Difference};
ghost use Rattle.droid_frame.specs.declared.item.Item.{Item};
ghost use Rattle.droid_lists.specs.Inventories.{IsInventory};

use droid_fixity::same_items_have_no_difference;

/// States that there is no difference if exactly the items of the list were found, in any order.
pub fn the_items_of_the_list_agree()
    ensures { (items listed found : List Item) (differences : List Difference) → IsInventory items listed
        → IsInventory items found → IsReport listed found differences → differences ≡ [] }
{
    same_items_have_no_difference();
}
