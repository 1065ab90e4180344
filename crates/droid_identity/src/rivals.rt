//! The formats that beat another one: they hit, and have priority over it.

ghost use Rattle.std.specs.Prelude.{◌↔◌, ◌<◌, IfOk, IsTrue, length};
ghost use Rattle.std.specs.List.{AllByRecursion};
ghost use Rattle.droid_pronom.specs.FoundWindows.{Stands};
ghost use Rattle.droid_identity.specs.Beaters.{Beaters, Beats};

use droid_pronom::Priority;
use std::alloc::{AllocError, Global};

/// Returns the places of the formats that hit and have priority over the format at this place, in the order of the
/// priorities; where two of these say the same, a place comes twice. `hit` has a flag for each format: whether it hits.
pub fn beaters(
    alloc: Global,
    hit: &[bool],
    priorities: &[Priority],
    place: u32,
) -> Result<Vec<u32>, AllocError>
    requires { AllByRecursion (λ row. row.place < length hit.now) priorities.now }
    ensures { IfOk result (λ places. Beaters (Stands hit.now) place priorities.now places.items) }
{
    let mut places = Vec::new(alloc);
    for row in priorities {
        if beats(hit, *row, place) {
            places.push(row.place)?;
        }
    }
    Ok(places)
}

/// Returns whether this row gives a format that hits priority over the format at this place.
fn beats(hit: &[bool], row: Priority, place: u32) -> bool
    requires { row.place < length hit.now }
    ensures { IsTrue result ↔ Beats (Stands hit.now) place row }
{
    row.over == place && hit[row.place as usize]
}
