//! Drops the formats over which another format has priority.

ghost use Rattle.std.specs.Prelude.{◌≡◌, ◌<◌, IfOk, length};
ghost use Rattle.std.specs.List.{AllByRecursion};
ghost use Rattle.droid_pronom.specs.Registry.{AnyOf};
ghost use Rattle.droid_pronom.specs.FoundWindows.{Stands, AreFlagsOf, without};

use crate::rows::Priority;
use std::alloc::{AllocError, Global};

/// Returns, for each format, whether a format that hits has priority over it. `hit` has a flag for each format. A
/// format that is beaten itself beats others all the same.
pub fn beaten_formats(
    alloc: Global,
    hit: &[bool],
    priorities: &[Priority],
) -> Result<Vec<bool>, AllocError>
    requires { AllByRecursion (λ row. (row.place < length hit.now) × (row.over < length hit.now)) priorities.now }
    ensures len { IfOk result (λ beaten. length beaten.items ≡ length hit.now) }
    ensures each { IfOk result (λ beaten.
        AreFlagsOf beaten.items (λ k. AnyOf (λ row. Stands hit.now row.place × (row.over ≡ k)) priorities.now)) }
{
    let mut beaten = vec![in alloc; false; hit.len()]?;
    for row in priorities {
        let drops = hit[row.place as usize];
        if drops {
            beaten[row.over as usize] = true;
        }
    }
    Ok(beaten)
}

/// Returns, for each format, whether it hits and is not beaten: the flags of `hit` without those of `beaten`.
pub fn unbeaten(alloc: Global, hit: &[bool], beaten: &[bool]) -> Result<Vec<bool>, AllocError>
    requires { length hit.now ≡ length beaten.now }
    ensures { IfOk result (λ left. left.items ≡ without hit.now beaten.now) }
{
    let mut left = Vec::with_capacity(alloc, hit.len())?;
    for (place, is_hit) in hit.iter().enumerate() {
        left.push(*is_hit && !beaten[place])?;
    }
    Ok(left)
}
