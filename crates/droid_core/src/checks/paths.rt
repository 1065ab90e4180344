//! The path of a new node: whether it is too long, and the path itself.

ghost use Rattle.std.specs.Prelude.{◌≡◌, ◌+◌, ◌++◌, ◌∷◌, nat_lt, length, IfOk};

use droid_frame::Text;
use std::alloc::{AllocError, Global};

/// Returns whether the path of a new node would have more than 4,096 bytes: its folder's path, which is empty at the
/// top, a `/` and its name. The sums stop at the largest number, so they cannot overflow. `is_too_deep` of
/// droid_core_spec and `AreShort` in `specs/Rows.antt` have this number, and the prover ties them.
pub fn is_too_deep_below(parent_path: &str, name: &str) -> bool
    ensures { result ≡ nat_lt 4096 (length parent_path.now + 1 + length name.now) }
{
    4_096
        < parent_path
            .len()
            .saturating_add(1)
            .saturating_add(name.len())
}

/// Returns the path of a new node: its folder's path, which is empty at the top, `/` and its name. Fails only if there
/// is no memory.
pub fn new_path(alloc: Global, parent_path: &str, name: &str) -> Result<Text, AllocError>
    ensures { IfOk result (λ path. path ≡ parent_path.now ++ 47 ∷ name.now) }
{
    let mut path = String::from_str(alloc, parent_path)?;
    path.push('/')?;
    path.push_str(name)?;
    Ok(Text::from(path))
}
