//! Compares a file's extension with those that the formats list.

ghost use Rattle.std.specs.Prelude.{◌≡◌, ◌≢◌, ◌↔◌, ◌⊎◌, ◌<◌, IsTrue, IfOk, true, [], length};
ghost use Rattle.std.specs.List.{AllByRecursion};
ghost use Rattle.droid_pronom.specs.Registry.{AnyOf};
ghost use Rattle.droid_pronom.specs.FoundWindows.{Stands, AreFlagsOf};

use crate::rows::ListedExtension;
use std::alloc::{AllocError, Global};

/// Returns, for each format, whether it lists the extension `wanted` and may be identified by it.
///
/// With `match_all` each format may, without it only those that have no signature. `wanted` is in lower case.
pub fn named_formats(
    alloc: Global,
    extensions: &[ListedExtension],
    wanted: &str,
    signed: &[bool],
    match_all: bool,
) -> Result<Vec<bool>, AllocError>
    requires { AllByRecursion (λ row. row.place < length signed.now) extensions.now }
    ensures len { IfOk result (λ named. length named.items ≡ length signed.now) }
    ensures each { IfOk result (λ named.
        AreFlagsOf named.items (λ k.
        AnyOf
        (λ row.
        (row.place ≡ k) × (wanted.now ≢ []) × (row.extension ≡ wanted.now)
        × ((match_all ≡ true) ⊎ (Stands signed.now row.place → ⊥)))
        extensions.now)) }
{
    let mut named = vec![in alloc; false; signed.len()]?;
    for row in extensions {
        if is_named(row, wanted, signed, match_all) {
            named[row.place as usize] = true;
        }
    }
    Ok(named)
}

/// Returns whether the row lists the extension `wanted`, which is not empty, and its format may be identified by it:
/// with `match_all`, or because it has no signature.
fn is_named(row: &ListedExtension, wanted: &str, signed: &[bool], match_all: bool) -> bool
    requires { row.now.place < length signed.now }
    ensures { IsTrue result
        ↔ ((wanted.now ≢ []) × (row.now.extension ≡ wanted.now)
        × ((match_all ≡ true) ⊎ (Stands signed.now row.now.place → ⊥))) }
{
    (match_all || !signed[row.place as usize]) && is_listed(row, wanted)
}

/// Returns whether the row lists the extension `wanted`, and that is not empty. Both are in lower case.
fn is_listed(row: &ListedExtension, wanted: &str) -> bool
    ensures { IsTrue result ↔ ((wanted.now ≢ []) × (row.now.extension ≡ wanted.now)) }
{
    !wanted.is_empty() && row.extension.as_str() == wanted
}

/// Returns whether the formats whose flag in `left` is set list extensions, but not this one. `wanted` is in lower
/// case; if it is empty, there is no mismatch.
pub fn is_mismatch(left: &[bool], extensions: &[ListedExtension], wanted: &str) -> bool
    requires { AllByRecursion (λ row. row.place < length left.now) extensions.now }
    ensures { IsTrue result
        ↔ ((wanted.now ≢ []) × AnyOf (λ row. Stands left.now row.place) extensions.now
        × (AnyOf (λ row. Stands left.now row.place × (row.extension ≡ wanted.now)) extensions.now → ⊥)) }
{
    let mut lists_one = false;
    for row in extensions {
        if left[row.place as usize] {
            if row.extension.as_str() == wanted {
                return false;
            }
            lists_one = true;
        }
    }
    lists_one && !wanted.is_empty()
}
