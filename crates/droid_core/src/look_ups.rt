//! The look-up of the profile that a request names.

ghost use Rattle.std.specs.Prelude.{◌≡◌, ℕ, Option, Ok, Err, Some, None, IfOk, IfErr};
ghost use Rattle.droid_frame.specs.declared.refusal.Refusal.TheVariants.{NoSuchProfile};
ghost use Rattle.droid_core_spec.specs.Setting.{Setting};
ghost use Rattle.droid_core_spec.specs.World.{World};
ghost use Rattle.droid_core.specs.LookUps.{FindsProfile, profile_in};
ghost use Rattle.droid_core.specs.Rows.{KeepsWorld};
ghost use Rattle.droid_store.specs.Rows.{Rows, profile_at};
ghost use Rattle.droid_store.specs.declared.fault.StoreFault.TheVariants.{Memory};

use droid_frame::Refusal;
use droid_store::{ProfileRow, StoreFault};

/// Returns the profile from what the store's look-up returned, or NoSuchProfile if there is none. The store fails only
/// if memory runs out, which becomes the refusal Memory.
pub fn profile_of(found: Result<Option<ProfileRow>, StoreFault>) -> Result<ProfileRow, Refusal>
    requires memory { IfErr found (λ fault. fault ≡ Memory) }
    ensures reported { result ≡ profile_in found }
    ensures row { IfOk result (λ row. found ≡ Ok (Some row)) }
    ensures found { (setting : Setting) (world : World) (number : ℕ) (rows : Rows) → KeepsWorld setting world rows
        → IfOk found (λ row. row ≡ profile_at number rows) → FindsProfile world number result }
{
    match found? {
        Some(row) => Ok(row),
        None => Err(Refusal::NoSuchProfile),
    }
}
