//! Laws of settings and of rows. Each is the contract of a function that does nothing, and is proved with it.

ghost use Rattle.std.specs.Prelude.{◌≡◌, ℕ, Some};
ghost use Rattle.droid_core_spec.specs.Limits.{Limits};
ghost use Rattle.droid_core_spec.specs.Records.{records};
ghost use Rattle.droid_core_spec.specs.Setting.{Setting};
ghost use Rattle.droid_core_spec.specs.World.{Profile, World, numbered};
ghost use Rattle.droid_core.specs.Identified.{IsOf, setting_of};
ghost use Rattle.droid_core.specs.Rows.{KeepsNodes};
ghost use Rattle.droid_pronom.specs.Registry.{Contents};
ghost use Rattle.droid_store.specs.Rows.{Rows, records_of};

/// For any limits and any registry there is a setting, and it can be computed. So a clause about every setting of a
/// service's registry is about at least one.
pub fn a_setting_is_there()
    ensures { (limits : Limits) (registry : Contents) → IsOf registry (setting_of limits registry) }
{}

/// If the rows of nodes stand for a world, the records that the store reads from a profile's rows are those of the
/// profile: one for each folder and each finished file, in their order, and no others.
pub fn rows_are_the_records()
    ensures { (setting : Setting) (world : World) (rows : Rows) (number : ℕ) (profile : Profile)
        → KeepsNodes setting world rows
        → numbered world.profiles number ≡ Some profile → records_of number rows ≡ records setting profile }
{}
