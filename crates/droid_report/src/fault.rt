//! Why a CSV has no report.

ghost use Rattle.std.specs.Prelude.{◌≡◌};

use droid_export::ListFault;
use droid_fixity::SamePath;
use std::alloc::AllocError;

/// Why a profile cannot be read.
#[derive(Drop)]
pub enum ProfileFault {
    /// Its CSV is malformed or contradicts itself, or memory ran out.
    Csv(ListFault),
    /// Two of its folders and files have this path.
    Twice(SamePath),
}

impl From<AllocError> for ProfileFault {
    ghost use Rattle.droid_export.specs.declared.reading.fault.ListFault.TheVariants.{Memory};
    ghost use Rattle.droid_report.specs.declared.fault.ProfileFault.TheVariants.{Csv};

    ghost from_gives = { λ _ fault. fault ≡ Csv Memory };

    /// Tells that memory ran out as the fault of the CSV with this name.
    fn from(_error: AllocError) -> ProfileFault {
        ProfileFault::Csv(ListFault::Memory)
    }
}
