//! `RecoveryFault`: why a request could not be recovered from a record.

ghost use Rattle.std.specs.Prelude.{◌≡◌};

use droid_frame::Refusal;
use droid_store::StoreFault;

/// Why a request could not be recovered. Nothing was changed.
#[derive(Clone, Copy)]
pub enum RecoveryFault {
    /// Memory ran out.
    Memory,
    /// No service accepted such a request here with such a reply.
    Unfit,
}

impl From<StoreFault> for RecoveryFault {
    ghost use Rattle.droid_recovery.specs.Faults.{of_store};

    ghost from_gives = { λ fault it. it ≡ of_store fault };

    /// Reports a lack of memory as `Memory`, and whatever else the store refused as `Unfit`: no service accepted it.
    fn from(fault: StoreFault) -> RecoveryFault {
        match fault {
            StoreFault::Memory => RecoveryFault::Memory,
            StoreFault::Refused => RecoveryFault::Unfit,
        }
    }
}
