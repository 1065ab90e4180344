//! Why an unfinished file is not identified, and the refusal that the client gets for it.

ghost use Rattle.std.specs.Prelude.{◌≡◌};

use droid_assembly::Incomplete;
use droid_frame::Refusal;
use std::alloc::AllocError;

/// Why an unfinished file is not identified. It stays as it was.
#[derive(Clone, Copy)]
pub enum IdentifyFault {
    /// A piece is missing: `missing` is the smallest such index.
    Incomplete { missing: u32 },
    /// There is no memory for the finding.
    Memory,
}

impl From<Incomplete> for IdentifyFault {
    ghost use Rattle.droid_core.specs.declared.unfinished.fault.IdentifyFault.{IdentifyFault};

    ghost from_gives = { λ from fault. fault ≡ IdentifyFault.Incomplete from.missing };

    /// Keeps the first missing index.
    fn from(fault: Incomplete) -> IdentifyFault {
        IdentifyFault::Incomplete {
            missing: fault.missing,
        }
    }
}

impl From<AllocError> for IdentifyFault {
    ghost use Rattle.droid_core.specs.declared.unfinished.fault.IdentifyFault.{IdentifyFault};

    ghost from_gives = { λ _ fault. fault ≡ IdentifyFault.Memory };

    /// Reports out of memory as `Memory`.
    fn from(_error: AllocError) -> IdentifyFault {
        IdentifyFault::Memory
    }
}

impl From<IdentifyFault> for Refusal {
    ghost use Rattle.droid_core.specs.Faults.{reported_as};

    ghost from_gives = { λ fault refusal. refusal ≡ reported_as fault };

    /// Returns the refusal that the client gets: Incomplete, with the first missing index, or Memory.
    fn from(fault: IdentifyFault) -> Refusal {
        match fault {
            IdentifyFault::Incomplete { missing } => Refusal::Incomplete { missing },
            IdentifyFault::Memory => Refusal::Memory,
        }
    }
}
