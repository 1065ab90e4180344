//! The faults of an assembly: why it took no piece or could not end, and what a client is told of the first.

ghost use Rattle.std.specs.Prelude.{◌≡◌};

use droid_frame::{Blob, Refusal};
use thiserror::Error;

/// Why a piece was not accepted. Each fault returns the bytes of the piece.
#[derive(Debug, Drop, Error)]
pub enum PutFault {
    /// The file has no piece of this index, or its piece of this index has another length.
    #[error("no piece of this index and length belongs to the file")]
    BadPiece { bytes: Blob },
    /// The piece of this index is already settled.
    #[error("the piece was taken before")]
    PieceHeld { bytes: Blob },
    /// The index is 16 or more past `missing`, the index of the first missing piece.
    #[error("the piece lies too far past piece {missing}, which is missing")]
    TooFarAhead { missing: u32, bytes: Blob },
}

impl From<PutFault> for Refusal {
    ghost use Rattle.droid_assembly.specs.Faults.{reported_as};

    ghost from_gives = { λ fault refusal. refusal ≡ reported_as fault };

    /// Returns the refusal that is sent to the client, and drops the bytes of the piece.
    fn from(fault: PutFault) -> Refusal {
        match fault {
            PutFault::BadPiece { .. } => Refusal::BadPiece,
            PutFault::PieceHeld { .. } => Refusal::PieceHeld,
            PutFault::TooFarAhead { missing, .. } => Refusal::TooFarAhead { missing },
        }
    }
}

/// The file is incomplete: `missing` is the index of the first missing piece.
#[derive(Clone, Copy, Debug, Error)]
#[error("piece {missing} is missing")]
pub struct Incomplete {
    pub missing: u32,
}
