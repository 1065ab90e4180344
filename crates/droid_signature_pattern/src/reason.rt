//! Why a registry cannot hold a signature, and how one kind of fault becomes another. What each reason says stands in
//! `specs/Reasons.antt` and `specs/Outcomes.antt`.

ghost use Rattle.std.specs.Prelude.{◌≡◌};
ghost use Rattle.droid_signature_pattern.specs.declared.reason.Stop.TheVariants as stops;

use std::alloc::{AllocError, AllocFailed};

/// Why a registry cannot hold a signature. `lib.rt` says where else the numbers stand.
#[derive(Clone, Copy)]
pub enum Reason {
    /// It has no byte sequence, so it would hit every file.
    NoSequence,
    /// The offsets of a byte sequence count neither from the beginning nor from the end of the file.
    Reference,
    /// A byte sequence has no subsequence.
    NoSubsequence,
    /// A byte sequence from the end has several subsequences.
    SeveralFromEnd,
    /// The subsequences' positions are not 1, 2, 3 and so on.
    SubsequencePositions,
    /// A subsequence behind the first has an upper offset other than 0.
    FurtherUpperOffset,
    /// The first subsequence or a fragment has no upper offset.
    NoUpperOffset,
    /// An upper offset is less than the lower one.
    OffsetOrder,
    /// An offset is over 65,535.
    LargeOffset,
    /// On one side of a subsequence the fragments' positions are not 1 to the largest, each at least once.
    FragmentPositions,
    /// A fragment's position is over 64.
    LargePosition,
    /// The text of a sequence or a fragment is outside the grammar, as one with a bit mask is.
    Text,
    /// The text of a sequence or a fragment has more than 65,536 bytes.
    LongText,
    /// A range is one of more than 16 bytes.
    LongRange,
    /// More than 64 alternatives would have to be written out.
    ManyAlternatives,
    /// A pattern is over 4,096 bytes.
    LongPattern,
    /// The patterns of a byte sequence have more than 16,384 bytes in all.
    LongPatterns,
    /// A pattern has no byte, or ends in a gap.
    GapAtEnd,
}

/// Why the making of patterns stopped.
#[derive(Clone, Copy)]
pub enum Stop {
    Memory,
    LeftOut(Reason),
}

impl From<AllocError> for Stop {
    ghost from_gives = { λ _ e. e ≡ stops.Memory };

    /// Memory ran out.
    fn from(_: AllocError) -> Self {
        Stop::Memory
    }
}

impl<T: Drop> From<AllocFailed<T>> for Stop {
    ghost from_gives = { λ _ e. e ≡ stops.Memory };

    /// Memory ran out. Drops what it ran out for.
    fn from(_: AllocFailed<T>) -> Self {
        Stop::Memory
    }
}

impl From<Reason> for Stop {
    ghost from_gives = { λ reason e. e ≡ stops.LeftOut reason };

    /// Lets `?` return a reason.
    fn from(reason: Reason) -> Self {
        Stop::LeftOut(reason)
    }
}
