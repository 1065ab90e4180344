//! The faults of sending: why it ended, the names that the program prints, and how one kind of fault becomes another.

ghost use Rattle.std.specs.Prelude.{◌≡◌};
ghost use Rattle.droid_lines.specs.Faults.{frame_fault_name, send_fault_name};

use droid_client::{HearFault, SubmitFault};
use droid_frame::{FrameFault, ReadFault};
use std::alloc::AllocError;

/// Why sending ended before the last line.
#[derive(Clone, Copy)]
pub enum SendFault {
    /// The lines could not be read.
    Lines,
    /// Out of memory, or there are more than 2^64 - 2 lines.
    Memory,
    /// The next number would be 2^63.
    NumbersUsedUp,
    /// A request's frame could not be written.
    Frames,
    /// The replies ended where one was due.
    Closed,
    /// The frame of a reply could not be read.
    Replies(FrameFault),
    /// A frame arrived that holds no reply.
    Malformed,
    /// A reply arrived for another client, for a number that was never submitted, in another version than its request,
    /// or of a kind that doesn't answer it.
    Stranger,
    /// A reply arrived for a request that already has an answer.
    Repeated,
    /// What a line prints could not be written.
    Text,
}

impl SendFault {
    /// Returns the name that the program prints. Faults of different streams may have one name, such as `Write`.
    pub fn name(&self) -> &'static str
        ensures { result.now ≡ send_fault_name self.now }
    {
        match self {
            SendFault::Lines => "Read",
            SendFault::Memory => "Memory",
            SendFault::NumbersUsedUp => "NumbersUsedUp",
            SendFault::Frames | SendFault::Text => "Write",
            SendFault::Closed => "Closed",
            SendFault::Replies(fault) => frame_fault_name(fault),
            SendFault::Malformed => "Malformed",
            SendFault::Stranger => "Stranger",
            SendFault::Repeated => "Repeated",
        }
    }
}

/// Returns the name of a frame's fault, as the program prints it.
pub fn frame_fault_name(fault: &FrameFault) -> &'static str
    ensures { result.now ≡ frame_fault_name fault.now }
{
    match fault {
        FrameFault::Truncated => "Truncated",
        FrameFault::BadVersion => "BadVersion",
        FrameFault::TooLong => "TooLong",
        FrameFault::Memory => "Memory",
        FrameFault::Read => "Read",
    }
}

impl From<ReadFault> for SendFault {
    ghost use Rattle.droid_lines.specs.declared.send_fault.SendFault.TheVariants.{Lines};

    ghost from_gives = { λ _ fault. fault ≡ Lines };

    /// The lines could not be read: in this crate only their reader has this fault.
    fn from(_fault: ReadFault) -> SendFault {
        SendFault::Lines
    }
}

impl From<AllocError> for SendFault {
    ghost use Rattle.droid_lines.specs.declared.send_fault.SendFault.TheVariants.{Memory};

    ghost from_gives = { λ _ fault. fault ≡ Memory };

    /// Memory ran out.
    fn from(_error: AllocError) -> SendFault {
        SendFault::Memory
    }
}

impl From<SubmitFault> for SendFault {
    ghost use Rattle.droid_lines.specs.Faults.{submit_fault};

    ghost from_gives = { λ from fault. fault ≡ submit_fault from };

    /// Keeps the name of a fault that the client had when it submitted a request.
    fn from(fault: SubmitFault) -> SendFault {
        match fault {
            SubmitFault::NumbersUsedUp => SendFault::NumbersUsedUp,
            SubmitFault::Memory => SendFault::Memory,
        }
    }
}

impl From<HearFault> for SendFault {
    ghost use Rattle.droid_lines.specs.Faults.{hear_fault};

    ghost from_gives = { λ from fault. fault ≡ hear_fault from };

    /// Keeps the name of a fault that the client had when it took a reply.
    fn from(fault: HearFault) -> SendFault {
        match fault {
            HearFault::Malformed => SendFault::Malformed,
            HearFault::Memory => SendFault::Memory,
        }
    }
}
