//! The faults of serving a stream by `serve`.

ghost use Rattle.std.specs.Prelude.{◌≡◌};

use droid_frame::FrameFault;
use thiserror::Error;

/// Why serving a stream ended early. The service keeps what the frames before did.
#[derive(Clone, Copy, Debug, Error)]
pub enum ServeFault {
    /// The next frame could not be read. All frames before it were answered.
    #[error("{0}")]
    Frame(FrameFault),
    /// A reply could not be written. Of all reply frames together, exactly the first `written` bytes were.
    #[error("a reply could not be written, after {written} bytes")]
    Write { written: u64 },
}

impl From<FrameFault> for ServeFault {
    ghost use Rattle.droid_wire.specs.declared.serve_fault.ServeFault.TheVariants.{Frame};

    ghost from_gives = { λ from fault. fault ≡ Frame from };

    /// Keeps the fault of a frame as it is.
    fn from(fault: FrameFault) -> ServeFault {
        ServeFault::Frame(fault)
    }
}
