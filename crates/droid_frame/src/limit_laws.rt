//! The law that the limits in the code are those of the definitions. It is the contract of a function that does
//! nothing.

ghost use Rattle.std.specs.Prelude.{◌≡◌, ◌^◌};
ghost use Rattle.droid_frame.specs.Limits.{part_limit, puid_limit, puids_limit};

use crate::frame::NUMBER_LIMIT;
use crate::reply::{PART_LIMIT, PUID_LIMIT, PUIDS_LIMIT};

/// The constants of this crate equal the limits that `specs/Limits.antt` defines, and 2 ^ 63. So a constant is changed
/// together with its definition: the prover refuses one of the two alone.
pub fn constants_are_the_limits()
    ensures number { NUMBER_LIMIT ≡ 2 ^ 63 }
    ensures puids { PUIDS_LIMIT ≡ puids_limit }
    ensures puid { PUID_LIMIT ≡ puid_limit }
    ensures part { PART_LIMIT ≡ part_limit }
{}
