//! Laws of submissions. Each stands on an empty function and is proved with it.

ghost use Rattle.droid_remote.specs.NumberLaws.{FramesOfOneNumberAskTheSame};

use crate::number_laws::equal_numbers_ask_the_same;

/// Two calls of one submission whose frames have the same number ask the same, but for the bytes of a piece and the
/// options of the profile; or both are numbered by digests, and two different texts have digests that begin alike.
pub fn frames_of_one_number_ask_the_same()
    ensures { FramesOfOneNumberAskTheSame }
{
    equal_numbers_ask_the_same();
}
