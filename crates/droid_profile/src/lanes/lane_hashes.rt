//! Hashes the bytes of all lanes together, and sees whether any lane is busy.

ghost use Rattle.std.specs.Prelude.{◌≡◌, ◌<◌, ℕ, List, ◌++◌, length, take, false, IsTrue};
ghost use Rattle.droid_hash.specs.Scanning.{Scanned, lanes_kind};
ghost use Rattle.droid_profile.specs.LaneSteps.{Advances, AllPass, AreIdle, rest_of};
ghost use Rattle.droid_profile.specs.TurnsLeft.{HasBusy};

use crate::lanes::file_lane::FileLane;
use droid_hash::HashLanes;

/// Hashes the next bytes of all lanes: as many of each as the lane with the fewest has left, those that have none left
/// aside.
pub(crate) fn advance(lanes: &mut Vec<FileLane>, hashes: &mut HashLanes)
    requires { length lanes.old.items ≡ 8 }
    ensures { Advances lanes.old.items lanes.new.items hashes.old hashes.new }
{
    let count = take_rests(lanes.as_slice(), hashes);
    pass_all(lanes, count);
}

/// Counts `count` more bytes of each lane as hashed, or fewer if not so many are left there.
fn pass_all(lanes: &mut Vec<FileLane>, count: usize)
    ensures { AllPass lanes.old.items lanes.new.items count }
{
    for lane in 0..lanes.len() {
        lanes[lane].pass(count);
    }
}

/// Hashes the first bytes of what is left in each of the eight lanes, and returns how many of each. If bytes are left
/// in any lane, that is not 0.
fn take_rests(lanes: &[FileLane], hashes: &mut HashLanes) -> usize
    requires { length lanes.now ≡ 8 }
    ensures kind { lanes_kind hashes.new ≡ lanes_kind hashes.old }
    ensures taken { (j : ℕ) → j < 8 → (bytes : List ℕ) → Scanned hashes.old j bytes
        → Scanned hashes.new j (bytes ++ take result (rest_of lanes.now j)) }
    ensures some { (j : ℕ) → j < 8 → 0 < length (rest_of lanes.now j) → 0 < result }
{
    hashes.advance([
        lanes[0].rest(),
        lanes[1].rest(),
        lanes[2].rest(),
        lanes[3].rest(),
        lanes[4].rest(),
        lanes[5].rest(),
        lanes[6].rest(),
        lanes[7].rest(),
    ])
}

/// Returns whether no file is read in any lane.
pub(crate) fn are_idle(lanes: &[FileLane]) -> bool
    ensures idle { IsTrue result → AreIdle lanes.now }
    ensures busy { result ≡ false → HasBusy lanes.now }
{
    for lane in lanes {
        if lane.busy {
            return false;
        }
    }
    true
}
