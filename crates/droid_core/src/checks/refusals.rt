//! The first refusal of a request: the conditions that are checked behind its look-ups, in their order. `Judging.antt`
//! of droid_core_spec has this order, as `create_checks` and so on; in another one the prover refuses the function.

ghost use Rattle.std.specs.Prelude.{◌≡◌, ◌<◌, ℕ, List, length, None, IsTrue, IfNone};
ghost use Rattle.droid_assembly.specs.Pieces.{AreSizes};
ghost use Rattle.droid_core_spec.specs.Conditions.{is_moment, is_piece_size, is_scan_limit, is_too_large};
ghost use Rattle.droid_core_spec.specs.Files.{unfinished_in};
ghost use Rattle.droid_core_spec.specs.Judging.{refusal_of, create_checks, place_checks, folder_checks, file_checks};
ghost use Rattle.droid_core_spec.specs.Judging.{export_checks};
ghost use Rattle.droid_core_spec.specs.Limits.{Limits};
ghost use Rattle.droid_core_spec.specs.World.{Node, World};

use crate::checks::options::{is_part_size, is_piece_size, is_scan_limit, is_too_large};
use crate::checks::room::Room;
use droid_core_spec::is_moment;
use droid_frame::{Limit, Refusal};

/// Returns the first refusal of a CreateProfile, if there is one: BadOption for its scan limit, LimitReached for the
/// profiles.
pub fn create_refusal(scan_limit: u32, profiles: Room) -> Option<Refusal>
    ensures first { (limits : Limits) (world : World) → profiles.limit ≡ limits.profiles
        → profiles.count ≡ length world.profiles
        → result ≡ refusal_of (create_checks limits world scan_limit) }
    ensures scan_limit { IfNone result (IsTrue (is_scan_limit scan_limit)) }
    ensures room { IfNone result (profiles.count < profiles.limit) }
{
    if !is_scan_limit(scan_limit) {
        return Some(Refusal::BadOption);
    }
    if profiles.is_full() {
        return Some(Refusal::LimitReached(Limit::Profiles));
    }
    None
}

/// Returns the first refusal of an AddFolder whose place and name are not refused, if there is one: BadOption for its
/// moment, LimitReached for the profile's nodes.
pub fn folder_refusal(modified: i64, nodes: Room) -> Option<Refusal>
    ensures first { (limits : Limits) (all : List Node) (parent : ℕ) (name : List ℕ) → nodes.limit ≡ limits.nodes
        → nodes.count ≡ length all
        → refusal_of (place_checks all parent name) ≡ None
        → result ≡ refusal_of (folder_checks limits all parent modified name) }
    ensures moment { IfNone result (IsTrue (is_moment modified)) }
    ensures room { IfNone result (nodes.count < nodes.limit) }
{
    if !is_moment(modified) {
        return Some(Refusal::BadOption);
    }
    if nodes.is_full() {
        return Some(Refusal::LimitReached(Limit::Nodes));
    }
    None
}

/// Returns the first refusal of an AddFile whose place and name are not refused, if there is one: BadOption for its
/// moment or its piece size in this version, TooLarge, LimitReached for the profile's nodes, LimitReached for the
/// service's unfinished files.
pub fn file_refusal(
    version: u8,
    modified: i64,
    size: u64,
    piece_size: u32,
    nodes: Room,
    unfinished: Room,
) -> Option<Refusal>
    ensures first { (limits : Limits) (world : World) (all : List Node) (parent : ℕ) (name : List ℕ)
        → nodes.limit ≡ limits.nodes → nodes.count ≡ length all
        → unfinished.limit ≡ limits.unfinished → unfinished.count ≡ unfinished_in world
        → refusal_of (place_checks all parent name) ≡ None
        → result ≡ refusal_of (file_checks limits world version all parent modified size piece_size name) }
    ensures moment { IfNone result (IsTrue (is_moment modified)) }
    ensures sizes { IfNone result ((scan_limit : ℕ) → IsTrue (is_scan_limit scan_limit)
        → AreSizes size piece_size scan_limit) }
    ensures room { IfNone result (nodes.count < nodes.limit) }
    ensures unfinished { IfNone result (unfinished.count < unfinished.limit) }
{
    if !is_moment(modified) {
        return Some(Refusal::BadOption);
    }
    if !is_piece_size(version, piece_size) {
        return Some(Refusal::BadOption);
    }
    if is_too_large(size, piece_size) {
        return Some(Refusal::TooLarge);
    }
    if nodes.is_full() {
        return Some(Refusal::LimitReached(Limit::Nodes));
    }
    if unfinished.is_full() {
        return Some(Refusal::LimitReached(Limit::Unfinished));
    }
    None
}

/// Returns the refusal of an Export whose part may not have this many bytes: BadOption, or `None`.
pub fn export_refusal(max: u32) -> Option<Refusal>
    ensures first { result ≡ refusal_of (export_checks max) }
{
    if !is_part_size(max) {
        return Some(Refusal::BadOption);
    }
    None
}
