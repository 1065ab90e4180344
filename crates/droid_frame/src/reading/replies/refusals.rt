//! Readers of refusals: a number of one byte, and behind 15, 16 and 17 one field. Each returns the refusal and the
//! bytes after it, or `None` if the number is unknown or the field is malformed.
//!
//! The numbers are those of `Refusal::number`; the prover ties both to `refusal_number` of `specs/Refusals.antt`.

ghost use Rattle.std.specs.Prelude.{◌≡◌};
ghost use Rattle.std.specs.Option.{option_map};
ghost use Rattle.droid_frame.specs.ReplyRefusals.{limit_at, plain_refusal, plain_refusal_at, too_far_at, incomplete_at};
ghost use Rattle.droid_frame.specs.ReplyRefusals.{limit_reached_at, refusal_after, refusal_at};

use crate::reading::fields::u32_at;
use crate::refusal::{Limit, Refusal};

/// Reads a refusal: its number, and the field behind it if it has one. `None` if no byte is left too.
#[tactic(auto, unfolding(crate::specs::ReplyRefusals::refusal_at))]
pub(crate) fn refusal_at(bytes: &[u8]) -> Option<(Refusal, &[u8])>
    ensures { option_map (λ x. (x.0, x.1.now)) result ≡ refusal_at bytes.now }
{
    match bytes {
        [] => None,
        [number, rest @ ..] => refusal_after(*number, rest),
    }
}

/// Reads the field that belongs to this number of a refusal, from the front of `rest`, and returns the refusal.
#[tactic(auto, unfolding(crate::specs::ReplyRefusals::refusal_after))]
fn refusal_after(number: u8, rest: &[u8]) -> Option<(Refusal, &[u8])>
    ensures { option_map (λ x. (x.0, x.1.now)) result ≡ refusal_after number rest.now }
{
    match number {
        15 => too_far_at(rest),
        16 => incomplete_at(rest),
        17 => limit_reached_at(rest),
        _ => plain_refusal_at(number, rest),
    }
}

/// Reads the field of a TooFarAhead: the index of the first missing piece, four bytes.
#[tactic(auto, unfolding(crate::specs::ReplyRefusals::too_far_at))]
fn too_far_at(bytes: &[u8]) -> Option<(Refusal, &[u8])>
    ensures { option_map (λ x. (x.0, x.1.now)) result ≡ too_far_at bytes.now }
{
    let (missing, rest) = u32_at(bytes)?;
    Some((Refusal::TooFarAhead { missing }, rest))
}

/// Reads the field of an Incomplete: the index of the first missing piece, four bytes.
#[tactic(auto, unfolding(crate::specs::ReplyRefusals::incomplete_at))]
fn incomplete_at(bytes: &[u8]) -> Option<(Refusal, &[u8])>
    ensures { option_map (λ x. (x.0, x.1.now)) result ≡ incomplete_at bytes.now }
{
    let (missing, rest) = u32_at(bytes)?;
    Some((Refusal::Incomplete { missing }, rest))
}

/// Reads the field of a LimitReached: which limit was reached, one byte.
#[tactic(auto, unfolding(crate::specs::ReplyRefusals::limit_reached_at))]
fn limit_reached_at(bytes: &[u8]) -> Option<(Refusal, &[u8])>
    ensures { option_map (λ x. (x.0, x.1.now)) result ≡ limit_reached_at bytes.now }
{
    let (which, rest) = limit_at(bytes)?;
    Some((Refusal::LimitReached(which), rest))
}

/// Returns the refusal of this number, which has no field, and all of `rest`. `None` if there is no such refusal.
#[tactic(auto, unfolding(crate::specs::ReplyRefusals::plain_refusal_at))]
fn plain_refusal_at(number: u8, rest: &[u8]) -> Option<(Refusal, &[u8])>
    ensures { option_map (λ x. (x.0, x.1.now)) result ≡ plain_refusal_at number rest.now }
{
    let refusal = plain_refusal(number)?;
    Some((refusal, rest))
}

/// Reads a limit from its number in one byte, 1 to 3, as `Limit::number` has it. `None` for any other byte, and if none
/// is left.
#[tactic(auto, unfolding(crate::specs::ReplyRefusals::limit_at))]
fn limit_at(bytes: &[u8]) -> Option<(Limit, &[u8])>
    ensures { option_map (λ x. (x.0, x.1.now)) result ≡ limit_at bytes.now }
{
    match bytes {
        [1, rest @ ..] => Some((Limit::Profiles, rest)),
        [2, rest @ ..] => Some((Limit::Nodes, rest)),
        [3, rest @ ..] => Some((Limit::Unfinished, rest)),
        _ => None,
    }
}

/// Returns the refusal of this number, if it has no field: `None` for 15, 16 and 17, for 0, and for any number above
/// 19.
#[tactic(auto, unfolding(crate::specs::ReplyRefusals::plain_refusal))]
fn plain_refusal(number: u8) -> Option<Refusal>
    ensures { result ≡ plain_refusal number }
{
    Some(match number {
        1 => Refusal::Malformed,
        2 => Refusal::NumberReused,
        3 => Refusal::NoSuchProfile,
        4 => Refusal::NoSuchNode,
        5 => Refusal::NotAFolder,
        6 => Refusal::NotAFile,
        7 => Refusal::BadName,
        8 => Refusal::PathTooLong,
        9 => Refusal::NameTaken,
        10 => Refusal::BadOption,
        11 => Refusal::TooLarge,
        12 => Refusal::AlreadyFinished,
        13 => Refusal::BadPiece,
        14 => Refusal::PieceHeld,
        18 => Refusal::Memory,
        19 => Refusal::Store,
        _ => return None,
    })
}
