//! One request and the replies that arrive for it, step by step; and many requests, answered in another order. The
//! bodies are those of the format.

use droid_client::{Client, HearFault, Heard};
use droid_frame::{Blob, Frame, HashKind, Refusal, Reply, Request};
use std::alloc::{AllocError, Global};
use std::test::Fail;

const MADE: u8 = 129;

const NODE: u8 = 130;

const REFUSED: u8 = 136;

const ONE: &[u8] = &[0, 0, 0, 1];

/// A reply that arrives: its version, client, number, kind and body.
type Arriving = (u8, u32, u64, u8, &'static [u8]);

/// A reply, and how it is taken: `None` if it is malformed. And then how many requests are pending, the answer, and
/// whether the request was refused for memory.
type Step = (Arriving, Option<Heard>, usize, Option<u32>, bool);

const ANSWERED: Option<Heard> = Some(Heard::Answered);

const TURNED_DOWN: Option<Heard> = Some(Heard::Refused);

const REPEATED: Option<Heard> = Some(Heard::Repeated);

const STRANGER: Option<Heard> = Some(Heard::Stranger);

/// A request of version 1, of client 1 and number 1.
const FIRST_VERSION: [Step; 10] = [
    ((1, 1, 2, MADE, ONE), STRANGER, 1, None, false),
    ((1, 2, 1, MADE, ONE), STRANGER, 1, None, false),
    ((1, 1, 1, REFUSED, &[18]), TURNED_DOWN, 1, None, true),
    ((1, 1, 1, NODE, ONE), STRANGER, 1, None, true),
    ((1, 1, 1, MADE, ONE), ANSWERED, 0, Some(1), true),
    ((1, 1, 1, MADE, ONE), REPEATED, 0, Some(1), true),
    ((1, 1, 1, REFUSED, &[18]), REPEATED, 0, Some(1), true),
    ((1, 1, 1, REFUSED, &[19]), REPEATED, 0, Some(1), true),
    ((1, 1, 1, NODE, ONE), STRANGER, 0, Some(1), true),
    ((1, 1, 0, MADE, ONE), STRANGER, 0, Some(1), true),
];

/// A request of version 2: a reply of the other version is for a stranger, whatever it says.
const SECOND_VERSION: [Step; 7] = [
    ((1, 1, 1, MADE, ONE), STRANGER, 1, None, false),
    ((1, 1, 1, REFUSED, &[18]), STRANGER, 1, None, false),
    ((2, 1, 1, REFUSED, &[18]), TURNED_DOWN, 1, None, true),
    ((1, 1, 1, MADE, ONE), STRANGER, 1, None, true),
    ((2, 1, 1, MADE, ONE), ANSWERED, 0, Some(1), true),
    ((1, 1, 1, MADE, ONE), STRANGER, 0, Some(1), true),
    ((2, 1, 1, MADE, ONE), REPEATED, 0, Some(1), true),
];

/// A request of version 1 isn't answered in version 2, and what is no reply changes nothing.
const NO_REPLIES: [Step; 9] = [
    ((2, 1, 1, MADE, ONE), STRANGER, 1, None, false),
    ((0, 1, 1, MADE, ONE), None, 1, None, false),
    ((3, 1, 1, MADE, ONE), None, 1, None, false),
    ((1, 1, 1, MADE, &[0, 0, 1]), None, 1, None, false),
    ((1, 1, 1, 1, ONE), None, 1, None, false),
    ((1, 1, 1, REFUSED, &[20]), None, 1, None, false),
    ((1, 2, 9, 0, &[]), None, 1, None, false),
    ((1, 1, 1, REFUSED, &[]), None, 1, None, false),
    ((1, 1, 1, MADE, ONE), ANSWERED, 0, Some(1), false),
];

fn made(answer: Option<&Reply>) -> Option<u32> {
    match answer {
        Some(Reply::Made { profile }) => Some(*profile),
        _ => None,
    }
}

/// Takes one reply, and returns whether that goes as the step says.
fn goes(alloc: Global, client: &mut Client, step: &Step) -> Result<bool, AllocError> {
    let (arriving, wanted, pending, answer, is_refused) = *step;
    let heard = match client.on_reply(frame(alloc, arriving)?) {
        Ok(heard) => Some(heard),
        Err(HearFault::Malformed) => None,
        Err(HearFault::Memory) => return Ok(false),
    };
    let refused = if is_refused {
        Some(Refusal::Memory)
    } else {
        None
    };
    Ok(
        heard == wanted
            && client.pending() == pending
            && made(client.answer(1)) == answer
            && client.refusal(1) == refused,
    )
}

fn frame(alloc: Global, arriving: (u8, u32, u64, u8, &[u8])) -> Result<Frame, AllocError> {
    let (version, client, number, kind, body) = arriving;
    Ok(Frame {
        version,
        kind,
        client,
        number,
        body: Blob::copy_of(alloc, body)?,
    })
}

/// Submits a CreateProfile, whose frame has to have this body, and takes the replies. Returns whether all goes as the
/// steps say.
fn go(
    alloc: Global,
    version: u8,
    hash: HashKind,
    body: &[u8],
    steps: &[Step],
) -> Result<bool, AllocError> {
    let request = Request::CreateProfile {
        scan_limit: 65_536,
        match_all: false,
        hash,
    };
    if !request.fits(version) {
        return Ok(false);
    }
    let mut client = Client::new(alloc, 1, 1);
    let mut right = client.submit(version, request).ok() == Some(1);
    right &= match client.pending_at(0) {
        Some(frame) => {
            let head = (frame.version, frame.kind, frame.client, frame.number);
            head == (version, 1, 1, 1) && frame.body.as_slice() == body
        }
        None => false,
    };
    right &= client.pending() == 1 && client.pending_at(1).is_none();
    for step in steps {
        right &= goes(alloc, &mut client, step)?;
    }
    let none = client.answer(0).is_none() && client.answer(2).is_none();
    Ok(right && none && client.pending_at(0).is_none())
}

#[test]
fn steps(rt: HostRuntime) -> Result<(), Fail> {
    let (alloc, first, second) = (rt.alloc(), [0, 1, 0, 0, 0], [0, 1, 0, 0, 0, 2]);
    assert!(rt; go(alloc, 1, HashKind::Md5, &first, &FIRST_VERSION)?);
    assert!(rt; go(alloc, 1, HashKind::Md5, &first, &NO_REPLIES)?);
    assert!(rt; go(alloc, 2, HashKind::Sha256, &second, &SECOND_VERSION)?);
    Ok(())
}

const COUNT: u64 = 100;

// Every other request is of version 2.
fn version_of(number: u64) -> u8 {
    if number % 2 == 0 { 1 } else { 2 }
}

/// Returns whether two of each three requests are pending, in order of their numbers.
fn are_in_order(client: &Client) -> bool {
    let mut right = client.pending() == 66 && client.pending_at(66).is_none();
    for index in 0..66usize {
        let wanted = index as u64 / 2 * 3 + 1 + index as u64 % 2;
        right &= client.pending_at(index).map(|frame| frame.number) == Some(wanted);
    }
    right
}

fn have_their_own(client: &Client) -> bool {
    let mut right = client.pending() == 0;
    for number in 0..COUNT {
        right &= match client.answer(number) {
            Some(Reply::Progress { held, missing: 0 }) => u64::from(*held) == number,
            _ => false,
        };
    }
    right
}

/// Submits a hundred requests, of client 3 from number 0 on. Answers every third, then the others, each with its own
/// number: 37 and 100 have no common divisor, so a hundred steps go to each number once. Returns whether all goes well.
fn are_answered(alloc: Global) -> Result<bool, AllocError> {
    let mut client = Client::new(alloc, 3, 0);
    let mut right = true;
    for number in 0..COUNT {
        let request = Request::Status {
            profile: 1,
            file: 1,
        };
        let version = version_of(number);
        if !request.fits(version) {
            return Ok(false);
        }
        right &= client.submit(version, request).ok() == Some(number);
    }
    for step in 0..3 * COUNT {
        let number = step.wrapping_mul(37) % COUNT;
        if step == COUNT {
            right &= are_in_order(&client);
        }
        if number % 3 == step / COUNT {
            let before = client.pending();
            let body = [0, 0, 0, (number % 256) as u8, 0, 0, 0, 0];
            let frame = frame(alloc, (version_of(number), 3, number, 134, &body))?;
            right &= client.on_reply(frame).ok() == Some(Heard::Answered);
            right &= client.pending().saturating_add(1) == before;
        }
    }
    Ok(right && have_their_own(&client))
}

#[test]
fn answers_out_of_order(rt: HostRuntime) -> Result<(), Fail> {
    assert!(rt; are_answered(rt.alloc())?);
    Ok(())
}
