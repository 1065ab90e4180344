// The test also passes if any one allocation is refused: tests/memory refuses each in turn.
//! Out of memory: sending reports it, and what was written before is the first part of what it writes in full. Sending
//! again writes it in full.

use droid_client::Client;
use droid_frame::FrameFault;
use droid_lines::{SendFault, Tally, send};
use std::alloc::Global;

const LINES: &[u8] = b"create 65536 0\nstatus\nfinish 1 1\nexport 1 0 4 all ext=txt\n";

/// The frames of the lines, which end at 23, 49 and 91; the second line is a bad one.
const FRAMES: &[u8] = b"\
    \x01\x01\x00\x00\x00\x07\x00\x00\x00\x00\x00\x00\x00\x01\x00\x00\x00\x05\x00\x01\x00\x00\x00\
    \x01\x05\x00\x00\x00\x07\x00\x00\x00\x00\x00\x00\x00\x02\x00\x00\x00\x08\x00\x00\x00\x01\x00\x00\x00\x01\
    \x01\x08\x00\x00\x00\x07\x00\x00\x00\x00\x00\x00\x00\x03\x00\x00\x00\x18\x00\x00\x00\x01\x00\x00\x00\x00\x00\x00\
    \x00\x00\x00\x00\x00\x04\x01\x01\x03\x01\x03txt";

const REPLIES: &[u8] = b"\
    \x01\x81\x00\x00\x00\x07\x00\x00\x00\x00\x00\x00\x00\x01\x00\x00\x00\x04\x00\x00\x00\x01\
    \x01\x84\x00\x00\x00\x07\x00\x00\x00\x00\x00\x00\x00\x02\x00\x00\x00\x1a\x02\x00\xd4\x1d\x8c\xd9\x8f\x00\xb2\x04\
    \xe9\x80\x09\x98\xec\xf8\x42\x7e\x00\x01\x05dev/4\
    \x01\x87\x00\x00\x00\x07\x00\x00\x00\x00\x00\x00\x00\x03\x00\x00\x00\x14\x00\x00\x00\x00\x00\x00\x00\x02\x00\x00\
    \x00\x00\x00\x00\x01\x28\"ID\"";

/// What the lines print, which ends at 7, 16, 80 and 97.
const PRINTED: &[u8] =
    b"made 1\nbad line\nfinished Extension false d41d8cd98f00b204e9800998ecf8427e dev/4\npart 2 296 4\n\"ID\"";

/// How many bytes of frames and of text may be written where memory runs out: the first lines were sent, and of the
/// next one at most its frame.
fn may_be_written(frames: usize, text: usize) -> bool {
    matches!(
        (frames, text),
        (0 | 23, 0) | (23, 7) | (23 | 49, 16) | (49 | 91, 80)
    )
}

/// Sends the lines as client 7 from number 1 on, into buffers, so that writing allocates nothing. Returns whether what
/// was written is right. `None`: memory ran out, and it is right for that.
fn are_sent(alloc: Global) -> Option<bool> {
    let (mut frames, mut text) = ([0u8; 128], [0u8; 128]);
    let (mut frames_left, mut text_left) = (frames.as_mut_slice(), text.as_mut_slice());
    let mut client = Client::new(alloc, 7, 1);
    let (mut lines, mut replies) = (LINES, REPLIES);
    let ended = send(
        alloc,
        &mut client,
        &mut lines,
        &mut replies,
        &mut frames_left,
        &mut text_left,
    );
    let sent = 128usize.saturating_sub(frames_left.len());
    let printed = 128usize.saturating_sub(text_left.len());
    let right = FRAMES.starts_with(&frames[..sent.min(128)])
        && PRINTED.starts_with(&text[..printed.min(128)]);
    match ended {
        Ok(tally) => Some(
            right && (sent, printed) == (91, 97) && tally == Tally { lines: 4, bad: 1 },
        ),
        Err(SendFault::Memory | SendFault::Replies(FrameFault::Memory))
            if right && may_be_written(sent, printed) => { None }
        Err(_) => Some(false),
    }
}

#[test]
fn each_growth_of_a_sending(rt: HostRuntime) {
    let mut sent = are_sent(rt.alloc());
    if sent.is_none() {
        sent = are_sent(rt.alloc());
    }
    assert!(rt; sent == Some(true));
}
