//! Frames whose bytes are written by hand.

use droid_frame::{Blob, Frame, HEADER_LENGTH};
use std::alloc::{AllocError, Global};

/// The reply to a CreateProfile.
pub const MADE: &[u8] = &[
    1, 0x81, 0, 0, 0, 1, 0, 0, 0, 0, 0, 0, 0, 1, 0, 0, 0, 4, 0, 0, 0, 1,
];

/// The reply to the AddFolder of `FOLDER`.
pub const NODE: &[u8] = &[
    1, 0x82, 0, 0, 0, 1, 0, 0, 0, 0, 0, 0, 0, 2, 0, 0, 0, 4, 0, 0, 0, 1,
];

/// The reply to another AddFolder with the same number.
pub const NUMBER_REUSED: &[u8] = &[1, 0x88, 0, 0, 0, 1, 0, 0, 0, 0, 0, 0, 0, 2, 0, 0, 0, 1, 2];

/// The reply to the Finish of an empty file.
pub const FINISHED: &[u8] = &[
    1, 0x84, 0, 0, 0, 1, 0, 0, 0, 0, 0, 0, 0, 3, 0, 0, 0, 0x1a, 2, 0, 0xd4, 0x1d, 0x8c, 0xd9, 0x8f,
    0, 0xb2, 0x04, 0xe9, 0x80, 0x09, 0x98, 0xec, 0xf8, 0x42, 0x7e, 0, 1, 5, 0x64, 0x65, 0x76, 0x2f,
    0x34,
];

/// The reply to a request whose body is one byte short.
pub const MALFORMED: &[u8] = &[1, 0x88, 0, 0, 0, 1, 0, 0, 0, 0, 0, 0, 0, 9, 0, 0, 0, 1, 1];

/// The reply to the Finish of a file whose piece 1 is missing.
pub const INCOMPLETE: &[u8] = &[
    1, 0x88, 0, 0, 0, 1, 0, 0, 0, 0, 0, 0, 0, 9, 0, 0, 0, 5, 0x10, 0, 0, 0, 1,
];

/// The reply to a node over the limit.
pub const NODES_REACHED: &[u8] = &[
    1, 0x88, 0, 0, 0, 1, 0, 0, 0, 0, 0, 0, 0, 3, 0, 0, 0, 2, 0x11, 2,
];

/// An AddFolder of the folder `in`.
pub const FOLDER: Vector = Vector {
    version: 1,
    kind: 2,
    number: 2,
    bytes: &[
        1, 2, 0, 0, 0, 1, 0, 0, 0, 0, 0, 0, 0, 2, 0, 0, 0, 0x12, 0, 0, 0, 1, 0, 0, 0, 0, 0, 0, 0,
        0, 0, 0, 0, 0, 0x69, 0x6e,
    ],
};

/// The reply in version 2 to the Finish of an empty file whose profile has SHA-256 (FIPS 180-4, of no bytes).
pub const FINISHED_WITH_SHA256: &[u8] = &[
    2, 0x84, 0, 0, 0, 1, 0, 0, 0, 0, 0, 0, 0, 3, 0, 0, 0, 0x2b, 2, 0, 2, 0xe3, 0xb0, 0xc4, 0x42,
    0x98, 0xfc, 0x1c, 0x14, 0x9a, 0xfb, 0xf4, 0xc8, 0x99, 0x6f, 0xb9, 0x24, 0x27, 0xae, 0x41, 0xe4,
    0x64, 0x9b, 0x93, 0x4c, 0xa4, 0x95, 0x99, 0x1b, 0x78, 0x52, 0xb8, 0x55, 0, 1, 5, 0x64, 0x65,
    0x76, 0x2f, 0x34,
];

/// The same reply if the profile has MD5.
pub const FINISHED_WITH_MD5: &[u8] = &[
    2, 0x84, 0, 0, 0, 1, 0, 0, 0, 0, 0, 0, 0, 3, 0, 0, 0, 0x1b, 2, 0, 1, 0xd4, 0x1d, 0x8c, 0xd9,
    0x8f, 0, 0xb2, 0x04, 0xe9, 0x80, 0x09, 0x98, 0xec, 0xf8, 0x42, 0x7e, 0, 1, 5, 0x64, 0x65, 0x76,
    0x2f, 0x34,
];

/// The same reply if the profile has no hash.
pub const FINISHED_WITH_NOTHING: &[u8] = &[
    2, 0x84, 0, 0, 0, 1, 0, 0, 0, 0, 0, 0, 0, 9, 0, 0, 0, 0x0b, 2, 0, 0, 0, 1, 5, 0x64, 0x65, 0x76,
    0x2f, 0x34,
];

/// The reply in version 2 to a CreateProfile.
pub const MADE_IN_TWO: &[u8] = &[
    2, 0x81, 0, 0, 0, 1, 0, 0, 0, 0, 0, 0, 0, 1, 0, 0, 0, 4, 0, 0, 0, 1,
];

/// The refusal in version 2 of an AddFile with a bad piece size.
pub const BAD_OPTION_IN_TWO: &[u8] = &[2, 0x88, 0, 0, 0, 1, 0, 0, 0, 0, 0, 0, 0, 6, 0, 0, 0, 1, 10];

/// The bytes of a frame, with its version, kind and number. Its client is 1.
#[derive(Clone, Copy)]
pub struct Vector {
    pub version: u8,
    pub kind: u8,
    pub number: u64,
    pub bytes: &'static [u8],
}

/// Frames with their versions, kinds and numbers, which were read from the bytes by hand: the first byte, the second,
/// and the eight from the seventh on.
pub const VECTORS: [Vector; 18] = [
    // A CreateProfile.
    Vector {
        version: 1,
        kind: 1,
        number: 1,
        bytes: &[
            1, 1, 0, 0, 0, 1, 0, 0, 0, 0, 0, 0, 0, 1, 0, 0, 0, 5, 0, 1, 0, 0, 0,
        ],
    },
    Vector {
        version: 1,
        kind: 129,
        number: 1,
        bytes: MADE,
    },
    FOLDER,
    Vector {
        version: 1,
        kind: 130,
        number: 2,
        bytes: NODE,
    },
    Vector {
        version: 1,
        kind: 136,
        number: 2,
        bytes: NUMBER_REUSED,
    },
    Vector {
        version: 1,
        kind: 132,
        number: 3,
        bytes: FINISHED,
    },
    // A request whose body is one byte short, and its reply.
    Vector {
        version: 1,
        kind: 5,
        number: 9,
        bytes: &[
            1, 5, 0, 0, 0, 1, 0, 0, 0, 0, 0, 0, 0, 9, 0, 0, 0, 7, 0, 0, 0, 1, 0, 0, 0,
        ],
    },
    Vector {
        version: 1,
        kind: 136,
        number: 9,
        bytes: MALFORMED,
    },
    Vector {
        version: 1,
        kind: 136,
        number: 9,
        bytes: INCOMPLETE,
    },
    Vector {
        version: 1,
        kind: 136,
        number: 3,
        bytes: NODES_REACHED,
    },
    // An Export of the folders.
    Vector {
        version: 1,
        kind: 8,
        number: 9,
        bytes: &[
            1, 8, 0, 0, 0, 1, 0, 0, 0, 0, 0, 0, 0, 9, 0, 0, 0, 0x14, 0, 0, 0, 1, 0, 0, 0, 0, 0, 0,
            0, 0, 0, 0x10, 0, 0, 1, 1, 7, 1,
        ],
    },
    // In version 2: a CreateProfile with SHA-256, its reply, the replies to the Finish of empty files, a refusal, and
    // an AddFile in pieces of 4,194,304 bytes.
    Vector {
        version: 2,
        kind: 1,
        number: 1,
        bytes: &[
            2, 1, 0, 0, 0, 1, 0, 0, 0, 0, 0, 0, 0, 1, 0, 0, 0, 6, 0, 1, 0, 0, 0, 2,
        ],
    },
    Vector {
        version: 2,
        kind: 129,
        number: 1,
        bytes: MADE_IN_TWO,
    },
    Vector {
        version: 2,
        kind: 132,
        number: 3,
        bytes: FINISHED_WITH_SHA256,
    },
    Vector {
        version: 2,
        kind: 132,
        number: 3,
        bytes: FINISHED_WITH_MD5,
    },
    Vector {
        version: 2,
        kind: 132,
        number: 9,
        bytes: FINISHED_WITH_NOTHING,
    },
    Vector {
        version: 2,
        kind: 136,
        number: 6,
        bytes: BAD_OPTION_IN_TWO,
    },
    Vector {
        version: 2,
        kind: 3,
        number: 5,
        bytes: &[
            2, 3, 0, 0, 0, 1, 0, 0, 0, 0, 0, 0, 0, 5, 0, 0, 0, 0x1d, 0, 0, 0, 1, 0, 0, 0, 0, 0, 0,
            0, 0, 0, 0, 0, 0, 0, 0, 0, 0, 0, 0x40, 0, 0, 0, 0x40, 0, 0, 0x67,
        ],
    },
];

/// Makes the frame of a vector.
pub fn frame_of(alloc: Global, vector: &Vector) -> Result<Frame, AllocError> {
    frame(
        alloc,
        vector.version,
        vector.kind,
        vector.number,
        body_of(vector.bytes),
    )
}

/// Makes a frame of client 1.
pub fn frame(
    alloc: Global,
    version: u8,
    kind: u8,
    number: u64,
    body: &[u8],
) -> Result<Frame, AllocError> {
    Ok(Frame {
        version,
        kind,
        client: 1,
        number,
        body: Blob::copy_of(alloc, body)?,
    })
}

/// Returns the bytes after a frame's header.
pub fn body_of(bytes: &[u8]) -> &[u8] {
    match bytes.get(HEADER_LENGTH..) {
        Some(body) => body,
        None => &[],
    }
}
