//! The kinds of some requests and replies, as numbers in a frame: those that the crates above compare a frame's kind
//! with. `Request::kind` and `Reply::kind` have all of them.

/// The kind of a CreateProfile.
pub const CREATE_PROFILE: u8 = 1;

/// The kind of an AddFolder.
pub const ADD_FOLDER: u8 = 2;

/// The kind of an AddFile.
pub const ADD_FILE: u8 = 3;

/// The kind of a Piece.
pub const PIECE: u8 = 4;

/// The kind of a Finish.
pub const FINISH: u8 = 5;

/// The kind of an Abandon.
pub const ABANDON: u8 = 6;

/// The kind of a Taken, the reply to a piece.
pub const TAKEN: u8 = 131;

/// The kind of a Finished.
pub const FINISHED: u8 = 132;
