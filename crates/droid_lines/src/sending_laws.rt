//! Laws of sending. Each law is the contract of a function that does nothing.

ghost use Rattle.droid_lines.specs.Numbering.{FramesAreNumbered};

/// [`send`](crate::sender::send) writes the frames of the good lines' requests, in order, from the given client, with
/// consecutive numbers from the client's next number on. Bad lines take no number.
pub fn frames_are_numbered()
    ensures { FramesAreNumbered }
{}
