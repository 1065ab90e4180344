//! The frame of a header and a body.

ghost use Rattle.std.specs.Prelude.{◌≡◌};
ghost use Rattle.droid_frame.specs.Fields.{IsBytes};

use droid_frame::{Blob, Frame, Header};

/// Makes a frame from its header and its whole body, whose bytes it takes over. That the body is as long as the header
/// announces is for the caller to know: [`Parts::take`](crate::feeding::parts::Parts::take) has just filled it.
pub(crate) fn frame(header: Header, body: Vec<u8>) -> Frame
    ensures version { result.version ≡ header.version }
    ensures kind { result.kind ≡ header.kind }
    ensures client { result.client ≡ header.client }
    ensures number { result.number ≡ header.number }
    ensures body { result.body ≡ body.items }
    ensures bytes { IsBytes result.body }
{
    Frame {
        version: header.version,
        kind: header.kind,
        client: header.client,
        number: header.number,
        body: Blob::from(body),
    }
}
