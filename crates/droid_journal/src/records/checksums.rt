//! The checksum of a request, as its record has it.

ghost use Rattle.std.specs.Prelude.{◌≡◌, ◌≤◌, length};
ghost use Rattle.droid_journal.specs.Records.{checksum};

use droid_frame::HEADER_LENGTH;
use md5::{Digest, Md5};

/// Computes the checksum of a request's frame: the MD5 (RFC 1321) of its kind and its body, which is its mark.
pub fn checksum_of(request: &[u8]) -> [u8; 16]
    requires { 18 ≤ length request.now }
    ensures { result ≡ checksum request.now }
{
    let kind = request[1];
    let body = &request[HEADER_LENGTH..];
    let mut hasher = Md5::new();
    hasher.update(&[kind]);
    hasher.update(body);
    hasher.finalize()
}
