//! Reads the numbers inside a request's body, at places where they are known to stand.

ghost use Rattle.std.specs.Prelude.{◌≡◌, ◌+◌, ◌≤◌, length};
ghost use Rattle.droid_remote.specs.BodyFields.{u32_in, u64_in};

/// Reads the number of four bytes, big-endian, from this index on.
pub(crate) fn u32_in(at: usize, body: &[u8]) -> u32
    requires { at + 4 ≤ length body.now }
    ensures { result ≡ u32_in at body.now }
{
    u32::from_be_bytes([body[at], body[at + 1], body[at + 2], body[at + 3]])
}

/// Reads the number of eight bytes, big-endian, from this index on.
pub(crate) fn u64_in(at: usize, body: &[u8]) -> u64
    requires { at + 8 ≤ length body.now }
    ensures { result ≡ u64_in at body.now }
{
    u64::from_be_bytes([
        body[at],
        body[at + 1],
        body[at + 2],
        body[at + 3],
        body[at + 4],
        body[at + 5],
        body[at + 6],
        body[at + 7],
    ])
}
