//! A part of the bytes of a file, as `utf8` and `units` take it.

ghost use Rattle.std.specs.Prelude.{◌≡◌, drop};

/// Returns the bytes after the first `count`. Past the end there are none.
pub(crate) fn after(bytes: &[u8], count: usize) -> &[u8]
    ensures { result.now ≡ drop count bytes.now }
{
    let count = count.min(bytes.len());
    &bytes[count..]
}
