//! Bodies that grow as their bytes come.

ghost use Rattle.std.specs.Prelude.{◌≡◌, ◌+◌, ◌-◌, ◌*◌, ◌<◌, ◌≤◌, ◌++◌, [], IfOk, OnOk, OnErr, length, max, min, take};
ghost use Rattle.std.specs.Prelude.{vec_capacity, vec_len};

use std::alloc::AllocError;

/// Appends bytes from the front of a piece to a body of which `whole` bytes are announced, and returns how many: all
/// that are missing, or the whole piece. Fails only if memory runs out, and leaves the bytes as they were.
pub(crate) fn append(body: &mut Vec<u8>, whole: usize, piece: &[u8]) -> Result<usize, AllocError>
    requires within { length body.old.items ≤ whole }
    requires limit { whole ≤ 4194368 }
    ensures count { IfOk result (λ count. count ≡ min (whole - length body.old.items) (length piece.now)) }
    ensures items { IfOk result (λ count. body.new.items ≡ body.old.items ++ take count piece.now) }
    ensures unchanged { OnErr result (body.new.items ≡ body.old.items) }
    ensures some { OnErr result (length body.old.items < whole) }
    // No memory is taken before the first byte of the body.
    ensures memory { vec_capacity body.old ≡ 0 → length body.new.items ≡ 0 → vec_capacity body.new ≡ 0 }
{
    let count = (whole - body.len()).min(piece.len());
    if count == 0 {
        return Ok(0);
    }
    make_room(body, count, whole)?;
    body.extend_from_slice(&piece[..count])?;
    Ok(count)
}

/// Makes room for `count` bytes more in a body of which `whole` bytes are announced. If the room has to grow, it at
/// least doubles, but not beyond `whole`.
fn make_room(body: &mut Vec<u8>, count: usize, whole: usize) -> Result<(), AllocError>
    requires within { vec_len body.old + count ≤ whole }
    requires limit { whole ≤ 4194368 }
    ensures items { body.new.items ≡ body.old.items }
    ensures len { vec_len body.new ≡ vec_len body.old }
    ensures room { OnOk result (vec_len body.old + count ≤ vec_capacity body.new) }
    // At most twice as much is taken as has come.
    ensures bound { vec_capacity body.new ≤ max (vec_capacity body.old) (2 * (vec_len body.old + count)) }
    ensures err { OnErr result (vec_capacity body.new ≡ vec_capacity body.old) }
    ensures some { OnErr result (0 < count) }
{
    let wanted = body.len() + count;
    let capacity = body.capacity();
    if wanted <= capacity {
        return Ok(());
    }
    let size = whole.min(wanted.max(2 * capacity));
    body.reserve_exact(size - body.len())
}
