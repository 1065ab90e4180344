//! Packed numbers: made of the fields of a request, without a digest, where these fit.

ghost use Rattle.std.specs.Prelude.{◌≡◌, ◌<◌};
ghost use Rattle.droid_remote.specs.Numbers.{fits_fields, packed, packed_part};

use droid_frame::PART_LIMIT;

/// The greatest number of a profile that fits 6 bits. Profiles count from 1, so 1 less is packed.
const PROFILES: u32 = 1 << 6;

/// The files' numbers are below this: 17 bits.
const FILES: u32 = 1 << 17;

/// The indexes are below this: 20 bits. The shifts in [`packed`] go with these three, which the prover ties: 20, 20 and
/// 17, and 6 more. docs/SERVICE.md ("The numbers of a submission") has them too, as has `tests/lib/numbers.py`, by
/// which `submit_numbers.py` tests these numbers.
const INDEXES: u64 = 1 << 20;

/// The size of the parts in which an export is read, in bytes: 2^20 in `packed_part` of `specs/Numbers.antt`.
const PART_SIZE: u64 = PART_LIMIT as u64;

/// Packs a code of 3 bits, a profile of 6, a file of 17 and an index of 20 into one number, the code highest. The code
/// is the request's kind, or 0 for an Export. Returns `None` if the profile, the file or the index does not fit.
pub(crate) fn packed(code: u64, profile: u32, file: u32, index: u64) -> Option<u64>
    requires { code < 8 }
    ensures { result ≡ packed code profile file index }
{
    if !fits_fields(profile, file, index) {
        return None;
    }
    let profile = u64::from(profile - 1);
    let file = u64::from(file);
    Some((code << 43) + (profile << 37) + (file << 20) + index)
}

/// Packs the number of the part that begins at this offset of an export: code 0, file 0, and the part's place. Returns
/// `None` if the offset is no multiple of the parts' size, or does not fit.
pub(crate) fn packed_part(profile: u32, from: u64) -> Option<u64>
    ensures { result ≡ packed_part profile from }
{
    if from % PART_SIZE != 0 {
        return None;
    }
    packed(0, profile, 0, from / PART_SIZE)
}

/// Returns whether profile, file and index fit 6, 17 and 20 bits of a number.
fn fits_fields(profile: u32, file: u32, index: u64) -> bool
    ensures { result ≡ fits_fields profile file index }
{
    1 <= profile && profile <= PROFILES && file < FILES && index < INDEXES
}
