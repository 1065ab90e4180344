//! The ranges of the numbers in requests, and which hash a reply can carry. Each number stands in
//! `specs/Conditions.antt` of droid_core_spec too; the prover refuses another one here. docs/SERVICE has all of them,
//! and the help of `script` (`help.rt` of droid_arguments) those of scan limit, pieces and parts; nothing ties these
//! texts.

ghost use Rattle.std.specs.Prelude.{◌≡◌, ◌<◌, IsTrue};
ghost use Rattle.droid_core_spec.specs.Conditions.{is_scan_limit, is_piece_size, piece_size_limit, is_part_size};
ghost use Rattle.droid_core_spec.specs.Conditions.{is_too_large, is_md5, is_carried};

use droid_frame::HashKind;

/// Returns whether a profile may have this scan limit, in bytes from each end of a file: 1 to 65,536.
#[tactic(auto, using(crate::proofs::Meanings::scan_limit_is))]
pub fn is_scan_limit(bytes: u32) -> bool
    ensures { result ≡ is_scan_limit bytes }
{
    1 <= bytes && bytes <= 65_536
}

/// Returns whether a file may have pieces of this many bytes: 1 to 1,048,576 in version 1, and to 4,194,304 in version
/// 2.
#[tactic(auto, using(crate::proofs::Meanings::piece_size_is))]
pub(crate) fn is_piece_size(version: u8, bytes: u32) -> bool
    ensures same { result ≡ is_piece_size version bytes }
    ensures positive { IsTrue result → 0 < bytes }
{
    let most = piece_size_limit(version);
    1 <= bytes && bytes <= most
}

/// Returns the most bytes that a piece may have in a file that is announced in this version. Callers have checked that
/// it is 1 or 2.
fn piece_size_limit(version: u8) -> u32
    ensures { result ≡ piece_size_limit version }
{
    if version == 1 { 1_048_576 } else { 4_194_304 }
}

/// Returns whether an Export may ask for a part of up to this many bytes: 1 to 1,048,576.
#[tactic(auto, using(crate::proofs::Meanings::part_size_is))]
pub(crate) fn is_part_size(max: u32) -> bool
    ensures { result ≡ is_part_size max }
{
    1 <= max && max <= 1_048_576
}

/// Returns whether a file of this size, cut into pieces of this size, has more than 2^40 bytes (1,099,511,627,776), or
/// more than 1,048,576 pieces.
#[tactic(auto, using(crate::proofs::Meanings::too_large_is))]
pub(crate) fn is_too_large(size: u64, piece_size: u32) -> bool
    requires { 0 < piece_size }
    ensures { result ≡ is_too_large size piece_size }
{
    1_099_511_627_776 < size || 1_048_576 < size.div_ceil(u64::from(piece_size))
}

/// Returns whether a Finished of this version can carry a hash of this kind. Version 1 carries an MD5 alone, version 2
/// any kind and none.
pub fn is_carried(version: u8, hash: HashKind) -> bool
    ensures { result ≡ is_carried version hash }
{
    if version != 1 {
        return true;
    }
    is_md5(hash)
}

/// Returns whether this is the kind MD5, as [`is_carried`] asks for version 1.
fn is_md5(hash: HashKind) -> bool
    ensures { result ≡ is_md5 hash }
{
    match hash {
        HashKind::Nothing => false,
        HashKind::Md5 => true,
        HashKind::Sha256 => false,
    }
}
