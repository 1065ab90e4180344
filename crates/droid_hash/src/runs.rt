//! What the runs of MD5 (`md5_runs`) and of SHA-256 (`sha256_runs`) share: steps on one run, alone and beside others,
//! and the choice of a lane's new or old variable. A run is a message's next whole blocks, of 64 bytes each, in order.

ghost use Rattle.std.specs.Prelude.{◌≡◌, ◌+◌, ◌<◌, ◌≤◌, [], nat_lt, length, drop, slice_index_or, if◌then◌else◌};

/// Returns block `i` of a run. The loops of the kernels call it.
#[inline(always)]
pub(crate) fn item(run: &[[u8; 64]], i: usize) -> &[u8; 64]
    requires { i < length run.now }
    ensures { result.now ≡ slice_index_or run.now i [] }
{
    &run[i]
}

/// Returns the longer of two runs. Which one of two of the same length, no clause says.
pub(crate) fn longer<'a>(one: &'a [[u8; 64]], other: &'a [[u8; 64]]) -> &'a [[u8; 64]]
    ensures first { length one.now ≤ length result.now }
    ensures second { length other.now ≤ length result.now }
{
    if one.len() < other.len() { other } else { one }
}

/// Returns how many blocks a run of `len` blocks has from `at` on, at most `most`; `most` if the run has ended, since
/// such a run does not limit the others. No clause asks for the largest number: a smaller one costs time.
pub(crate) fn within(most: usize, len: usize, at: usize) -> usize
    ensures most { result ≤ most }
    ensures some { 0 < most → 0 < result }
    ensures inside { at < len → at + result ≤ len }
{
    if at < len && len - at < most {
        len - at
    } else {
        most
    }
}

/// Returns the run from `at` on, or the filler from there on if the run has ended.
pub(crate) fn part<'a>(run: &'a [[u8; 64]], filler: &'a [[u8; 64]], at: usize) -> &'a [[u8; 64]]
    requires { at ≤ length filler.now }
    ensures { result.now ≡ (if nat_lt at (length run.now) then drop at run.now else drop at filler.now) }
{
    if at < run.len() {
        &run[at..]
    } else {
        &filler[at..]
    }
}

/// Returns a lane's variable: the new one where the lane's flag (`named`) is true, otherwise the old one.
#[inline(always)]
pub(crate) fn one_of(named: bool, new: u32, old: u32) -> u32
    ensures { result ≡ (if named then new else old) }
{
    if named { new } else { old }
}
