//! By what files are compared: hashes, sizes or moments.

ghost use Rattle.std.specs.Prelude.{◌≡◌};
ghost use Rattle.droid_cmd_verify.specs.Compared as compared;
ghost use Rattle.droid_cmd_verify.specs.Lists.{measure_of};

/// By what the files of a list and of a tree are compared.
#[derive(Clone, Copy, PartialEq, Eq)]
pub enum Measure {
    /// By their hashes. A file without a hash of both sides is reported.
    Hashes,
    /// By their sizes alone: the list has no hash at all.
    Sizes,
    /// By their sizes and modification times, and no file is read.
    Moments,
}

/// Returns whether modification times are compared, so that no file is read.
pub fn by_moments(how: Measure) -> bool
    ensures { result ≡ compared.by_moments how }
{
    match how {
        Measure::Hashes => false,
        Measure::Sizes => false,
        Measure::Moments => true,
    }
}

/// Returns whether files are compared by their hashes, so that one without is reported as unchecked.
pub fn by_hashes(how: Measure) -> bool
    ensures { result ≡ compared.by_hashes how }
{
    match how {
        Measure::Hashes => true,
        Measure::Sizes => false,
        Measure::Moments => false,
    }
}

/// Returns by what files are compared, as `--quick` and `--sizes-only` say: by hashes without either. The command line
/// refuses both together.
pub(crate) fn measure_of(quick: bool, sizes_only: bool) -> Measure
    ensures { result ≡ measure_of quick sizes_only }
{
    match (quick, sizes_only) {
        (true, _) => Measure::Moments,
        (false, true) => Measure::Sizes,
        (false, false) => Measure::Hashes,
    }
}
