//! All texts of the page.
//!
//! The contracts name these constants, whatever words they have. `tests/program/report` holds the words: it computes
//! each letter of a page.

/// Stands before the name of the CSV.
pub const MADE_FROM: &str = "Made by droid_desk from ";

/// Stands before the moment at which the page was made.
pub const MADE_AT: &str = " at ";

/// Stands behind that moment.
pub const IN_UTC: &str = " (UTC). ";

/// Stands in the place of a moment that is not known.
pub const UNKNOWN_TIME: &str = "an unknown time";

/// Stands before the registry.
pub const REGISTRY: &str = "Registry: ";

/// Stands behind the registry.
pub const REGISTRY_END: &str = ". ";

/// Says that the CSV has no hashes.
pub const NO_HASHES: &str = "It has no hashes.";

/// Says which hashes it has.
pub const MD5_HASHES: &str = "Its hashes are MD5.";

/// Says which hashes it has.
pub const SHA256_HASHES: &str = "Its hashes are SHA-256.";

/// Says how files are counted.
pub const COUNTED_ONCE: &str = " A file with several formats counts once.";

pub(crate) const NO_NOTE: &str = "";

pub(crate) const SHARE: &str = "share";

pub(crate) const TOTALS: &str = "Totals";

pub(crate) const WHAT: &str = "what";

pub(crate) const NUMBER: &str = "number";

pub(crate) const FOLDERS: &str = "folders";

pub(crate) const FILES: &str = "files";

pub(crate) const BYTES: &str = "bytes";

pub(crate) const FORMATS: &str = "formats";

pub(crate) const BY_SIGNATURE: &str = "files identified by a signature";

pub(crate) const BY_EXTENSION: &str = "files identified by their extension alone";

pub(crate) const UNIDENTIFIED: &str = "files that were not identified";

pub(crate) const MISMATCHES: &str = "files with an unexpected extension";

pub(crate) const SEVERAL_FORMATS: &str = "files with several formats";

pub(crate) const EMPTY: &str = "files without bytes";

pub(crate) const COPIES: &str = "copies of other files";

pub(crate) const COPIED_BYTES: &str = "bytes of these copies";

pub(crate) const FORMATS_BY_FILES: &str = "Formats by number of files";

pub(crate) const FORMATS_BY_BYTES: &str = "Formats by bytes";

/// Goes with the 12 of `most_named` in `view/picture.rt`, which has as many rows: nothing but these two lines ties
/// them.
pub(crate) const TWELVE: &str = "The twelve largest, and all others.";

/// Stands in the place of [`TWELVE`] where lists have no rows.
pub(crate) const TOGETHER: &str = "All formats together: there is no room for their names.";

pub(crate) const FORMAT: &str = "format";

pub(crate) const OTHERS: &str = "all others";

pub(crate) const YEARS: &str = "Years";

pub(crate) const YEARS_NOTE: &str =
    "When files were last changed. Files without a date are not in it.";

pub(crate) const YEAR: &str = "year";

pub(crate) const SIZES: &str = "Sizes";

/// Goes with `POWERS` in `classes.rt`.
pub(crate) const SIZES_NOTE: &str = "Files by size, from each power of four to the next.";

pub(crate) const SIZE: &str = "size";

pub(crate) const NO_BYTES: &str = "no bytes";

pub(crate) const FROM: &str = "from ";

pub(crate) const KIB: &str = "KiB";

pub(crate) const MIB: &str = "MiB";

pub(crate) const GIB: &str = "GiB";

pub(crate) const TIB: &str = "TiB";

pub(crate) const PIB: &str = "PiB";

pub(crate) const EIB: &str = "EiB";

pub(crate) const DEPTH: &str = "Depth";

pub(crate) const DEPTH_NOTE: &str = "How many slashes the paths of files have.";

pub(crate) const SLASHES: &str = "slashes";

/// Names the last class of depths: goes with the 64 of `last_class` in `classes.rt` and of `view/class_names.rt`.
pub(crate) const MOST_SLASHES: &str = "64 or more";

pub(crate) const MORE: &str = " more: ";

pub(crate) const ALL_FORMATS: &str = "All formats";

pub(crate) const PUID: &str = "PUID";

pub(crate) const NAME: &str = "name and version";

pub(crate) const FORMATS_ELSEWHERE: &str = "see PUID in the CSV";

pub(crate) const PATH: &str = "path";

pub(crate) const CHANGED: &str = "last change";

pub(crate) const NOT_IDENTIFIED: &str = "Not identified";

pub(crate) const UNIDENTIFIED_ELSEWHERE: &str = "rows of the CSV with TYPE File and no PUID";

pub(crate) const UNEXPECTED: &str = "Unexpected extensions";

pub(crate) const MISMATCHES_ELSEWHERE: &str = "rows of the CSV with EXTENSION_MISMATCH true";

pub(crate) const SEVERAL: &str = "Several formats";

pub(crate) const SEVERAL_ELSEWHERE: &str = "rows of the CSV with FORMAT_COUNT above 1";

pub(crate) const LARGEST_FILES: &str = "Largest files";

pub(crate) const LARGEST_ELSEWHERE: &str = "sort the CSV by SIZE";

pub(crate) const OLDEST: &str = "Oldest files";

pub(crate) const NEWEST: &str = "Newest files";

pub(crate) const AGE_NOTE: &str = "By the last change.";

pub(crate) const EQUAL: &str = "Equal files";

pub(crate) const EQUAL_ELSEWHERE: &str = "sort the CSV by its hash";

pub(crate) const FIRST_PATH: &str = "first file";

pub(crate) const HASH_AND_SIZE: &str = "hash, size in bytes";

pub(crate) const SAVED: &str = "bytes of the copies";
