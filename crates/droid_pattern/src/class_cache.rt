//! A cache for matching many patterns against the same bytes.

ghost use Rattle.std.specs.Prelude.{List, ℕ};
ghost use Rattle.droid_pattern.specs.ClassCaches.{AreOf};

use crate::bit_sets::bit_set::BitSet;
use crate::class_set::ClassSet;
use std::alloc::Global;

/// The bit sets of the classes that patterns have needed so far, for one sequence of bytes.
///
/// Each set is computed once for all patterns. The cache also lends each pattern a bit set for its places.
#[derive(Drop)]
pub struct ClassCache {
    pub(crate) toward_end: Vec<ClassSet>,
    pub(crate) toward_start: Vec<ClassSet>,
    pub(crate) places: BitSet,
}

impl ClassCache {
    /// Makes an empty cache, which is valid for any bytes. Takes no memory.
    pub fn new(alloc: Global) -> ClassCache
        ensures { (bytes : List ℕ) → AreOf bytes result }
    {
        ClassCache {
            toward_end: Vec::new(alloc),
            toward_start: Vec::new(alloc),
            places: BitSet::new(alloc),
        }
    }
}
