//! The places of the registry's formats so far, by PUID.

ghost use Rattle.std.specs.Prelude.{◌≡◌, ℕ, List, ◌++◌, ◌∷◌, [], None, is_some, length, OnOk};
ghost use Rattle.droid_pronom.specs.Registry.{place_of};
ghost use Rattle.droid_pronom.specs.declared.format.Format.{Format};

use std::alloc::{AllocError, Global};
use std::collections::BTreeMap;

/// The place of each format by its PUID. The code asks only for the PUIDs; the definition `AreOf` has the places.
#[derive(Drop)]
pub(crate) struct Places {
    places: BTreeMap<String, usize>,
}

impl Places {
    ghost use Rattle.droid_signature.specs.PlaceMaps.{AreOf};

    /// Begins with no format. Allocates nothing.
    pub(crate) fn new(alloc: Global) -> Places
        ensures { AreOf result [] }
    {
        Places {
            places: BTreeMap::new(alloc),
        }
    }

    /// Returns whether one of the formats so far has this PUID.
    pub(crate) fn has(&self, puid: &str) -> bool
        ensures { (formats : List Format) → AreOf self.now formats → result ≡ is_some (place_of puid.now formats) }
    {
        self.places.contains_key(puid)
    }

    /// Notes the PUID of the format at a place, which none of those before it has.
    pub(crate) fn add(&mut self, alloc: Global, puid: &str, place: usize) -> Result<(), AllocError>
        ensures { OnOk result ((formats : List Format) (it : Format) → AreOf self.old formats → it.puid ≡ puid.now
            → place_of it.puid formats ≡ None → place ≡ length formats → AreOf self.new (formats ++ it ∷ [])) }
    {
        let key = String::from_str(alloc, puid)?;
        self.places.insert(key, place)?;
        Ok(())
    }
}
