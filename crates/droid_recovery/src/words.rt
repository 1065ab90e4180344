//! The identifiers of a registry have no space, as a fact for the prover. A store keeps those that were found in one
//! text, with spaces between them.

ghost use Rattle.droid_core.specs.Identified.{IsOf};
ghost use Rattle.droid_core_spec.specs.Setting.{Setting};
ghost use Rattle.droid_recovery.specs.FoundWords.{FindsWords};

use droid_pronom::Registry;

/// Sees that no identifier of the registry has a space, as none of any registry has. It changes nothing: `len` is
/// called for its clause `rules` alone, which the proof needs.
pub fn see_words(registry: &Registry)
    ensures { (setting : Setting) → IsOf registry.now setting → FindsWords setting }
{
    let _count = registry.len();
}
