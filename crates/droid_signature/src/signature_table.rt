//! The table of signatures: as `table.rt`, but with several rows for one item, and two limits.

ghost use Rattle.std.specs.Prelude.{◌≡◌, ◌⊎◌, ◌<◌, ◌≤◌, ◌++◌, ◌∷◌, [], ℕ, List, true, false, OnOk};
ghost use Rattle.droid_signature_pattern.specs.Choices.{AreTaken, ways};
ghost use Rattle.droid_signature_file.specs.Records.{SignatureRecord};
ghost use Rattle.droid_signature.specs.Views.{kept_of};
ghost use Rattle.droid_signature.specs.Signatures.{IsOnlySignature, Named, Signs};
ghost use Rattle.droid_signature.specs.SignatureTables.{HasLeft, IsNew};

use crate::combination::{push_combinations, ways};
use crate::formats::{Kept, puid_of};
use crate::left_out::{Item, LeftOut, Why};
use droid_signature_pattern::Choices;
use std::alloc::{AllocError, Global};

/// The most signatures of a registry, as `droid_pronom` reads it (`ROWS_LIMIT`, `SEQUENCES_LIMIT` of its
/// `registry/draft`). The clauses of `is_full`, `specs/Signatures.antt` and `specs/RegistryTables.antt` have this
/// number and the next one, and the prover ties them. `largest_registry` of `tests/program/identification.py` is a
/// registry that has as many of both.
const SIGNATURES_LIMIT: usize = 16_384;

/// The most byte sequences of a registry.
const SEQUENCES_LIMIT: usize = 32_768;

/// The signatures that the registry has, and what it does not have.
pub struct SignatureTable {
    /// The rows' text.
    pub text: Vec<u8>,
    /// How many signatures of the file are taken, each once for a format.
    pub taken: u64,
    /// How many signatures the registry has.
    pub count: usize,
    /// How many byte sequences these have.
    pub sequences: usize,
    pub left_out: Vec<LeftOut>,
}

// Written by hand, so that whatever drops it does not prove again how each part is dropped.
impl Drop for SignatureTable {
    fn drop(self) {
        let SignatureTable {
            text: _text,
            taken: _,
            count: _,
            sequences: _,
            left_out: _left_out,
        } = self;
    }
}

impl SignatureTable {
    /// Makes a table without rows. Allocates nothing.
    pub(crate) fn new(alloc: Global) -> SignatureTable
        ensures { IsNew result }
    {
        SignatureTable {
            text: Vec::new(alloc),
            taken: 0,
            count: 0,
            sequences: 0,
            left_out: Vec::new(alloc),
        }
    }

    /// Lists that the signature with an ID is left out for the format at a place of the file.
    pub(crate) fn leave_out(&mut self, format: usize, id: u32, why: Why) -> Result<(), AllocError>
        ensures { OnOk result (HasLeft self.old self.new format id why) }
    {
        self.left_out.push(LeftOut {
            format: Some(format),
            item: Item::Signature(id),
            why,
        })?;
        Ok(())
    }

    /// Adds a signature of a format by the choices that stand for it, with all its ways, or leaves it out as a whole if
    /// the table has no room for them (`Full`). A later one that needs less room may still be added. There are at most
    /// 64 ways (`MOST_WAYS` of `choices.rt` of `droid_signature_pattern`), as [`push_combinations`] asks.
    pub(crate) fn add(&mut self, of: &Kept<'_>, id: u32, all: &[Choices]) -> Result<(), AllocError>
        requires { ways all.now ≤ 64 }
        ensures { OnOk result ((signatures : List SignatureRecord) (xs : List Named) (place at : ℕ)
            (signature : SignatureRecord)
            → IsOnlySignature signatures id at signature → AreTaken signature.sequences all.now
            → Signs signatures xs self.old
            → Signs signatures (xs ++ record { place = place; of = kept_of of.now; id = id } ∷ []) self.new) }
    {
        let count = ways(all);
        let signatures = self.count.saturating_add(count);
        let sequences = self
            .sequences
            .saturating_add(count.saturating_mul(all.len()));
        if is_full(signatures, sequences) {
            self.leave_out(of.place, id, Why::Full)?;
            return Ok(());
        }
        push_combinations(&mut self.text, puid_of(of.format), all, count)?;
        self.taken = self.taken.saturating_add(1);
        self.count = signatures;
        self.sequences = sequences;
        Ok(())
    }
}

/// Returns whether these are more signatures or byte sequences than a registry may have.
fn is_full(signatures: usize, sequences: usize) -> bool
    ensures over { result ≡ true → (16384 < signatures) ⊎ (32768 < sequences) }
    ensures within { result ≡ false → (signatures ≤ 16384) × (sequences ≤ 32768) }
{
    signatures > SIGNATURES_LIMIT || sequences > SEQUENCES_LIMIT
}
