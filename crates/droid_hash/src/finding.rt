//! What the reply that finished a file says of it, in a fixed size, and the digest that stands in it for the list of
//! formats.

ghost use Rattle.std.specs.Prelude.{◌≡◌, ◌++◌, ◌∷◌, [], ℕ, List};
ghost use Rattle.droid_hash.specs.Findings.{CoversPuids, finding_of, no_finding, puids_digest};

use droid_frame::{HashValue, Method, Reply, Text};
use sha2::{Digest, Sha256};

/// What the reply that finished a file says. The list of formats is kept as its SHA-256, so that no reply takes memory.
#[derive(Clone, Copy)]
pub struct Finding {
    /// How the formats were found.
    pub method: Method,
    /// Whether none of the formats lists the file's extension.
    pub mismatch: bool,
    /// The hash of the file's bytes.
    pub hash: HashValue,
    /// The number of formats.
    pub formats: usize,
    /// The digest of the identifiers (PUIDs) of the formats, in order.
    pub puids: HashValue,
}

/// The digest, so far, of PUIDs that come one by one, for [`Finding::puids`].
#[derive(Drop)]
pub struct RunningPuids {
    hasher: Sha256,
}

impl RunningPuids {
    /// Makes a digest of no PUIDs.
    pub fn new() -> RunningPuids
        ensures { CoversPuids result [] }
    {
        RunningPuids {
            hasher: Sha256::new(),
        }
    }

    /// Adds the next PUID: its length as eight bytes, the highest first, and then its bytes. So no two lists have the
    /// same text.
    pub fn add(&mut self, puid: &[u8])
        ensures { (before : List (List ℕ)) → CoversPuids self.old before
            → CoversPuids self.new (before ++ puid.now ∷ []) }
    {
        let length = puid.len() as u64;
        self.hasher.update(&length.to_be_bytes());
        self.hasher.update(puid);
    }

    /// Returns the digest of the PUIDs so far, always a SHA-256, whatever the hash of the files is.
    pub fn finish(self) -> HashValue
        ensures { (puids : List (List ℕ)) → CoversPuids self puids → result ≡ puids_digest puids }
    {
        let RunningPuids { hasher } = self;
        HashValue::Sha256(hasher.finalize())
    }
}

/// Returns what a reply says of a finished file; [`no_finding`] if the reply finishes no file.
pub fn finding_of(found: &Reply) -> Finding
    ensures { result ≡ finding_of found.now }
{
    match found {
        Reply::Finished {
            method,
            mismatch,
            hash,
            puids,
        } => Finding {
            method: *method,
            mismatch: *mismatch,
            hash: *hash,
            formats: puids.len(),
            puids: digest_of(puids.as_slice()),
        },
        _ => no_finding(),
    }
}

/// Returns what is known of a folder, or of a file of which nothing is known: not identified, no mismatch, no hash and
/// no formats.
pub fn no_finding() -> Finding
    ensures { result ≡ no_finding }
{
    Finding {
        method: Method::Unidentified,
        mismatch: false,
        hash: HashValue::Nothing,
        formats: 0,
        puids: RunningPuids::new().finish(),
    }
}

/// Returns the digest of a list of PUIDs, in the list's order.
fn digest_of(puids: &[Text]) -> HashValue
    ensures { result ≡ puids_digest puids.now }
{
    let mut running = RunningPuids::new();
    for puid in puids {
        running.add(puid.as_str().as_bytes());
    }
    running.finish()
}
