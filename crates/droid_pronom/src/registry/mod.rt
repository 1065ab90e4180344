//! The registry: makes one of a file, lets callers look up its formats and rows, identifies files, and adds rows while
//! its file is read.

ghost use Rattle.std.specs.Prelude.{◌≡◌, ◌≢◌, ℕ, List, ◌+◌, ◌-◌, ◌<◌, ◌≤◌, ◌++◌, ◌∷◌, [], length, take, drop, min};
ghost use Rattle.std.specs.Prelude.{IsTrue, IfSome, option_map, Some, None, Err, IfOk, IsErrOf, OnOk, OnErr, slice_get};
ghost use Rattle.std.specs.Prelude.{true, ◌↔◌};
ghost use Rattle.std.specs.Option.{option_copied};
ghost use Rattle.std.specs.List.{AllByRecursion};
ghost use Rattle.droid_pronom.specs.Found.{IsFound};
ghost use Rattle.droid_pronom.specs.RegistryFields.{is_puid};
ghost use Rattle.droid_pronom.specs.RegistryFile.{File};
ghost use Rattle.droid_frame.specs.Seen.{IsSound, ReportsFault};

mod csv_error;
mod draft;
pub mod fault;
mod record_kind;
mod row_text;

use crate::format::Format;
use crate::identification::Found;
use crate::registry::csv_error::csv_fault;
use crate::registry::draft::Draft;
use crate::registry::fault::RegistryFault;
use crate::rows::{ByteSequence, ListedExtension, Priority, Signature};
use crate::windows::identify_windows;
use csv::ReaderBuilder;
use droid_frame::{InputFault, SteadyRead, read_to_end};
use std::alloc::{AllocError, Global};
use std::collections::BTreeMap;
use std::marker::Model;

/// The most bytes that a registry file may have. `File` of `specs/RegistryFile.antt` has the same number, and the
/// prover ties them.
const BYTES_LIMIT: usize = 16_777_216;
/// The most formats that a registry may have. `format_taken` of `specs/RegistryRecords.antt` and `IsRegistry` of
/// `specs/Registry.antt` have the same number, and the prover ties them.
pub(crate) const FORMATS_LIMIT: usize = 4_096;

/// A registry: formats with their extensions, priorities and signatures.
///
/// docs/REGISTRY.md describes its file.
pub struct Registry {
    formats: Vec<Format>,
    // The place of each format by its PUID.
    places: BTreeMap<String, u32>,
    // Whether the format at each place has a signature.
    signed: Vec<bool>,
    extensions: Vec<ListedExtension>,
    priorities: Vec<Priority>,
    signatures: Vec<Signature>,
}

// Written by hand, so that the crates above do not prove again how each part is dropped.
impl Drop for Registry {
    fn drop(self) {
        let Registry {
            formats: _formats,
            places: _places,
            signed: _signed,
            extensions: _extensions,
            priorities: _priorities,
            signatures: _signatures,
        } = self;
    }
}

impl Model for Registry {
    ghost use Rattle.droid_pronom.specs.Registry.{Contents};

    ghost Value = { Contents };

    ghost use Rattle.droid_pronom.specs.RegistryKept.{contents, IsKept};

    ghost view = { contents };

    ghost invariant = { IsKept };
}

impl Registry {
    ghost use Rattle.droid_pronom.specs.Registry.{nothing, place_of, IsRegistry, IsSigned};
    ghost use Rattle.droid_pronom.specs.RegistryGrowth.{with_format, with_extension, with_priority, with_signature};
    ghost use Rattle.droid_pronom.specs.RegistryGrowth.{with_sequence};

    /// Reads a registry file: CSV as the kit's `csv` reads it with its default settings, without a header.
    ///
    /// The file has at most 16,777,216 bytes; a longer one is `TooLong`. An error names the first faulty record by its
    /// number, counted from 1. A file without any record is a registry without formats, which identifies nothing: see
    /// [`Registry::is_empty`].
    pub fn parse(alloc: Global, bytes: &[u8]) -> Result<Registry, RegistryFault>
        ensures { result ≢ Err RegistryFault.Memory → File bytes.now result }
    {
        if bytes.len() > BYTES_LIMIT {
            return Err(RegistryFault::TooLong);
        }
        // `Draft::take` judges the number of fields, so the reader accepts any number.
        let reader = ReaderBuilder::new()
            .has_headers(false)
            .flexible(true)
            .from_reader(alloc, bytes);
        let mut draft = Draft::new(alloc);
        for row in reader.into_byte_records() {
            match row {
                Err(error) => return Err(csv_fault(error)),
                Ok(row) => {
                    let at = draft.records() + 1;
                    if let Err(refusal) = draft.take(alloc, row) {
                        return Err(refusal.at(at));
                    }
                }
            }
        }
        Ok(draft.registry)
    }

    /// Reads a registry file from a reader.
    ///
    /// It first reads to the end. `TooLong` comes before any record is looked at. `Read` means that the reader failed,
    /// or was interrupted more than 64 times. All other errors are those of [`Registry::parse`].
    pub fn read<R: SteadyRead>(alloc: Global, reader: &mut R) -> Result<Registry, RegistryFault>
        // If the bytes of the reader are known, the result is that of these bytes.
        ensures reads { (bytes : List ℕ) → R.remaining reader.old ≡ Some bytes → result ≢ Err RegistryFault.Memory
            → result ≢ Err RegistryFault.Read → File bytes result }
        // `Read` comes exactly if the reader failed or was interrupted for the 65th time.
        ensures fault { IsSound (R.seen reader.old)
            → ReportsFault (R.seen reader.old).interruptions (R.seen reader.new) (IsErrOf result RegistryFault.Read) }
    {
        match read_to_end(alloc, reader, BYTES_LIMIT) {
            Ok(bytes) => Registry::parse(alloc, bytes.as_slice()),
            Err(InputFault::TooLong) => Err(RegistryFault::TooLong),
            Err(InputFault::Memory) => Err(RegistryFault::Memory),
            Err(InputFault::Read) => Err(RegistryFault::Read),
        }
    }

    /// Makes a registry without formats, which `Draft` fills. Takes no memory.
    pub(crate) fn new(alloc: Global) -> Registry
        ensures { result ≡ nothing }
    {
        Registry {
            formats: Vec::new(alloc),
            places: BTreeMap::new(alloc),
            signed: Vec::new(alloc),
            extensions: Vec::new(alloc),
            priorities: Vec::new(alloc),
            signatures: Vec::new(alloc),
        }
    }

    /// Returns the number of formats, at most 4,096.
    pub fn len(&self) -> usize
        ensures count { result ≡ length self.now.formats }
        // What holds of every registry, for whoever has one.
        ensures rules { IsRegistry self.now }
    {
        self.formats.len()
    }

    /// Returns whether the registry has no format at all. Such a registry identifies no file.
    pub fn is_empty(&self) -> bool
        ensures { IsTrue result ↔ (self.now.formats ≡ []) }
    {
        self.formats.is_empty()
    }

    /// Returns the format at this place, counted from 0, or `None` past the end.
    pub fn format(&self, place: u32) -> Option<&Format>
        ensures { option_copied result ≡ slice_get self.now.formats place }
    {
        self.formats.get(place as usize)
    }

    /// Returns the place of the format with this PUID, compared byte for byte, or `None` if there is no such format.
    pub fn by_puid(&self, puid: &str) -> Option<u32>
        ensures place { result ≡ place_of puid.now self.now.formats }
        // The format at that place has the PUID.
        ensures found { IfSome result (λ place.
            option_map (λ format. format.puid) (slice_get self.now.formats place) ≡ Some puid.now) }
        ensures below { IfSome result (λ place. place < length self.now.formats) }
    {
        self.places.get(puid).copied()
    }

    /// Identifies a file by its name and its first and last bytes.
    ///
    /// Signatures come first. If they give no format, the extension of the name decides: with `match_all` it names
    /// each format that lists it, and without `match_all` only those that have no signature.
    ///
    /// `first` and `last` have the same length, at most 65,536 bytes and at most `size`, the size of the file; in a
    /// short file they are the same bytes. A match has to lie wholly inside one of them. Fails only if memory runs
    /// out.
    pub fn identify(
        &self,
        alloc: Global,
        name: &str,
        first: &[u8],
        last: &[u8],
        size: u64,
        match_all: bool,
    ) -> Result<Found, AllocError>
        requires same { length first.now ≡ length last.now }
        requires few { length first.now ≤ 65536 }
        requires inside { length first.now ≤ size }
        // This is what is found in every file of that size that begins and ends with these bytes, under every
        // scan limit for which the windows have this length.
        ensures found { IfOk result (λ found.
            (file : List ℕ) (scan_limit : ℕ) → length file ≡ size → min scan_limit size ≡ length first.now
            → take (length first.now) file ≡ first.now → drop (size - length first.now) file ≡ last.now
            → IsFound self.now name.now file scan_limit match_all found) }
        ensures few { IfOk result (λ found. length found.puids ≤ 4096) }
        ensures puids { IfOk result (λ found. AllByRecursion (λ puid. IsTrue (is_puid puid)) found.puids) }
    {
        prove!(first.len() as u64 <= size);
        prove!(self.len() <= FORMATS_LIMIT);
        identify_windows(alloc, self, name, first, last, match_all)
    }

    /// Returns the formats in the order of their records: the one at place 0 first.
    pub(crate) fn formats(&self) -> &[Format]
        ensures { result.now ≡ self.now.formats }
    {
        self.formats.as_slice()
    }

    /// Returns the extensions that the formats list, in lower case, in the order of their records.
    pub(crate) fn extensions(&self) -> &[ListedExtension]
        ensures value { result.now ≡ self.now.extensions }
        ensures placed { AllByRecursion (λ row. row.place < length self.now.formats) self.now.extensions }
    {
        self.extensions.as_slice()
    }

    /// Returns the priorities between formats, in the order of their records.
    pub fn priorities(&self) -> &[Priority]
        ensures { result.now ≡ self.now.priorities }
    {
        self.priorities.as_slice()
    }

    /// Returns the signatures, in the order of their records.
    pub fn signatures(&self) -> &[Signature]
        ensures { result.now ≡ self.now.signatures }
    {
        self.signatures.as_slice()
    }

    /// Returns, for each format, a flag: whether it has a signature.
    pub(crate) fn signed(&self) -> &[bool]
        ensures len { length result.now ≡ length self.now.formats }
        ensures each { (k : ℕ) → (slice_get result.now k ≡ Some true) ↔ IsSigned self.now k }
    {
        self.signed.as_slice()
    }

    /// Adds a format at the next place. Fails only if memory runs out, and then leaves the registry as it was.
    /// `Draft::take_format` has checked what is required.
    pub(crate) fn push_format(&mut self, alloc: Global, format: Format) -> Result<(), AllocError>
        requires few { length self.old.formats < 4096 }
        requires named { IsTrue (is_puid format.puid) }
        requires fresh { place_of format.puid self.old.formats ≡ None }
        ensures ok { OnOk result (self.new ≡ with_format self.old format) }
        ensures err { OnErr result (self.new ≡ self.old) }
    {
        // What may fail comes first. The last of it, `insert`, changes nothing when it fails.
        let puid = String::from_str(alloc, format.puid.as_str())?;
        let place = self.formats.len() as u32;
        self.formats.reserve(1)?;
        self.signed.reserve(1)?;
        self.places.insert(puid, place)?;
        self.formats.push(format).unwrap();
        self.signed.push(false).unwrap();
        Ok(())
    }

    /// Adds an extension that a format lists. Fails only if memory runs out, and then leaves the registry as it was.
    pub(crate) fn push_extension(&mut self, row: ListedExtension) -> Result<(), AllocError>
        requires { row.place < length self.old.formats }
        ensures ok { OnOk result (self.new ≡ with_extension self.old row) }
        ensures err { OnErr result (self.new ≡ self.old) }
    {
        self.extensions.push(row)?;
        Ok(())
    }

    /// Adds a priority. Fails only if memory runs out, and then leaves the registry as it was.
    pub(crate) fn push_priority(&mut self, row: Priority) -> Result<(), AllocError>
        requires place { row.place < length self.old.formats }
        requires over { row.over < length self.old.formats }
        ensures ok { OnOk result (self.new ≡ with_priority self.old row) }
        ensures err { OnErr result (self.new ≡ self.old) }
    {
        self.priorities.push(row)?;
        Ok(())
    }

    /// Adds a signature, and notes that its format has one. Fails only if memory runs out, and then leaves the registry
    /// as it was.
    pub(crate) fn push_signature(&mut self, signature: Signature) -> Result<(), AllocError>
        requires { signature.place < length self.old.formats }
        ensures ok { OnOk result (self.new ≡ with_signature self.old signature) }
        ensures err { OnErr result (self.new ≡ self.old) }
    {
        let place = signature.place() as usize;
        self.signatures.push(signature)?;
        self.signed[place] = true;
        Ok(())
    }

    /// Adds a byte sequence to the last signature; without any signature, does nothing, but `Draft` never asks for
    /// that. Fails only if memory runs out, and then leaves the registry as it was.
    pub(crate) fn push_sequence(&mut self, sequence: ByteSequence) -> Result<(), AllocError>
        ensures ok { OnOk result (self.new ≡ with_sequence self.old sequence) }
        ensures err { OnErr result (self.new ≡ self.old) }
    {
        let count = self.signatures.len();
        if count > 0 {
            self.signatures[count - 1].push(sequence)?;
        }
        Ok(())
    }
}
