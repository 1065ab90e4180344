//! The record of a whole signature file.

ghost use Rattle.std.specs.Prelude.{◌≡◌};

use crate::format::FileFormat;
use crate::signature::InternalSignature;
use droid_frame::Text;
use std::marker::Model;

/// What carries a name that the reader does not know.
#[derive(Clone, Copy, PartialEq, Eq)]
pub enum UnknownPart {
    Element,
    Attribute,
}

/// The name of elements or attributes that the reader does not know, and how many there are.
pub struct UnknownName {
    pub part: UnknownPart,
    pub name: Text,
    pub count: u64,
}

// Written by hand, so that the crates above do not prove again how each part is dropped.
impl Drop for UnknownName {
    fn drop(self) {
        let UnknownName {
            part: _part,
            name: _name,
            count: _count,
        } = self;
    }
}

/// A signature file, with its signatures and formats in the file's order.
pub struct SignatureFile {
    version: Text,
    created: Text,
    signatures: Vec<InternalSignature>,
    formats: Vec<FileFormat>,
    unknown: Vec<UnknownName>,
    unlisted: u64,
}

// Written by hand, so that the crates above do not prove again how each part is dropped.
impl Drop for SignatureFile {
    fn drop(self) {
        let SignatureFile {
            version: _version,
            created: _created,
            signatures: _signatures,
            formats: _formats,
            unknown: _unknown,
            unlisted: _unlisted,
        } = self;
    }
}

impl Model for SignatureFile {
    ghost use Rattle.droid_signature_file.specs.Records.{FileRecord};

    ghost Value = { FileRecord };

    ghost view = { λ it.
        record {
          version = it.version;
          created = it.created;
          signatures = it.signatures.items;
          formats = it.formats.items;
          unknown = it.unknown.items;
          unlisted = it.unlisted;
        } };
}

impl SignatureFile {
    /// Makes a file of its attributes `Version` and `DateCreated`, its signatures and formats in the file's order, the
    /// names that the reader does not know, and the number of elements and attributes with further such names. An
    /// attribute that is missing is empty. Allocates nothing.
    pub fn new(
        version: Text,
        created: Text,
        signatures: Vec<InternalSignature>,
        formats: Vec<FileFormat>,
        unknown: Vec<UnknownName>,
        unlisted: u64,
    ) -> SignatureFile
        ensures { result
            ≡ record {
              version = version;
              created = created;
              signatures = signatures.items;
              formats = formats.items;
              unknown = unknown.items;
              unlisted = unlisted;
            } }
    {
        SignatureFile {
            version,
            created,
            signatures,
            formats,
            unknown,
            unlisted,
        }
    }

    /// Returns the attribute `Version`, which is empty if it is missing.
    pub fn version(&self) -> &str
        ensures { result.now ≡ self.now.version }
    {
        self.version.as_str()
    }

    /// Returns the attribute `DateCreated` as it stands, which is empty if it is missing.
    pub fn created(&self) -> &str
        ensures { result.now ≡ self.now.created }
    {
        self.created.as_str()
    }

    /// Returns the signatures in the file's order.
    pub fn signatures(&self) -> &[InternalSignature]
        ensures { result.now ≡ self.now.signatures }
    {
        self.signatures.as_slice()
    }

    /// Returns the formats in the file's order.
    pub fn formats(&self) -> &[FileFormat]
        ensures { result.now ≡ self.now.formats }
    {
        self.formats.as_slice()
    }

    /// Returns the names that the reader does not know, each once, at most 64, in the order in which they come first.
    pub fn unknown(&self) -> &[UnknownName]
        ensures { result.now ≡ self.now.unknown }
    {
        self.unknown.as_slice()
    }

    /// Returns how many elements and attributes have a name that the reader does not know and that is not listed.
    pub fn unlisted(&self) -> u64
        ensures { result ≡ self.now.unlisted }
    {
        self.unlisted
    }
}
