//! The record of a format.

ghost use Rattle.std.specs.Prelude.{◌≡◌};
ghost use Rattle.std.specs.Option.{option_copied};

use droid_frame::Text;
use std::marker::Model;

/// The attributes of the element `FileFormat`. A name, version or media type that is missing is empty.
pub struct FormatAttributes {
    pub id: u32,
    pub puid: Option<Text>,
    pub name: Text,
    pub version: Text,
    pub mime: Text,
}

// Written by hand, so that the crates above do not prove again how each part is dropped.
impl Drop for FormatAttributes {
    fn drop(self) {
        let FormatAttributes {
            id: _id,
            puid: _puid,
            name: _name,
            version: _version,
            mime: _mime,
        } = self;
    }
}

/// The element `FileFormat`, with its signatures, extensions and priorities in the file's order.
pub struct FileFormat {
    attributes: FormatAttributes,
    signatures: Vec<u32>,
    extensions: Vec<Text>,
    priorities: Vec<u32>,
}

// Written by hand, so that the crates above do not prove again how each part is dropped.
impl Drop for FileFormat {
    fn drop(self) {
        let FileFormat {
            attributes: _attributes,
            signatures: _signatures,
            extensions: _extensions,
            priorities: _priorities,
        } = self;
    }
}

impl Model for FileFormat {
    ghost use Rattle.droid_signature_file.specs.Records.{FormatRecord};

    ghost Value = { FormatRecord };

    ghost view = { λ it.
        record {
          id = it.attributes.id;
          puid = it.attributes.puid;
          name = it.attributes.name;
          version = it.attributes.version;
          mime = it.attributes.mime;
          signatures = it.signatures.items;
          extensions = it.extensions.items;
          priorities = it.priorities.items;
        } };
}

impl FileFormat {
    /// Makes a format of its attributes, the IDs of its signatures, its extensions, and the IDs of the formats over
    /// which it has priority. Allocates nothing.
    pub fn new(
        attributes: FormatAttributes,
        signatures: Vec<u32>,
        extensions: Vec<Text>,
        priorities: Vec<u32>,
    ) -> FileFormat
        ensures { result
            ≡ record {
              id = attributes.id;
              puid = attributes.puid;
              name = attributes.name;
              version = attributes.version;
              mime = attributes.mime;
              signatures = signatures.items;
              extensions = extensions.items;
              priorities = priorities.items;
            } }
    {
        FileFormat {
            attributes,
            signatures,
            extensions,
            priorities,
        }
    }

    /// Returns the attribute `ID`, by which the priorities of other formats name this one.
    pub fn id(&self) -> u32
        ensures { result ≡ self.now.id }
    {
        self.attributes.id
    }

    /// Returns the attribute `PUID`, if there is one.
    pub fn puid(&self) -> Option<&Text>
        ensures { option_copied result ≡ self.now.puid }
    {
        self.attributes.puid.as_ref()
    }

    /// Returns the attribute `Name`, which is empty if it is missing.
    pub fn name(&self) -> &str
        ensures { result.now ≡ self.now.name }
    {
        self.attributes.name.as_str()
    }

    /// Returns the attribute `Version`, which is empty if it is missing.
    pub fn version(&self) -> &str
        ensures { result.now ≡ self.now.version }
    {
        self.attributes.version.as_str()
    }

    /// Returns the attribute `MIMEType`, which is empty if it is missing.
    pub fn mime(&self) -> &str
        ensures { result.now ≡ self.now.mime }
    {
        self.attributes.mime.as_str()
    }

    /// Returns the IDs of the format's signatures, in the file's order. Whether the file has such signatures is not
    /// checked.
    pub fn signatures(&self) -> &[u32]
        ensures { result.now ≡ self.now.signatures }
    {
        self.signatures.as_slice()
    }

    /// Returns the extensions as they stand, in the file's order.
    pub fn extensions(&self) -> &[Text]
        ensures { result.now ≡ self.now.extensions }
    {
        self.extensions.as_slice()
    }

    /// Returns the IDs of the formats over which this one has priority, in the file's order. Whether the file has such
    /// formats is not checked.
    pub fn priorities(&self) -> &[u32]
        ensures { result.now ≡ self.now.priorities }
    {
        self.priorities.as_slice()
    }
}
