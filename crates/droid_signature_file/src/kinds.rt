//! The elements and attributes that a signature file is known to have. Where a kind is asked for, `None` says that the
//! name is not known in this place.

ghost use Rattle.std.specs.Prelude.{◌≡◌, Some, None, if◌then◌else◌};
ghost use Rattle.std.specs.Str.{bytes_eq};
ghost use Rattle.droid_signature_file.specs.Unknown as known;

/// A known element, by what may stand in it.
#[derive(Clone, Copy)]
pub(crate) enum Kind {
    /// `FFSignatureFile`.
    Root,
    /// `InternalSignatureCollection`.
    SignatureCollection,
    /// `InternalSignature`.
    Signature,
    ByteSequence,
    SubSequence,
    /// `LeftFragment` and `RightFragment`.
    Fragment,
    /// `FileFormatCollection`.
    FormatCollection,
    /// `FileFormat`.
    Format,
    /// An element that has text and no attributes, as `Sequence` and `Extension`.
    Word,
}

/// Returns the kind of the outermost element: the root, by its one name.
pub(crate) fn kind_outside(name: &str) -> Option<Kind>
    ensures { result ≡ known.kind_outside name.now }
{
    if name == "FFSignatureFile" {
        Some(Kind::Root)
    } else {
        None
    }
}

impl Kind {
    /// Returns the kind of an element of this name that stands in one of this kind.
    pub(crate) fn of_inner(self, name: &str) -> Option<Kind>
        ensures { result ≡ known.kind_in self name.now }
    {
        match self {
            Kind::Root => collection(name),
            Kind::SignatureCollection => only(name, "InternalSignature", Kind::Signature),
            Kind::Signature => only(name, "ByteSequence", Kind::ByteSequence),
            Kind::ByteSequence => only(name, "SubSequence", Kind::SubSequence),
            Kind::SubSequence => run_or_fragment(name),
            Kind::FormatCollection => only(name, "FileFormat", Kind::Format),
            Kind::Format => word_of_format(name),
            Kind::Fragment | Kind::Word => None,
        }
    }

    /// Returns whether an element of this kind may have an attribute of this name.
    pub(crate) fn has_attribute(self, name: &str) -> bool
        ensures { result ≡ known.has_attribute self name.now }
    {
        match self {
            Kind::Root => name == "Version" || name == "DateCreated" || name == "xmlns",
            Kind::Signature => name == "ID" || name == "Specificity",
            Kind::ByteSequence => name == "Reference",
            Kind::SubSequence => {
                name == "Position" || name == "SubSeqMinOffset" || name == "SubSeqMaxOffset"
            }
            Kind::Fragment => name == "Position" || name == "MinOffset" || name == "MaxOffset",
            Kind::Format => {
                name == "ID"
                    || name == "PUID"
                    || name == "Name"
                    || name == "Version"
                    || name == "MIMEType"
            }
            Kind::SignatureCollection | Kind::FormatCollection | Kind::Word => false,
        }
    }
}

/// Returns the kind, if the name is the wanted one: for elements that have one kind of element inside.
fn only(name: &str, wanted: &str, kind: Kind) -> Option<Kind>
    ensures { result ≡ (if bytes_eq name.now wanted.now then Some kind else None) }
{
    if name == wanted { Some(kind) } else { None }
}

/// Returns the kind of an element that stands in the root: one of the two collections.
fn collection(name: &str) -> Option<Kind>
    ensures { result ≡ known.kind_in Kind.Root name.now }
{
    if name == "InternalSignatureCollection" {
        Some(Kind::SignatureCollection)
    } else if name == "FileFormatCollection" {
        Some(Kind::FormatCollection)
    } else {
        None
    }
}

/// Returns the kind of an element that stands in a `SubSequence`: its run of bytes (`Sequence`), or a fragment.
fn run_or_fragment(name: &str) -> Option<Kind>
    ensures { result ≡ known.kind_in Kind.SubSequence name.now }
{
    if name == "Sequence" {
        Some(Kind::Word)
    } else if name == "LeftFragment" || name == "RightFragment" {
        Some(Kind::Fragment)
    } else {
        None
    }
}

/// Returns the kind of an element that stands in a `FileFormat`: all three have text alone.
fn word_of_format(name: &str) -> Option<Kind>
    ensures { result ≡ known.kind_in Kind.Format name.now }
{
    if name == "InternalSignatureID"
        || name == "Extension"
        || name == "HasPriorityOverFileFormatID"
    {
        Some(Kind::Word)
    } else {
        None
    }
}
