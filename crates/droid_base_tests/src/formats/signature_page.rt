//! The examples of the pages README.md of droid_signature, droid_signature_file and droid_signature_pattern.

use droid_pronom::Registry;
use droid_signature::convert;
use droid_signature_file::read;
use droid_signature_pattern::choices_of;
use std::test::Fail;

/// A signature file with one format.
const FILE: &str =
    "<FFSignatureFile Version=\"1\" DateCreated=\"2026-01-02\"><InternalSignatureCollection>
<InternalSignature ID=\"1\" Specificity=\"Specific\"><ByteSequence Reference=\"BOFoffset\">
<SubSequence Position=\"1\" SubSeqMinOffset=\"0\" SubSeqMaxOffset=\"0\"><Sequence>48656C6C6F</Sequence></SubSequence>
</ByteSequence></InternalSignature></InternalSignatureCollection><FileFormatCollection>
<FileFormat ID=\"1\" PUID=\"my/1\" Name=\"Greeting\"><InternalSignatureID>1</InternalSignatureID></FileFormat>
</FileFormatCollection></FFSignatureFile>";

#[test]
fn example_of_registries(rt: HostRuntime) -> Result<(), Fail> {
    let alloc = rt.alloc();
    let Ok(file) = read(alloc, FILE.as_bytes()) else {
        return Err(Fail::from("no signature file"));
    };
    let Ok(made) = convert(alloc, &file) else {
        return Err(Fail::from("no registry"));
    };
    let registry = Registry::parse(alloc, made.csv.as_slice())?;
    assert!(rt; registry.len() == 1 && made.taken.signatures == 1 && made.left_out.is_empty());
    Ok(())
}

#[test]
fn example_of_signature_files(rt: HostRuntime) -> Result<(), Fail> {
    let alloc = rt.alloc();
    let Ok(file) = read(alloc, FILE.as_bytes()) else {
        return Err(Fail::from("no signature file"));
    };
    let formats = file.formats();
    assert!(rt; formats.len() == 1 && formats[0].name() == "Greeting");
    assert!(rt; file.signatures().len() == 1 && file.unknown().is_empty());
    Ok(())
}

#[test]
fn example_of_patterns(rt: HostRuntime) -> Result<(), Fail> {
    let alloc = rt.alloc();
    let Ok(file) = read(alloc, FILE.as_bytes()) else {
        return Err(Fail::from("no signature file"));
    };
    let Some(signature) = file.signatures().first() else {
        return Err(Fail::from("no signature"));
    };
    let Ok(choices) = choices_of(alloc, signature) else {
        return Err(Fail::from("no pattern"));
    };
    assert!(rt; choices.len() == 1 && choices[0].texts.len() == 1);
    assert!(rt; choices[0].texts.get(0) == b"48656C6C6F".as_slice());
    Ok(())
}
