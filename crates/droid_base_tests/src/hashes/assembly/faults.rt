//! The texts of an assembly's faults.

use droid_assembly::{Incomplete, PutFault};
use droid_frame::Blob;
use std::alloc::Global;
use std::test::Fail;

/// Returns whether the fault is printed as this text.
fn says(alloc: Global, fault: &PutFault, text: &str) -> Result<bool, Fail> {
    Ok(format!(in alloc; "{fault}")?.as_str() == text)
}

#[test]
fn texts(rt: HostRuntime) -> Result<(), Fail> {
    let alloc = rt.alloc();
    let bytes = Blob::copy_of(alloc, b"abc")?;
    let bad = "no piece of this index and length belongs to the file";
    assert!(rt; says(alloc, &PutFault::BadPiece { bytes }, bad)?);
    let bytes = Blob::copy_of(alloc, b"abc")?;
    let held = "the piece was taken before";
    assert!(rt; says(alloc, &PutFault::PieceHeld { bytes }, held)?);
    let bytes = Blob::copy_of(alloc, b"abc")?;
    let far = "the piece lies too far past piece 7, which is missing";
    assert!(rt; says(alloc, &PutFault::TooFarAhead { missing: 7, bytes }, far)?);
    let incomplete = Incomplete { missing: 7 };
    assert!(rt; format!(in alloc; "{incomplete}")?.as_str() == "piece 7 is missing");
    Ok(())
}
