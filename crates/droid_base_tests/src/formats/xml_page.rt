//! The example of the page README.md of droid_xml.

use droid_xml::{Piece, read};
use std::test::Fail;

#[test]
fn example_of_the_page(rt: HostRuntime) -> Result<(), Fail> {
    let alloc = rt.alloc();
    let Ok(pieces) = read(alloc, b"<letter year=\"1820\">Dear &amp; near</letter>") else {
        return Err(Fail::from("no document"));
    };
    let is_letter = match pieces.first() {
        Some(first) => match first {
            Piece::Start(letter) => letter.name == "letter" && letter.attributes.len() == 1,
            _ => false,
        },
        None => false,
    };
    assert!(rt; is_letter && pieces.len() == 5);
    Ok(())
}
