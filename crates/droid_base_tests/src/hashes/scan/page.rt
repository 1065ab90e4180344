//! The example of the page README.md of droid_hash.

use droid_frame::{HashKind, HashValue};
use droid_hash::{EndBytes, HashLanes};
use md5::{Digest, Md5};
use std::test::Fail;

#[test]
fn example_of_the_page(rt: HostRuntime) -> Result<(), Fail> {
    let alloc = rt.alloc();
    let one = "abc".as_bytes();
    let two = "abcde".as_bytes();
    let none = "".as_bytes();
    let mut lanes = HashLanes::new(HashKind::Md5);
    let taken = lanes.advance([one, none, two, none, none, none, none, none]);
    let found: HashValue = lanes.end(2);
    assert!(rt; taken == 3 && found == HashValue::Md5(Md5::digest("abc")));

    let mut ends = EndBytes::new(alloc, 4)?;
    ends.begin(10);
    ends.take("Dear ".as_bytes());
    ends.take("Bessy".as_bytes());
    assert!(rt; ends.first() == "Dear".as_bytes() && ends.last() == "essy".as_bytes());
    Ok(())
}
