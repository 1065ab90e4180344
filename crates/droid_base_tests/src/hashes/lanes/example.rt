//! Lanes of MD5 in which files of several lengths begin and end.

use droid_hash::Md5Lanes;
use md5::{Digest, Md5};

#[test]
fn lanes_begin_anew(rt: HostRuntime) {
    let none = "".as_bytes();
    let mut lanes = Md5Lanes::new();

    // Lane 0 takes the first piece of one file, lane 5 all of another. The other lanes are idle.
    lanes.update([
        "Hello, ".as_bytes(),
        none,
        none,
        none,
        none,
        "abc".as_bytes(),
        none,
        none,
    ]);
    assert_eq!(rt; lanes.end(5), Md5::digest("abc"));

    // Lane 5 has begun a new message. Lane 0 goes on.
    lanes.update([
        "world".as_bytes(),
        none,
        none,
        none,
        none,
        "a".as_bytes(),
        none,
        none,
    ]);
    assert_eq!(rt; lanes.end(0), Md5::digest("Hello, world"));
    assert_eq!(rt; lanes.end(5), Md5::digest("a"));
}
