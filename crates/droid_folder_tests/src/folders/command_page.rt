//! The examples of crates/droid_arguments/README.md and crates/droid_terminal/README.md.

use droid_arguments::{Asked, what_is_asked};
use droid_terminal::entry_line;
use droid_tree::Skipped;
use std::test::Fail;

#[test]
fn example_of_arguments(rt: HostRuntime) -> Result<(), Fail> {
    let alloc = rt.alloc();
    let mut words = Vec::new(alloc);
    for word in ["droid_desk", "run", "--journal", "desk.journal"] {
        words.push(String::from_str(alloc, word)?)?;
    }
    let Ok(asked) = what_is_asked(alloc, words.as_slice()) else {
        return Err("nothing was asked".into());
    };
    let is_run = match asked {
        Asked::Run { journal, .. } => journal == Some("desk.journal"),
        _ => false,
    };
    assert!(rt; is_run);
    Ok(())
}

#[test]
fn example_of_terminal(rt: HostRuntime) -> Result<(), Fail> {
    let line = entry_line(rt.alloc(), b"/letters/link", Skipped::Link)?;
    let wanted = "\"/letters/link\",\"it is a symbolic link, which is no part of a profile\"\n";
    assert!(rt; line.as_slice() == wanted.as_bytes());
    Ok(())
}
