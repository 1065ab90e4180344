//! Makes each line end a line feed: a carriage return with a line feed behind it, or alone, becomes one.

ghost use Rattle.std.specs.Prelude.{◌≡◌, ◌++◌, IfOk, MatchOption, OnOk};
ghost use Rattle.droid_xml.specs.LineEnds.{line_feed, with_line_feeds};

use std::alloc::{AllocError, Global};

/// Makes each line end a line feed. Returns `None` where each is one already, without a copy. Fails if memory runs out.
pub fn with_line_feeds(alloc: Global, text: &[u8]) -> Result<Option<Vec<u8>>, AllocError>
    ensures { IfOk result (λ made.
        MatchOption made (with_line_feeds text.now ≡ text.now) (λ bytes. bytes.items ≡ with_line_feeds text.now)) }
{
    if !text.contains(&b'\r') {
        return Ok(None);
    }
    Ok(Some(rewritten(alloc, text)?))
}

/// Copies the text with a line feed for each of its line ends. It has at least one carriage return.
#[tactic(auto, unfolding(crate::specs::LineEnds::with_line_feeds))]
fn rewritten(alloc: Global, text: &[u8]) -> Result<Vec<u8>, AllocError>
    ensures { IfOk result (λ bytes. bytes.items ≡ with_line_feeds text.now) }
{
    let mut bytes = Vec::with_capacity(alloc, text.len())?;
    let mut is_behind = false;
    for byte in text {
        push_line_feed(&mut bytes, is_behind, *byte)?;
        is_behind = *byte == b'\r';
    }
    Ok(bytes)
}

/// Adds what a byte becomes. `is_behind` says whether a carriage return stands right before it.
fn push_line_feed(bytes: &mut Vec<u8>, is_behind: bool, byte: u8) -> Result<(), AllocError>
    ensures { OnOk result (bytes.new.items ≡ bytes.old.items ++ line_feed is_behind byte) }
{
    if byte == b'\r' {
        bytes.push(b'\n')?;
        return Ok(());
    }
    if is_behind && byte == b'\n' {
        return Ok(());
    }
    bytes.push(byte)?;
    Ok(())
}
