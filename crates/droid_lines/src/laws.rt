//! Laws of lines. Each law is the contract of a function that does nothing.

ghost use Rattle.droid_lines.specs.InFront.{AskTheSame};

/// [`parse_request_line`](crate::parser::parse_request_line) reads from a line the same request as
/// [`parse_line`](crate::parser::parse_line) from that line with a client and a number in front. The one line is bad
/// exactly if the other is.
pub fn lines_ask_the_same()
    ensures { AskTheSame }
{}
