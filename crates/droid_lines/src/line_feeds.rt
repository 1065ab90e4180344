//! The lines of a script, separated by line feeds.

ghost use Rattle.std.specs.Prelude.{◌≡◌, ◌<◌, ◌∷◌, [], length, IfSome, MatchOption};
ghost use Rattle.droid_lines.specs.Lines.{is_line_feed, lines_of};
ghost use Rattle.std.specs.List.{position_from};

/// Returns the first line of the input without its line feed, and the input after that, or `None` if no line is left.
/// The last line may have no line feed.
pub fn next_line(input: &[u8]) -> Option<(&[u8], &[u8])>
    ensures line { MatchOption result (lines_of input.now ≡ []) (λ x. lines_of input.now ≡ x.0.now ∷ lines_of x.1.now) }
    ensures shorter { IfSome result (λ x. length x.1.now < length input.now) }
{
    if input.is_empty() {
        return None;
    }
    match line_end(input) {
        Some(place) => Some((&input[..place], &input[place + 1..])),
        None => Some((input, &[])),
    }
}

/// Returns the index of the first line feed, if there is one. The next line begins after it.
pub fn line_end(input: &[u8]) -> Option<usize>
    ensures first { result ≡ position_from is_line_feed 0 input.now }
    ensures within { IfSome result (λ place. place < length input.now) }
{
    input.iter().position(|byte| *byte == b'\n')
}
