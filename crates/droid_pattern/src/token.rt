//! The tokens of a pattern's text: the elements as the parser reads them, before they are packed.

ghost use Rattle.std.specs.Prelude.{◌≡◌, map};
ghost use Rattle.droid_pattern.specs.Patterns.{is_gap, has_byte};
ghost use Rattle.droid_pattern.specs.Tokens.{element_of};

use crate::class::Class;

/// An element of a pattern, as the parser returns it.
#[derive(Drop)]
pub(crate) enum Token {
    /// One byte of a class.
    One(Class),
    /// Any one byte.
    AnyByte,
    /// Any bytes: at least `least`, and at most `least + more`.
    Gap { least: u16, more: u16 },
    /// Any bytes, at least `least`.
    OpenGap { least: u16 },
    /// One of these runs of bytes.
    Choice(Vec<Vec<u8>>),
}

impl Token {
    /// Returns whether the element is a gap, `{..}` or `*`. A gap may match no byte at all.
    pub(crate) fn is_gap(&self) -> bool
        ensures { result ≡ is_gap (element_of self.now) }
    {
        matches!(self, Token::Gap { .. } | Token::OpenGap { .. })
    }

    // The two functions below and `runs_len` have no contract: `compact_form` takes capacities from them, and a wrong
    // one would cost memory, but change no pattern.

    /// Returns whether the element is a star: any number of any bytes.
    pub(crate) fn is_star(&self) -> bool {
        matches!(self, Token::OpenGap { least: 0 })
    }

    /// Returns the number of bytes that `put` of `compact_form` adds to the pool for the element: two numbers of two
    /// bytes for a gap; for a choice the number of alternatives, and each run.
    pub(crate) fn pool_len(&self) -> usize {
        match self {
            Token::One(_) | Token::AnyByte | Token::OpenGap { .. } => 0,
            Token::Gap { .. } => 4,
            Token::Choice(alternatives) => runs_len(alternatives).saturating_add(2),
        }
    }
}

/// Returns the number of bytes of the pool that these runs need, each with its length of two bytes.
fn runs_len(runs: &[Vec<u8>]) -> usize {
    let mut len = 0usize;
    for run in runs {
        len = len.saturating_add(run.len()).saturating_add(2);
    }
    len
}

/// Returns whether at least one element is not a gap, so that a match has a byte. `Pattern::read` refuses other texts.
pub(crate) fn any_byte(tokens: &[Token]) -> bool
    ensures { result ≡ has_byte (map element_of tokens.now) }
{
    for token in tokens {
        if !token.is_gap() {
            return true;
        }
    }
    false
}
