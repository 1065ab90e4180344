//! Reads the text of a pattern, element by element.
//!
//! `split_at_mark`, `byte_of` and `number_of` are public because `droid_signature_pattern` reads the same parts.

ghost use Rattle.std.specs.Prelude.{◌≡◌, ◌++◌, ◌∷◌, ℕ, List, map, IfOk, IsErrOf, MatchOption, Contains};
ghost use Rattle.droid_pattern.specs.Patterns.{Element};
ghost use Rattle.droid_pattern.specs.PatternText.{IsPair, IsNumber, SpellsBytes, SpellsAlternative, SpellsChoice};
ghost use Rattle.droid_pattern.specs.PatternText.{SpellsAll};
ghost use Rattle.droid_pattern.specs.Tokens.{element_of, element_of_class};
ghost use Rattle.droid_pattern.specs.Fronts.{IsOnlyFront, HasNoFront, SpellsInPair, SpellsInBraces, SpellsInBrackets};

use crate::class::Class;
use crate::pattern_fault::PatternFault;
use crate::token::Token;
use memchr::memchr;
use std::alloc::Global;

/// Reads all tokens of the text; the empty text has none. Where a text begins with no token, returns `BadPattern`.
pub(crate) fn tokens_of(alloc: Global, text: &[u8]) -> Result<Vec<Token>, PatternFault>
    ensures spelled { IfOk result (λ tokens. SpellsAll text.now (map element_of tokens.items)) }
    ensures only { (es : List Element) → SpellsAll text.now es
        → IfOk result (λ tokens. map element_of tokens.items ≡ es) }
    ensures bad { IsErrOf result PatternFault.BadPattern → (es : List Element) → SpellsAll text.now es → ⊥ }
{
    let mut tokens = Vec::new(alloc);
    let mut rest = text;
    while !rest.is_empty() {
        let (token, after) = token_of(alloc, rest)?;
        tokens.push(token)?;
        rest = after;
    }
    Ok(tokens)
}

/// Reads the first token of the text. Returns it and the text after it, or `BadPattern` if the text begins with none.
fn token_of(alloc: Global, text: &[u8]) -> Result<(Token, &[u8]), PatternFault>
    ensures front { IfOk result (λ found. IsOnlyFront text.now (element_of found.0) found.1.now) }
    ensures bad { IsErrOf result PatternFault.BadPattern → HasNoFront text.now }
{
    let (first, after) = text.split_first().ok_or(PatternFault::BadPattern)?;
    match *first {
        b'*' => Ok((Token::OpenGap { least: 0 }, after)),
        b'{' => {
            let (body, rest) = split_at_mark(b'}', after).ok_or(PatternFault::BadPattern)?;
            let token = gap_of(body).ok_or(PatternFault::BadPattern)?;
            Ok((token, rest))
        }
        b'[' => {
            let (body, rest) = split_at_mark(b']', after).ok_or(PatternFault::BadPattern)?;
            let class = class_of(body).ok_or(PatternFault::BadPattern)?;
            Ok((Token::One(class), rest))
        }
        b'(' => {
            let (body, rest) = split_at_mark(b')', after).ok_or(PatternFault::BadPattern)?;
            let alternatives = choice_of(alloc, body)?;
            Ok((Token::Choice(alternatives), rest))
        }
        first => {
            let (second, rest) = after.split_first().ok_or(PatternFault::BadPattern)?;
            let token = token_of_pair(first, *second).ok_or(PatternFault::BadPattern)?;
            Ok((token, rest))
        }
    }
}

/// Reads a token of two characters: `61` or `??`. Returns `None` for any others.
fn token_of_pair(first: u8, second: u8) -> Option<Token>
    ensures { MatchOption result ((e : Element) → SpellsInPair first second e → ⊥)
        (λ token. SpellsInPair first second (element_of token)) }
{
    if first == b'?' && second == b'?' {
        return Some(Token::AnyByte);
    }
    let byte = byte_of(first, second)?;
    Some(Token::One(Class::Byte(byte)))
}

/// Returns the text before the first `mark` and the text after it, or `None` if there is no `mark`.
pub fn split_at_mark(mark: u8, text: &[u8]) -> Option<(&[u8], &[u8])>
    ensures { MatchOption result (Contains text.now mark → ⊥)
        (λ halves. (text.now ≡ halves.0.now ++ mark ∷ halves.1.now) × (Contains halves.0.now mark → ⊥)) }
{
    let position = memchr(mark, text)?;
    Some((&text[..position], &text[position + 1..]))
}

/// Reads the text between braces: `3`, `2-5` or `2-*`. Returns `None` for any other text, `5-2` included.
fn gap_of(body: &[u8]) -> Option<Token>
    ensures { MatchOption result ((e : Element) → SpellsInBraces body.now e → ⊥)
        (λ token. SpellsInBraces body.now (element_of token)) }
{
    let Some((low, high)) = split_at_mark(b'-', body) else {
        let least = number_of(body)?;
        return Some(Token::Gap { least, more: 0 });
    };
    let least = number_of(low)?;
    if high == b"*".as_slice() {
        return Some(Token::OpenGap { least });
    }
    let most = number_of(high)?;
    let more = most.checked_sub(least)?;
    Some(Token::Gap { least, more })
}

/// Reads the text between brackets: `61:7A` or `!61`. Returns `None` for any other text, `7A:61` included.
fn class_of(body: &[u8]) -> Option<Class>
    ensures { MatchOption result ((e : Element) → SpellsInBrackets body.now e → ⊥)
        (λ class. SpellsInBrackets body.now (element_of_class class)) }
{
    match body {
        [b'!', high, low] => Some(Class::Except(byte_of(*high, *low)?)),
        [high, low, b':', high_to, low_to] => {
            let low = byte_of(*high, *low)?;
            let high = byte_of(*high_to, *low_to)?;
            if low <= high {
                Some(Class::Range { low, high })
            } else {
                None
            }
        }
        _ => None,
    }
}

/// Reads the text between parentheses: one or more alternatives, separated by `|`. One that is empty, or no digits, is
/// `BadPattern`.
fn choice_of(alloc: Global, body: &[u8]) -> Result<Vec<Vec<u8>>, PatternFault>
    ensures spelled { IfOk result (λ found. SpellsChoice body.now (map (λ v. v.items) found.items)) }
    ensures bad { IsErrOf result PatternFault.BadPattern → (found : List (List ℕ)) → SpellsChoice body.now found → ⊥ }
{
    let mut alternatives = Vec::new(alloc);
    let mut rest = body;
    while let Some((first, after)) = split_at_mark(b'|', rest) {
        let alternative = alternative_of(alloc, first)?;
        alternatives.push(alternative)?;
        rest = after;
    }
    let alternative = alternative_of(alloc, rest)?;
    alternatives.push(alternative)?;
    Ok(alternatives)
}

/// Reads one or more bytes, each as two hexadecimal digits. No digits, a single one at the end and any other character
/// are `BadPattern`.
fn alternative_of(alloc: Global, digits: &[u8]) -> Result<Vec<u8>, PatternFault>
    ensures spelled { IfOk result (λ bytes. SpellsAlternative digits.now bytes.items) }
    ensures bad { IsErrOf result PatternFault.BadPattern → (bs : List ℕ) → SpellsAlternative digits.now bs → ⊥ }
{
    if digits.is_empty() {
        return Err(PatternFault::BadPattern);
    }
    let mut bytes = Vec::with_capacity(alloc, digits.len() / 2)?;
    let mut rest = digits;
    while let [high, low, after @ ..] = rest {
        let byte = byte_of(*high, *low).ok_or(PatternFault::BadPattern)?;
        bytes.push(byte)?;
        rest = after;
    }
    if !rest.is_empty() {
        return Err(PatternFault::BadPattern);
    }
    Ok(bytes)
}

/// Returns the byte that two hexadecimal digits, in either case, stand for, or `None` if one of them is no digit.
pub fn byte_of(high: u8, low: u8) -> Option<u8>
    ensures { MatchOption result ((b : ℕ) → IsPair high low b → ⊥) (IsPair high low) }
{
    let high = char::from(high).to_digit(16)?;
    let low = char::from(low).to_digit(16)?;
    Some((16 * high + low) as u8)
}

/// Returns the number that one to five decimal digits stand for, if it is at most 65,535, and otherwise `None`.
pub fn number_of(digits: &[u8]) -> Option<u16>
    ensures { MatchOption result ((n : ℕ) → IsNumber digits.now n → ⊥) (IsNumber digits.now) }
{
    if digits.is_empty() || digits.len() > 5 {
        return None;
    }
    let mut value = 0;
    for digit in digits {
        let digit = char::from(*digit).to_digit(10)?;
        value = 10 * value + digit;
    }
    u16::try_from(value).ok()
}
