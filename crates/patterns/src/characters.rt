//! The characters that a text writes, with its escapes taken out.

ghost use Rattle.std.specs.Prelude.{◌≡◌, ◌+◌, ◌<◌, ◌≤◌, [], ◌∷◌, length, drop, IfOk, MatchOption};
ghost use Rattle.definitions.specs.PatternText.{BadEscape, Escaped, written, escape, braced};
ghost use Rattle.patterns.specs.Reading.{written_as, writing};

use std::alloc::{AllocError, Global};

/// A character as it is written, at its place in the text, which counts characters.
#[derive(Clone, Copy)]
pub enum Character {
    /// This character, written as itself.
    Sign { place: usize, code: char },
    /// This character, written by an escape.
    Escape { place: usize, code: char },
    /// An escape that stands for no character.
    Broken { place: usize },
}

/// The characters that `text` writes, up to the first escape that stands for none.
pub fn spelled_characters(alloc: Global, text: &[char]) -> Result<Vec<Character>, AllocError>
    ensures { IfOk result (λ words. writing words.items ≡ written 0 text.now) }
{
    let mut words = Vec::new(alloc);
    let mut place = 0;
    while place < text.len() {
        let (word, next) = character_at(text, place);
        words.push(word)?;
        place = next;
    }
    Ok(words)
}

/// The character that is written at `place`, and the place after it.
fn character_at(text: &[char], place: usize) -> (Character, usize)
    requires { place < length text.now }
    ensures forward { place < result.1 }
    ensures in_range { result.1 ≤ length text.now }
    ensures written { written place (drop place text.now)
        ≡ written_as result.0 ∷ written result.1 (drop result.1 text.now) }
{
    let code = text[place];
    if code != '\\' {
        return (Character::Sign { place, code }, place + 1);
    }
    match escape_at(text, place) {
        Some((code, next)) => (Character::Escape { place, code }, next),
        None => (Character::Broken { place }, text.len()),
    }
}

/// What the escape at `place` stands for, and the place after it.
fn escape_at(text: &[char], place: usize) -> Option<(char, usize)>
    requires { place < length text.now }
    ensures { MatchOption result
        (escape place (drop (place + 1) text.now) ≡ BadEscape place ∷ [])
        (λ r. (place < r.1) × (r.1 ≤ length text.now) ×
        (escape place (drop (place + 1) text.now)
        ≡ Escaped place r.0 ∷ written r.1 (drop r.1 text.now))) }
{
    let code = *text.get(place + 1)?;
    match code {
        'n' => Some(('\n', place + 2)),
        'r' => Some(('\r', place + 2)),
        't' => Some(('\t', place + 2)),
        '"' | ']' | '^' | '-' | '\\' => Some((code, place + 2)),
        'u' => by_number(text, place),
        _ => None,
    }
}

/// What an escape by a number in braces stands for, and the place after it.
fn by_number(text: &[char], place: usize) -> Option<(char, usize)>
    requires { place + 2 ≤ length text.now }
    ensures { MatchOption result
        (braced place (drop (place + 2) text.now) ≡ BadEscape place ∷ [])
        (λ r. (place < r.1) × (r.1 ≤ length text.now) ×
        (braced place (drop (place + 2) text.now)
        ≡ Escaped place r.0 ∷ written r.1 (drop r.1 text.now))) }
{
    if *text.get(place + 2)? != '{' {
        return None;
    }
    let mut value = 0;
    for count in 0..7usize {
        let code = *text.get(place + 3 + count)?;
        if code == '}'
            && count > 0
            && let Some(named) = char::from_u32(value)
        {
            return Some((named, place + count + 4));
        }
        let digit = code.to_digit(16)?;
        if count == 6 {
            return None;
        }
        value = 16 * value + digit;
    }
    None
}
