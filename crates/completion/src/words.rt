//! The word before the cursor.

ghost use Rattle.std.specs.Prelude.{◌≡◌, ◌+◌, ◌≤◌, ◌<◌, ℕ, false, length, slice_index_or, slice_range, IfOk, encode_utf8_all, string_bytes};
ghost use Rattle.completion.specs.Words.{is_in_word, IsWord, AreInWord};

use std::alloc::{AllocError, Global};
use text::Text;

/// How many characters before the cursor are looked at first. Nearly every word has fewer.
const FIRST_WIDTH: usize = 64;

/// Whether a character belongs to a word.
fn is_in_word(character: char) -> bool
    ensures { result ≡ is_in_word character }
{
    character.is_alphanumeric() || character == '_'
}

/// Where the word before offset `end` begins, or `from` where it begins there or before it.
fn start_since(text: &Text, from: usize, end: usize) -> usize
    requires ordered { from ≤ end }
    requires within { end ≤ length text.now }
    ensures lower { from ≤ result }
    ensures word { AreInWord text.now result end }
    ensures begins { (i : ℕ) → from < result → result ≡ i + 1
        → is_in_word (slice_index_or text.now i 0) ≡ false }
{
    let mut start = from;
    let mut ahead = text.chars_from(from);
    for at in from..end {
        let Some(character) = ahead.next() else {
            unreachable!();
        };
        if !is_in_word(character) {
            start = at + 1;
        }
    }
    start
}

/// Where the word before offset `end` begins.
pub fn word_start(text: &Text, end: usize) -> usize
    requires { end ≤ length text.now }
    ensures { IsWord text.now result end }
{
    let mut width = FIRST_WIDTH;
    'wider: loop {
        let from = end.saturating_sub(width);
        let start = start_since(text, from, end);
        if start > from || from == 0 {
            return start;
        }
        width = width.saturating_mul(2);
    }
}

/// The characters from one offset up to another in UTF-8. Refuses for memory alone.
pub fn text_between(
    alloc: Global,
    text: &Text,
    from: usize,
    to: usize,
) -> Result<String, AllocError>
    requires ordered { from ≤ to }
    requires within { to ≤ length text.now }
    ensures { IfOk result (λ s. string_bytes s
        ≡ encode_utf8_all (slice_range text.now from to)) }
{
    let mut string = String::new(alloc);
    let mut ahead = text.chars_from(from);
    for _ in from..to {
        let Some(character) = ahead.next() else {
            unreachable!();
        };
        string.push(character)?;
    }
    Ok(string)
}
