//! The words of a line.

ghost use Rattle.std.specs.Prelude.{◌≡◌, ◌<◌, ◌++◌, ◌==◌, map, filter, IfOk, OnOk};
ghost use Rattle.std.specs.List.{list_all, slice_split};
ghost use Rattle.grammar_line.specs.Words.{words, is_filled, after_equals, is_letter, is_name_byte, is_name, is_reserved};

use std::alloc::{AllocError, Global};

/// What stands between the spaces and tabs of a line.
pub fn words(alloc: Global, line: &str) -> Result<Vec<&str>, AllocError>
    ensures { IfOk result (λ found. map (λ w. w.now) found.items ≡ words line.now) }
{
    let mut found = Vec::new(alloc);
    let parts = parts_of(alloc, line, ' ')?;
    for part in &parts {
        add_words(alloc, &mut found, part)?;
    }
    Ok(found)
}

/// Adds what stands between the tabs of a part of a line.
fn add_words<'a>(alloc: Global, found: &mut Vec<&'a str>, part: &'a str) -> Result<(), AllocError>
    ensures { OnOk result (map (λ w. w.now) found.new.items
        ≡ map (λ w. w.now) found.old.items
        ++ filter is_filled (slice_split (λ b. b == 9) part.now)) }
{
    let words = parts_of(alloc, part, '\t')?;
    for word in &words {
        if !word.is_empty() {
            found.push(word)?;
        }
    }
    Ok(())
}

/// What stands between the places of an ASCII character.
fn parts_of(alloc: Global, text: &str, separator: char) -> Result<Vec<&str>, AllocError>
    requires { separator < 128 }
    ensures { IfOk result (λ parts.
        map (λ w. w.now) parts.items ≡ slice_split (λ b. b == separator) text.now) }
{
    text.split(separator).collect(alloc)
}

/// What stands after the first `=` of a line, without the blanks at its ends.
pub fn after_equals(line: &str) -> &str
    ensures { result.now ≡ after_equals line.now }
{
    let pattern = match line.split_once('=') {
        Some((_, pattern)) => pattern,
        None => "",
    };
    pattern
        .trim_start_matches([' ', '\t'])
        .trim_end_matches([' ', '\t'])
}

fn is_letter(byte: u8) -> bool
    ensures { result ≡ is_letter byte }
{
    byte.is_ascii_alphabetic() || byte == b'_'
}

fn is_name_byte(byte: u8) -> bool
    ensures { result ≡ is_name_byte byte }
{
    byte.is_ascii_alphanumeric() || byte == b'_'
}

fn has_name_bytes(bytes: &[u8]) -> bool
    ensures { result ≡ list_all is_name_byte bytes.now }
{
    bytes.iter().all(|b| is_name_byte(*b))
}

/// An ASCII letter or `_`, then ASCII letters, digits and `_`.
pub fn is_name(word: &str) -> bool
    ensures { result ≡ is_name word.now }
{
    match word.as_bytes() {
        [] => false,
        [first, ..] => is_letter(*first) && has_name_bytes(word.as_bytes()),
    }
}

/// `end` and `invalid`.
pub fn is_reserved(word: &str) -> bool
    ensures { result ≡ is_reserved word.now }
{
    word == "end" || word == "invalid"
}
