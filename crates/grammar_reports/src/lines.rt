//! Places in the text of a grammar file.

/// A part of a line, from one UTF-16 unit of it up to another. Lines count from 0.
#[derive(Clone, Copy, Debug, PartialEq, Eq)]
pub struct LinePart {
    pub line: usize,
    pub start: usize,
    pub end: usize,
}

/// How many UTF-16 units a text has.
fn units(text: &str) -> usize {
    text.encode_utf16().count()
}

/// A line of a text without what ends it; empty where the text has no such line.
pub fn line_of(text: &str, line: usize) -> &str {
    text.lines().nth(line).unwrap_or("")
}

/// How many UTF-16 units the first characters of a text have.
fn units_of_first(text: &str, characters: usize) -> usize {
    let mut units = 0_usize;
    for character in text.chars().take(characters) {
        units = units.saturating_add(character.len_utf16());
    }
    units
}

/// A line of a text, from a character of it on, or none of it where it has no such character.
pub fn part_from(text: &str, line: usize, character: usize) -> LinePart {
    let found = line_of(text, line);
    LinePart {
        line,
        start: units_of_first(found, character),
        end: units(found),
    }
}

/// The character of a line at which its pattern begins: behind `=` and blanks.
pub fn pattern_start(text: &str, line: usize) -> usize {
    let found = line_of(text, line);
    match found.split_once('=') {
        Some((before, pattern)) => {
            let blanks = pattern
                .chars()
                .take_while(|c| *c == ' ' || *c == '\t')
                .count();
            before
                .chars()
                .count()
                .saturating_add(1)
                .saturating_add(blanks)
        }
        None => 0,
    }
}
