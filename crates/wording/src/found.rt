//! What stands where something else was expected.

use crate::words::{can_be_shown, quote_of, word};
use grammar::Grammar;
use settings::Settings;
use std::alloc::{AllocError, Global};

/// What stands where something else was expected.
#[derive(Clone, Copy, Debug)]
pub enum Found<'a> {
    /// The end of the text.
    End,
    /// A text that begins no token.
    Invalid(&'a str),
    /// A token of this rule with this text.
    Token { rule: usize, text: &'a str },
}

/// The end of a text among what was expected.
pub const END: &str = "the end of the text";

/// So many characters of a text are shown.
const LONG: usize = 30;

/// What stands there, in words.
///
/// Refuses for memory alone.
pub fn found_text(
    alloc: Global,
    grammar: &Grammar,
    settings: &Settings,
    found: Found<'_>,
) -> Result<String, AllocError> {
    match found {
        Found::End => String::from_str(alloc, "end of the text"),
        Found::Invalid(text) => invalid_text(alloc, text),
        Found::Token { text, .. } if can_be_shown(text) || has_break_inside(text) => {
            shown(alloc, text)
        }
        Found::Token { rule, .. } => word(alloc, grammar, settings, rule),
    }
}

/// A text that begins no token: the text, or the number of its first character where it can't be
/// shown.
fn invalid_text(alloc: Global, text: &str) -> Result<String, AllocError> {
    if can_be_shown(text) {
        let shown = shown(alloc, text)?;
        return format!(in alloc; "{shown}, which begins no token");
    }
    let code = text.chars().next().unwrap_or(' ') as u32;
    format!(in alloc; "U+{code:04X}, which begins no token")
}

/// Whether a text has a line break besides those at its ends.
fn has_break_inside(text: &str) -> bool {
    text.trim_matches(|c| c == '\r' || c == '\n').contains('\n')
}

/// A text of a document in quotes, which are single ones where it has double ones and no single
/// one: its first line, and of that the first 30 characters. Where something is left out, two dots
/// say so.
///
/// Refuses for memory alone.
pub fn shown(alloc: Global, text: &str) -> Result<String, AllocError> {
    let quote = quote_of(text);
    let mut shown = String::new(alloc);
    shown.push(quote)?;
    for (count, character) in text.chars().enumerate() {
        if count == LONG || character == '\n' || character == '\r' {
            shown.push_str("..")?;
            break;
        }
        shown.push(character)?;
    }
    shown.push(quote)?;
    Ok(shown)
}
