//! Whether texts that are put together stay the tokens that they are.

use definitions::Kind;
use docs::Language;
use std::alloc::{AllocError, Global};
use text::{Text, TextFault};

/// A token of a text.
#[derive(Clone, Copy)]
pub(crate) struct Found {
    pub(crate) kind: Kind,
    pub(crate) length: usize,
}

/// The token of a text that starts at this offset, counted in characters, if one does.
pub(crate) fn token_from(
    alloc: Global,
    language: &Language,
    text: &str,
    offset: usize,
) -> Result<Option<Found>, AllocError> {
    let characters = match Text::open(alloc, text) {
        Ok(characters) => characters,
        Err(TextFault::TooLarge) => return Ok(None),
        Err(TextFault::Memory) => return Err(AllocError),
    };
    let tokens = language.scan(alloc, &characters, text)?;
    let mut start = 0usize;
    for token in tokens.items().iter_from(0) {
        let length = token.length() as usize;
        if start == offset {
            let kind = token.kind();
            return Ok(Some(Found { kind, length }));
        }
        start = start.saturating_add(length);
    }
    Ok(None)
}

/// Whether a token of this rule is what stands at the end of a text, behind its first characters,
/// where more follows.
pub(crate) fn is_token(
    alloc: Global,
    language: &Language,
    before: &str,
    token: &str,
    after: &str,
    rule: usize,
) -> Result<bool, AllocError> {
    let whole = format!(in alloc; "{before}{token}{after}")?;
    let offset = before.chars().count();
    match token_from(alloc, language, &whole, offset)? {
        Some(found) => {
            Ok(found.kind == Kind::Rule(rule) && found.length == token.chars().count())
        }
        None => Ok(false),
    }
}

/// Whether a token ends where the first text does, and the other one follows.
pub(crate) fn is_apart(
    alloc: Global,
    language: &Language,
    before: &str,
    after: &str,
) -> Result<bool, AllocError> {
    if before.is_empty() || after.is_empty() {
        return Ok(true);
    }
    let whole = format!(in alloc; "{before}{after}")?;
    let offset = before.chars().count();
    Ok(token_from(alloc, language, &whole, offset)?.is_some())
}
