//! The names of symbols.

use crate::nodes::{Nodes, Placed, Places};
use crate::walk::Walk;
use definitions::Symbol;
use settings::{NamePart, SymbolRule};
use std::alloc::{AllocError, Global};
use trees::Child;

/// The places of the name among these parts of a node, of which the first token has the place
/// `from`: those of the first part that it stands in, and of the parts right behind that.
pub(crate) fn name_among(
    alloc: Global,
    nodes: Nodes<'_>,
    rule: &SymbolRule,
    parts: &[Child],
    from: usize,
) -> Result<Option<Places>, AllocError> {
    let mut name: Option<Places> = None;
    let mut at = from;
    for child in parts {
        let part = nodes.placed(*child, at);
        at = part.places.to;
        if part.places.is_empty() {
            continue;
        }
        let found = name_in(alloc, nodes, rule, part)?;
        if found.is_none() && name.is_some() {
            return Ok(name);
        }
        name = joined(name, found);
    }
    Ok(name)
}

/// From the start of the first places up to the end of the others.
fn joined(first: Option<Places>, other: Option<Places>) -> Option<Places> {
    match (first, other) {
        (Some(first), Some(other)) => Some(Places {
            from: first.from,
            to: other.to,
        }),
        (_, other) => other,
    }
}

/// The places of the name in a part of a node, if it stands there.
fn name_in(
    alloc: Global,
    nodes: Nodes<'_>,
    rule: &SymbolRule,
    part: Placed,
) -> Result<Option<Places>, AllocError> {
    let symbol = nodes.symbol(part.child);
    for name in &rule.name {
        match *name {
            NamePart::Whole(whole) => {
                if symbol == Some(whole) {
                    return Ok(Some(part.places));
                }
            }
            NamePart::Within { part: outer, name } => {
                if symbol == Some(outer) {
                    return first_of(alloc, nodes, name, part);
                }
            }
        }
    }
    Ok(None)
}

/// The places of the first tree of this symbol in a tree, itself included, that has tokens.
fn first_of(
    alloc: Global,
    nodes: Nodes<'_>,
    symbol: Symbol,
    tree: Placed,
) -> Result<Option<Places>, AllocError> {
    let mut walk = Walk::over(alloc, nodes, tree)?;
    for _ in 0..nodes.trees(tree.child) {
        let Some(next) = walk.next()? else {
            return Ok(None);
        };
        if nodes.symbol(next.child) == Some(symbol) {
            return Ok(Some(next.places));
        }
    }
    Ok(None)
}

/// The name in these characters: each run of blanks is one space, quotes around it are left out,
/// and where nothing is left it is `?`.
pub(crate) fn name_of(alloc: Global, characters: &[char]) -> Result<String, AllocError> {
    let words = words_in(alloc, characters)?;
    match unquoted(&words) {
        "" => String::from_str(alloc, "?"),
        name if name.len() == words.len() => Ok(words),
        name => String::from_str(alloc, name),
    }
}

/// The words in these characters, with a space between each two.
fn words_in(alloc: Global, characters: &[char]) -> Result<String, AllocError> {
    let mut words = String::new(alloc);
    let mut is_apart = false;
    for character in characters {
        if character.is_whitespace() {
            is_apart = !words.is_empty();
            continue;
        }
        if is_apart {
            words.push(' ')?;
            is_apart = false;
        }
        words.push(*character)?;
    }
    Ok(words)
}

/// What stands between the quotes around a text, where there are some and something does.
fn unquoted(text: &str) -> &str {
    match between(text, '"') {
        "" => match between(text, '\'') {
            "" => text,
            inner => inner,
        },
        inner => inner,
    }
}

/// What stands between two of these quotes; nothing where they aren't there.
fn between(text: &str, quote: char) -> &str {
    match text.strip_prefix(quote) {
        Some(rest) => rest.strip_suffix(quote).unwrap_or(""),
        None => "",
    }
}
