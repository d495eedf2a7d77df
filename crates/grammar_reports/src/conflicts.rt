//! The words of a conflict, and the lines of its productions.

use grammar::{Grammar, Kind, Symbol};
use std::alloc::{AllocError, Global};
use tables::{Conflict, Item};

/// The name of a symbol, empty where the grammar has no such symbol.
fn name_of(grammar: &Grammar, symbol: Symbol) -> &str {
    match symbol {
        Symbol::Rule(rule) => grammar.kind_name(Kind::Rule(rule)),
        Symbol::Nonterminal(n) if n < grammar.nonterminals() => grammar.nonterminal_name(n),
        Symbol::Nonterminal(_) => "",
    }
}

/// The name of a lookahead: a token rule's, or `end`.
pub fn look_name(grammar: &Grammar, look: Option<usize>) -> &str {
    match look {
        Some(rule) => name_of(grammar, Symbol::Rule(rule)),
        None => "end",
    }
}

/// The names of symbols, in order.
pub fn name_list(
    alloc: Global,
    grammar: &Grammar,
    symbols: &[Symbol],
) -> Result<Vec<String>, AllocError> {
    let mut list = Vec::with_capacity(alloc, symbols.len())?;
    for symbol in symbols {
        list.push(String::from_str(alloc, name_of(grammar, *symbol))?)?;
    }
    Ok(list)
}

/// The names of symbols, a blank before each.
fn names(alloc: Global, grammar: &Grammar, symbols: &[Symbol]) -> Result<String, AllocError> {
    let mut text = String::new(alloc);
    for symbol in symbols {
        text.push_str(" ")?;
        text.push_str(name_of(grammar, *symbol))?;
    }
    Ok(text)
}

/// The production of an item: the name on its left side, and the symbols on its right side. The
/// added start production has the start on its right side.
#[derive(Clone, Copy)]
pub struct Sides<'g> {
    pub left: &'g str,
    pub right: &'g [Symbol],
}

/// The sides of the production of an item; of the added one with this right side.
pub fn sides_of<'g>(grammar: &'g Grammar, item: Item, start: &'g [Symbol]) -> Sides<'g> {
    match item.production {
        Some(p) if p < grammar.productions() => Sides {
            left: name_of(grammar, Symbol::Nonterminal(grammar.left(p))),
            right: grammar.right(p),
        },
        _ => Sides {
            left: "(start)",
            right: start,
        },
    }
}

/// An item as it is written: its production with a dot.
pub fn dotted(
    alloc: Global,
    grammar: &Grammar,
    sides: &Sides<'_>,
    at: usize,
) -> Result<String, AllocError> {
    let right = sides.right;
    let at = at.min(right.len());
    let before = names(alloc, grammar, right.get(..at).unwrap_or(&[]))?;
    let after = names(alloc, grammar, right.get(at..).unwrap_or(&[]))?;
    let left = sides.left;
    format!(in alloc; "{left} ={before} .{after}")
}

/// What an item calls for.
#[derive(Clone, Copy, Debug, PartialEq, Eq)]
pub enum Move {
    /// The token after its dot is shifted.
    Shift,
    /// Its dot is at the end, and its production is reduced.
    Reduce,
}

impl Move {
    /// Its word.
    pub fn word(self) -> &'static str {
        match self {
            Move::Shift => "shift",
            Move::Reduce => "reduce",
        }
    }
}

/// What an item of this production calls for, with its dot here.
pub fn move_of(sides: &Sides<'_>, at: usize) -> Move {
    if at >= sides.right.len() {
        Move::Reduce
    } else {
        Move::Shift
    }
}

/// After what the two items call for different moves.
pub fn where_met(
    alloc: Global,
    grammar: &Grammar,
    conflict: &Conflict,
) -> Result<String, AllocError> {
    if conflict.prefix.is_empty() {
        return String::from_str(alloc, "at the beginning of a text");
    }
    let prefix = names(alloc, grammar, &conflict.prefix)?;
    format!(in alloc; "after{prefix}")
}

/// Whether a line of a grammar file writes this production: its words are the name, `=`, and the
/// names of the symbols.
fn writes(grammar: &Grammar, line: &str, sides: &Sides<'_>) -> bool {
    let mut words = line.split_whitespace();
    if words.next() != Some(sides.left) || words.next() != Some("=") {
        return false;
    }
    for symbol in sides.right {
        if words.next() != Some(name_of(grammar, *symbol)) {
            return false;
        }
    }
    words.next().is_none()
}

/// Whether a line uses this name on a right side, or names the start where the name is that of the
/// added production.
fn uses(line: &str, name: &str) -> bool {
    let mut words = line.split_whitespace();
    if name == "(start)" {
        return words.next() == Some("start");
    }
    words.skip(2).any(|word| word == name)
}

/// The line of a text that writes this production; of the production of a marked name, and of the
/// added one, the first line that uses it.
pub fn line_of_production(text: &str, grammar: &Grammar, sides: &Sides<'_>) -> usize {
    let found = text.lines().position(|line| writes(grammar, line, sides));
    found
        .or_else(|| text.lines().position(|line| uses(line, sides.left)))
        .unwrap_or(0)
}
