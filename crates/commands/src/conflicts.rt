//! What is printed of a grammar with a conflict.

ghost use Rattle.std.specs.Prelude.{◌≡◌, ◌<◌, ◌≤◌, IfOk, IfSome, length, string_bytes};
ghost use Rattle.tables.specs.Reports.{IsReport};
ghost use Rattle.tables.specs.Sets.{side};
ghost use Rattle.commands.specs.Conflicts.{conflict_text, item_line, line, look_name, name_bytes, names_with_spaces};

use definitions::{Kind, Symbol};
use grammar::Grammar;
use std::alloc::{AllocError, Global};
use tables::{Conflict, Item};

/// The name of a symbol, empty if the grammar has no such symbol.
fn name_of(grammar: &Grammar, symbol: Symbol) -> &str
    ensures { result.now ≡ name_bytes grammar.now symbol }
{
    match symbol {
        Symbol::Rule(rule) => grammar.kind_name(Kind::Rule(rule)),
        Symbol::Nonterminal(n) if n < grammar.nonterminals() => grammar.nonterminal_name(n),
        Symbol::Nonterminal(_) => "",
    }
}

/// The name of a lookahead: a token rule's, or `end`.
fn look_name(grammar: &Grammar, look: Option<usize>) -> &str
    ensures { result.now ≡ look_name grammar.now look }
{
    match look {
        Some(rule) => name_of(grammar, Symbol::Rule(rule)),
        None => "end",
    }
}

/// The names of symbols, a space before each.
fn names_with_spaces(
    alloc: Global,
    grammar: &Grammar,
    symbols: &[Symbol],
) -> Result<String, AllocError>
    ensures { IfOk result (λ text. string_bytes text ≡ names_with_spaces grammar.now symbols.now) }
{
    let mut text = String::new(alloc);
    for symbol in symbols {
        text.push_str(" ")?;
        text.push_str(name_of(grammar, *symbol))?;
    }
    Ok(text)
}

/// The line of an item with this left side and this right side.
fn line(
    alloc: Global,
    grammar: &Grammar,
    left: &str,
    right: &[Symbol],
    item: Item,
) -> Result<String, AllocError>
    requires { item.at ≤ length right.now }
    ensures { IfOk result (λ text. string_bytes text ≡ line grammar.now left.now right.now item) }
{
    let before = names_with_spaces(alloc, grammar, &right[..item.at])?;
    let after = names_with_spaces(alloc, grammar, &right[item.at..])?;
    let look = look_name(grammar, item.look);
    format!(in alloc; "item: {left} ={before} .{after}, {look}\n")
}

/// The line of an item.
fn item_line(alloc: Global, grammar: &Grammar, item: Item) -> Result<String, AllocError>
    requires production { let productions = grammar.now.grammar.productions in
        IfSome item.production (λ p. p < length productions) }
    requires dot { item.at ≤ length (side grammar.now.grammar item.production) }
    ensures { IfOk result (λ line. string_bytes line ≡ item_line grammar.now item) }
{
    match item.production {
        Some(p) => {
            let left = name_of(grammar, Symbol::Nonterminal(grammar.left(p)));
            line(alloc, grammar, left, grammar.right(p), item)
        }
        None => {
            let right = [Symbol::Nonterminal(grammar.start())];
            line(alloc, grammar, "(start)", &right, item)
        }
    }
}

/// The four lines that report a conflict: the lookahead, the symbols after which the two items
/// call for different moves, and the items. Refuses for memory alone.
pub fn conflict_text(
    alloc: Global,
    grammar: &Grammar,
    conflict: &Conflict,
) -> Result<String, AllocError>
    requires { IsReport grammar.now.grammar conflict.now }
    ensures { IfOk result (λ text. string_bytes text ≡ conflict_text grammar.now conflict.now) }
{
    let look = look_name(grammar, conflict.look);
    let prefix = names_with_spaces(alloc, grammar, &conflict.prefix)?;
    let first = item_line(alloc, grammar, conflict.first)?;
    let second = item_line(alloc, grammar, conflict.second)?;
    format!(in alloc; "lrls: conflict on {look}\nafter:{prefix}\n{first}{second}")
}
