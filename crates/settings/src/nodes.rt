//! Which nodes are probably symbols, guessed from the productions.

ghost use Rattle.std.specs.Prelude.{◌≡◌, ◌<◌, IfOk, IfSome, IsTrue, All, length};
ghost use Rattle.grammar.specs.Grammars.{IsKnown};
ghost use Rattle.settings.specs.Guesses.{IsNaming, IsNamed};
ghost use Rattle.settings.specs.Settings.{IsKind, IsSymbolRule};

use crate::expressions::RuleText;
use crate::kinds::{STRING, VARIABLE, symbol_kind};
use crate::settings::{NamePart, SymbolRule};
use definitions::Symbol;
use grammar::Grammar;
use std::alloc::{AllocError, Global};

/// The words before a name that say of which kind is what they name, by the name of the kind.
const NAMING: [(&str, &str); 9] = [
    (
        "Function",
        "fn func fun function def sub proc procedure macro",
    ),
    ("Class", "class trait impl"),
    ("Struct", "struct record union"),
    ("Interface", "interface protocol"),
    ("Enum", "enum"),
    ("Module", "module mod package namespace section schema"),
    ("Variable", "let var local val"),
    ("Constant", "const define"),
    (
        "Object",
        "type typedef table view index graph digraph subgraph fragment",
    ),
];

/// A symbol whose name stands in one part.
#[derive(Clone, Copy, PartialEq, Eq)]
struct Named {
    node: usize,
    with: usize,
    name: Symbol,
    kind: u32,
}

/// What the guesses of symbols rest on: a grammar, and for each of its rules its text and the
/// number of its type.
#[derive(Clone, Copy)]
struct Known<'a> {
    grammar: &'a Grammar,
    texts: &'a [Option<RuleText>],
    colours: &'a [Option<u32>],
    ghost texts_of_rules: { length texts.now ≡ length grammar.now.names },
    ghost colours_of_rules: { length colours.now ≡ length grammar.now.names },
}

/// Which nodes are probably symbols: those with a name after a keyword that names things, and
/// those that begin with a name and `:` or `=`.
///
/// Refuses for memory alone.
pub fn guess_symbols(
    alloc: Global,
    grammar: &Grammar,
    texts: &[Option<RuleText>],
    colours: &[Option<u32>],
) -> Result<Vec<SymbolRule>, AllocError>
    requires texts { length texts.now ≡ length grammar.now.names }
    requires colours { length colours.now ≡ length grammar.now.names }
    ensures { IfOk result (λ symbols. All (IsSymbolRule grammar.now) symbols.items) }
{
    let known = Known {
        grammar,
        texts,
        colours,
    };
    let found = symbols_named(alloc, known)?;
    let mut symbols = Vec::with_capacity(alloc, found.len())?;
    for symbol in &found {
        symbols.push(rule_of(alloc, grammar, *symbol)?)?;
    }
    Ok(symbols)
}

fn rule_of(alloc: Global, grammar: &Grammar, symbol: Named) -> Result<SymbolRule, AllocError>
    requires { IsNamed grammar.now symbol }
    ensures { IfOk result (IsSymbolRule grammar.now) }
{
    Ok(SymbolRule {
        node: symbol.node,
        with: Some(symbol.with),
        name: vec![in alloc; NamePart::Whole(symbol.name)]?,
        kind: symbol.kind,
    })
}

/// The symbols of the productions, each once.
fn symbols_named(alloc: Global, known: Known<'_>) -> Result<Vec<Named>, AllocError>
    ensures { IfOk result (λ found. All (IsNamed known.entry.grammar.now) found.items) }
{
    let mut found = Vec::new(alloc);
    for production in 0..known.grammar.productions() {
        let node = left_of(known.grammar, production);
        let right = known.grammar.right(production);
        if let Some(symbol) = symbol_of(known, node, right)
            && !found.contains(&symbol)
        {
            found.push(symbol)?;
        }
    }
    Ok(found)
}

/// The left side of a production.
fn left_of(grammar: &Grammar, production: usize) -> usize
    requires { production < length grammar.now.grammar.productions }
    ensures { result < length grammar.now.nonterminals }
{
    // The invariant of a grammar is what this call promises.
    let _start = grammar.start();
    grammar.left(production)
}

/// The symbol that nodes with these parts probably are.
fn symbol_of(known: Known<'_>, node: usize, right: &[Symbol]) -> Option<Named>
    requires { node < length known.grammar.now.nonterminals }
    ensures { IfSome result (IsNamed known.entry.grammar.now) }
{
    match after_keyword(known, node, right) {
        Some(symbol) => Some(symbol),
        None => before_sign(known, node, right),
    }
}

/// The symbol named after the first keyword that names things.
fn after_keyword(known: Known<'_>, node: usize, right: &[Symbol]) -> Option<Named>
    requires { node < length known.grammar.now.nonterminals }
    ensures { IfSome result (IsNamed known.entry.grammar.now) }
{
    let mut before = None;
    for symbol in right {
        if let Some((with, kind)) = before
            && is_name(known, *symbol)
        {
            return Some(Named {
                node,
                with,
                name: *symbol,
                kind,
            });
        }
        before = naming(known, *symbol);
    }
    None
}

/// The rule of a symbol and the kind of what it names, if it is a keyword that names things.
fn naming(known: Known<'_>, symbol: Symbol) -> Option<(usize, u32)>
    ensures { IfSome result (IsNaming known.entry.grammar.now) }
{
    let (rule, text) = rule_and_text(known, symbol)?;
    let kind = kind_named(text)?;
    Some((rule, kind))
}

/// The number of the kind that a word, in any case, gives to what it names.
fn kind_named(word: &str) -> Option<u32>
    ensures { IfSome result IsKind }
{
    for (kind, words) in &NAMING {
        if words.split(' ').any(|name| word.eq_ignore_ascii_case(name)) {
            return symbol_kind(kind);
        }
    }
    None
}

/// The symbol named before `:` or `=`, with something behind.
fn before_sign(known: Known<'_>, node: usize, right: &[Symbol]) -> Option<Named>
    requires { node < length known.grammar.now.nonterminals }
    ensures { IfSome result (IsNamed known.entry.grammar.now) }
{
    let kind = symbol_kind("Property")?;
    let [name, sign, _, ..] = right else {
        return None;
    };
    let (with, text) = rule_and_text(known, *sign)?;
    if matches!(text, ":" | "=") && is_name(known, *name) {
        Some(Named {
            node,
            with,
            name: *name,
            kind,
        })
    } else {
        None
    }
}

/// The rule of a symbol, and the text of its tokens, if they have only one.
fn rule_and_text(known: Known<'_>, symbol: Symbol) -> Option<(usize, &str)>
    ensures { IfSome result (λ r. r.0 < length known.entry.grammar.now.names) }
{
    let Symbol::Rule(rule) = symbol else {
        return None;
    };
    match known.texts.get(rule) {
        Some(Some(found)) => Some((rule, &found.text)),
        _ => None,
    }
}

/// Whether a symbol of a production is probably a name: a token, or a nonterminal without a mark
/// that can be one such token.
fn is_name(known: Known<'_>, symbol: Symbol) -> bool
    ensures { IsTrue result → IsKnown known.entry.grammar.now symbol }
{
    match symbol {
        Symbol::Rule(rule) => is_name_rule(known, rule),
        Symbol::Nonterminal(nonterminal) => {
            is_unmarked(known.grammar, nonterminal) && can_be_name(known, nonterminal)
        }
    }
}

/// Whether a rule's tokens are probably names: variables, or strings.
fn is_name_rule(known: Known<'_>, rule: usize) -> bool
    ensures { IsTrue result → rule < length known.entry.grammar.now.names }
{
    matches!(known.colours.get(rule), Some(Some(VARIABLE | STRING)))
}

/// Whether some production of the nonterminal is one token that is probably a name.
fn can_be_name(known: Known<'_>, nonterminal: usize) -> bool {
    for production in 0..known.grammar.productions() {
        if known.grammar.left(production) == nonterminal
            && let [Symbol::Rule(rule)] = known.grammar.right(production)
            && is_name_rule(known, *rule)
        {
            return true;
        }
    }
    false
}

/// Whether this is a nonterminal of the grammar, and no marked word.
fn is_unmarked(grammar: &Grammar, nonterminal: usize) -> bool
    ensures { IsTrue result → nonterminal < length grammar.now.nonterminals }
{
    nonterminal < grammar.nonterminals()
        && !matches!(
            grammar.nonterminal_name(nonterminal).as_bytes().last(),
            Some(b'*' | b'+' | b'?')
        )
}
