//! A worked grammar, and the settings that are guessed for it.

use definitions::Symbol;
use grammar::Grammar;
use settings::{NamePart, Settings, SymbolRule, TOKEN_TYPES, guess};
use std::alloc::Global;
use std::process::Abort;

/// A small language of statements.
pub const NOTES: &str = r##"lrgrammar 2
token LET = "let"
token IF = [iI] [fF]
token FN = "fn"
token EQUAL = "="
token PLUS = "+"
token MINUS = "-"
token SEMI = ";"
token COLON = ":"
token NAME = [a-z]+
token NUM = [0-9]+
token STR = "\"" [^"]* "\""
skip BLANK = [ \t\n]+
skip NOTE = "//" [^\n]*
skip HASH = "#" [^\n]*
start Program
Program = Item*
Item = LET NAME EQUAL Value SEMI
Item = FN Label SEMI
Item = IF Value SEMI
Item = Entry SEMI
Entry = Label COLON Value
Label = NAME
Label = STR NUM?
Value = NUM
Value = Value PLUS NUM
Value = Value MINUS NUM
"##;

/// The grammar of `NOTES`.
pub fn notes(rt: &impl Abort, alloc: Global) -> Grammar {
    Grammar::read(alloc, NOTES).expect(rt, "a grammar")
}

/// The name of the type of each rule's tokens; empty where they have no colour.
const COLOURS: [&str; 14] = [
    "keyword", "keyword", "keyword", "operator", "operator", "operator", "", "", "variable",
    "number", "string", "", "comment", "comment",
];

fn check_colours(rt: &impl Abort, settings: &Settings) {
    assert!(rt; settings.colours.len() == COLOURS.len());
    for (colour, wanted) in settings.colours.iter().zip(&COLOURS) {
        let name = match colour {
            Some(number) => TOKEN_TYPES.get(*number as usize).copied().unwrap_or("?"),
            None => "",
        };
        assert!(rt; name == *wanted, "{name} for {wanted}");
    }
}

/// The rules of symbols: node, rule of the token, symbol of the name, and kind.
const SYMBOLS: [(usize, usize, Symbol, u32); 3] = [
    (1, 0, Symbol::Rule(8), 13),
    (1, 2, Symbol::Nonterminal(3), 12),
    (2, 7, Symbol::Nonterminal(3), 7),
];

fn check_symbol(rt: &impl Abort, symbol: &SymbolRule, wanted: (usize, usize, Symbol, u32)) {
    let (node, with, name, kind) = wanted;
    assert!(rt; symbol.node == node && symbol.with == Some(with) && symbol.kind == kind);
    assert!(rt; symbol.name.as_slice() == [NamePart::Whole(name)].as_slice());
}

#[test]
fn settings_are_guessed(rt: HostRuntime) {
    let grammar = notes(&rt, rt.alloc());
    let settings = guess(rt.alloc(), &grammar).expect(&rt, "memory");
    check_colours(&rt, &settings);
    assert!(rt;
        settings
            .comment
            .as_ref()
            .is_some_and(|text| text.as_str() == "#")
    );
    assert!(rt; settings.words.len() == 14 && settings.words.iter().all(|word| word.is_none()));
    assert!(rt; settings.texts.len() == 14 && settings.texts.iter().all(|text| text.is_none()));
    assert!(rt; settings.symbols.len() == 3);
    for (symbol, wanted) in settings.symbols.iter().zip(&SYMBOLS) {
        check_symbol(&rt, symbol, *wanted);
    }
}
