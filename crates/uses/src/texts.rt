//! Examples of texts and of their tokens.

use dfa::Automaton;
use grammar::Grammar;
use lexer::{Scanner, Tokens, Whole};
use std::alloc::Global;
use text::{Text, Unit};

/// The example of `dfa`.
pub fn use_dfa(rt: &HostRuntime, alloc: Global, grammar: &Grammar) -> Option<()> {
    let Ok(automaton) = Automaton::build(alloc, grammar.patterns()) else {
        return None;
    };
    let text = Text::open(alloc, "12+3").ok()?;
    let end = text.len();
    let found = automaton.longest(&Whole(&text), 0);
    println!(rt; "length {} of {end}, reach {}", found.length, found.reach).ok()
    // length 2 of 4, reach 3
}

/// The example of `text`.
pub fn use_text(rt: &HostRuntime, alloc: Global) -> Option<()> {
    let mut text = Text::open(alloc, "1+2").ok()?;
    let (from, to) = text.span(Unit::Utf16, None);
    text.replace(alloc, from, to, "1\n2").ok()?;
    let place = text.position(Unit::Utf16, 2);
    println!(rt; "offset 2 is on line {}", place.line).ok()?;
    // offset 2 is on line 1
    Some(())
}

/// The example of `lexer`.
pub fn use_lexer(rt: &HostRuntime, alloc: Global, scanner: &Scanner) -> Option<()> {
    let text = Text::open(alloc, "1 + 2").ok()?;
    let end = text.len();
    let (grammar, automaton) = (scanner.grammar(), scanner.automaton());
    let tokens = Tokens::scan(alloc, grammar, automaton, &Whole(&text)).ok()?;
    let (all, read) = (tokens.count(), tokens.significant());
    println!(rt; "{end} characters, {all} tokens, {read} significant").ok()
    // 5 characters, 5 tokens, 3 significant
}
