//! Examples of grammar files.

use definitions::Kind;
use grammar::Grammar;
use grammar_file::read_file;
use grammar_line::{Line, Version, read_line};
use std::alloc::Global;
use worked::SUMS;

/// The example of `grammar_line`.
pub fn use_grammar_line(rt: &HostRuntime, alloc: Global) -> Option<()> {
    let line = read_line(alloc, Version::One, "token NUM = [0-9]+").ok()?;
    let Line::Rule { name, pattern, .. } = line else {
        return None;
    };
    println!(rt; "{name} is {pattern}").ok()
    // NUM is [0-9]+
}

/// The example of `grammar_file`.
pub fn use_grammar_file(rt: &HostRuntime, alloc: Global) -> Option<()> {
    let file = read_file(alloc, SUMS).ok()?;
    let lines = file.statements.len();
    let atom = file.names.nonterminals.number("Atom");
    println!(rt; "{lines} statements; Atom is {atom}").ok()
    // 11 statements; Atom is 1
}

/// The example of `grammar`.
pub fn use_grammar(rt: &HostRuntime, alloc: Global) -> Option<()> {
    let grammar = Grammar::read(alloc, SUMS).ok()?;
    let name = grammar.kind_name(Kind::Rule(1));
    println!(rt; "rule 1 is {name}").ok()
    // rule 1 is PLUS
}
