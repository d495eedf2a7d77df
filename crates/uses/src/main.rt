//! The examples of the crates' pages: for each crate a function with the first calls that a caller
//! makes. What is printed stands in the comment after each print, and in the file `stdout`.
#![tactic(auto)]

mod answers;
mod grammars;
mod lists;
mod parses;
mod plain;
mod programs;
mod sets;
mod texts;

use docs::Language;
use grammar::Grammar;
use lexer::{Scanner, Tokens, Whole};
use std::alloc::Global;
use std::process::ExitCode;
use tables::Tables;
use text::Text;
use worked::SUMS;

/// The examples that take nothing from other examples.
fn of_values(rt: &HostRuntime, alloc: Global) -> Option<()> {
    plain::use_definitions(rt)?;
    plain::use_theory();
    plain::use_readings();
    plain::use_frames(rt, alloc)?;
    lists::use_seqtree(rt, alloc)?;
    lists::use_runs(rt, alloc)?;
    lists::use_patterns(rt, alloc)?;
    lists::use_pieces(rt, alloc)?;
    lists::use_trees(rt, alloc)?;
    texts::use_text(rt, alloc)?;
    answers::use_replies(rt, alloc)?;
    answers::use_rpc(rt, alloc)?;
    grammars::use_grammar_line(rt, alloc)?;
    grammars::use_grammar_file(rt, alloc)?;
    grammars::use_grammar(rt, alloc)
}

/// The examples of what tables are made of.
fn of_sets(rt: &HostRuntime, alloc: Global) -> Option<()> {
    sets::use_productions(rt, alloc)?;
    let augmented = sets::lists(alloc).ok()?;
    sets::use_item_sets(rt, alloc, &augmented)
}

/// The examples of a grammar file.
fn of_file(rt: &HostRuntime, alloc: Global) -> Option<()> {
    let grammar = Grammar::read(alloc, SUMS).ok()?;
    by_grammar(rt, alloc, &grammar)?;
    let scanner = Scanner::new(alloc, grammar).ok()?;
    by_scanner(rt, alloc, &scanner)
}

/// The examples that take a grammar, or what is built of one.
fn by_grammar(rt: &HostRuntime, alloc: Global, grammar: &Grammar) -> Option<()> {
    texts::use_dfa(rt, alloc, grammar)?;
    parses::use_tables(rt, alloc, grammar)?;
    with_tables(rt, alloc, grammar)
}

/// The example that takes tables.
fn with_tables(rt: &HostRuntime, alloc: Global, grammar: &Grammar) -> Option<()> {
    let tables = Tables::build(alloc, grammar).ok()?;
    parses::use_parser(rt, alloc, &tables)
}

/// The examples that take a scanner, or the tokens that it finds.
fn by_scanner(rt: &HostRuntime, alloc: Global, scanner: &Scanner) -> Option<()> {
    texts::use_lexer(rt, alloc, scanner)?;
    with_tokens(rt, alloc, scanner)
}

/// The example that takes a text and its tokens.
fn with_tokens(rt: &HostRuntime, alloc: Global, scanner: &Scanner) -> Option<()> {
    let text = Text::open(alloc, "12").ok()?;
    // The scan requires that the text is short, as each `Text` is.
    let _length = text.len();
    let (grammar, automaton) = (scanner.grammar(), scanner.automaton());
    let tokens = Tokens::scan(alloc, grammar, automaton, &Whole(&text)).ok()?;
    answers::use_views(rt, alloc, scanner.grammar(), &text, &tokens)
}

/// The examples of a language, and of a document of it.
fn of_document(rt: &HostRuntime, alloc: Global) -> Option<()> {
    let language = Language::load(alloc, SUMS).ok()?;
    answers::use_docs(rt, alloc, &language)
}

/// The examples that load a language.
fn of_language(rt: &HostRuntime, alloc: Global) -> Option<()> {
    of_document(rt, alloc)?;
    programs::use_sessions(rt)?;
    programs::use_server(rt, alloc)?;
    programs::use_commands(rt, alloc)?;
    programs::use_serving(rt, alloc)
}

fn main(rt: HostRuntime) -> ExitCode {
    let alloc = rt.alloc();
    if of_values(&rt, alloc).is_some()
        && of_sets(&rt, alloc).is_some()
        && of_file(&rt, alloc).is_some()
        && of_language(&rt, alloc).is_some()
    {
        ExitCode::SUCCESS
    } else {
        ExitCode::FAILURE
    }
}
