//! A grammar file, read.

ghost use Rattle.std.specs.Prelude.{◌≡◌, ◌<◌, List, length, map, IfOk, IfErr};
ghost use Rattle.std.specs.Str.{chars};
ghost use Rattle.definitions.specs.declared.Symbol.{Symbol};
ghost use Rattle.definitions.specs.declared.expression.Expression.{Expression};
ghost use Rattle.grammar_file.specs.Kept.{rule_line, lines_view, AreNames};
ghost use Rattle.grammar_file.specs.Causes.{Reports};
ghost use Rattle.grammar.specs.Contents.{grammar_of};
ghost use Rattle.grammar.specs.Faults.{IsFault};
ghost use Rattle.grammar.specs.Grammars.{FileGrammar, IsGrammar};
ghost use Rattle.grammar.specs.Meaning.{grammar_with, IsGrammarOf};
ghost use Rattle.grammar.specs.Notes.{AreNotes};
ghost use Rattle.grammar.specs.Parts.{AreParts, AreProductive, IsUnproductive};
ghost use Rattle.grammar.specs.Uses.{AreWithin};

use crate::grammar::{Grammar, Name};
use crate::notes::notes;
use crate::numbers;
use crate::unproductive::test_productive;
use crate::used::mark_used;
use definitions::Symbol;
use grammar_file::{File, GrammarFault, Names, Numbered, RuleName, read_file};
use patterns::Pattern;
use productions::Production;
use std::alloc::{AllocError, Global};

/// What a grammar has of the names of its file.
#[derive(Drop)]
struct Parts {
    /// The names of the rules, in file order.
    names: Vec<Name>,
    /// Whether each rule is a skip rule.
    skips: Vec<bool>,
    /// The names of the nonterminals, in file order.
    nonterminals: Vec<Name>,
    /// Whether each nonterminal folds.
    folds: Vec<bool>,
    /// The number of the start.
    start: usize,
}

/// The grammar of a file, or the first fault.
pub fn read(alloc: Global, text: &str) -> Result<Grammar, GrammarFault>
    ensures grammar { IfOk result (λ g. IsGrammarOf text.now g) }
    ensures fault { IfErr result (λ f. Reports f (IsFault text.now)) }
{
    let File {
        statements,
        names,
        patterns,
        defined,
    } = read_file(alloc, text)?;
    grammar_of(alloc, &statements, &names, patterns, defined)
}

/// The grammar of the lines and of these patterns, or the first unproductive nonterminal.
fn grammar_of(
    alloc: Global,
    statements: &[Numbered<'_>],
    names: &Names<'_>,
    patterns: Vec<Pattern>,
    defined: Vec<Symbol>,
) -> Result<Grammar, GrammarFault>
    requires names { AreNames names.now (lines_view statements.now) }
    requires grammar { AreProductive (lines_view statements.now) →
        IsGrammar (grammar_with (lines_view statements.now) patterns.items defined.items) }
    ensures productive { IfOk result (λ _. AreProductive (lines_view statements.now)) }
    ensures grammar { IfOk result (λ g.
        g ≡ grammar_with (lines_view statements.now) patterns.items defined.items) }
    ensures fault { IfErr result (λ f. Reports f (IsUnproductive (lines_view statements.now))) }
{
    let productions = productions_of(alloc, statements, names)?;
    let parts = parts_of(alloc, statements, names)?;
    let notes = notes_of(alloc, &parts, &productions, &defined)?;
    Ok(Grammar {
        names: parts.names,
        patterns,
        skips: parts.skips,
        nonterminals: parts.nonterminals,
        folds: parts.folds,
        start: parts.start,
        productions,
        defined,
        notes,
    })
}

/// The productions of the lines, or the first unproductive nonterminal.
fn productions_of(
    alloc: Global,
    statements: &[Numbered<'_>],
    names: &Names<'_>,
) -> Result<Vec<Production>, GrammarFault>
    requires { AreNames names.now (lines_view statements.now) }
    ensures productions { IfOk result (λ ps.
        ps.items ≡ (grammar_of (lines_view statements.now)).productions) }
    ensures productive { IfOk result (λ _. AreProductive (lines_view statements.now)) }
    ensures fault { IfErr result (λ f. Reports f (IsUnproductive (lines_view statements.now))) }
{
    let productions = numbers::productions(alloc, statements, names)?;
    test_productive(
        alloc,
        names.nonterminals.as_slice(),
        statements,
        &productions,
    )?;
    Ok(productions)
}

/// The parts that the lines and their names give.
fn parts_of(
    alloc: Global,
    statements: &[Numbered<'_>],
    names: &Names<'_>,
) -> Result<Parts, AllocError>
    requires { AreNames names.now (lines_view statements.now) }
    ensures { IfOk result (λ parts. (es : List Expression) (symbols : List Symbol) →
        AreParts parts (grammar_with (lines_view statements.now) es symbols)) }
{
    let rules = names.rules.as_slice();
    let rule_names = rule_names(alloc, rules)?;
    let skips = skips(alloc, rules)?;
    let nonterminals = numbers::copy_names(alloc, names.nonterminals.as_slice())?;
    let folds = numbers::folds(alloc, statements, names)?;
    let start = numbers::start(statements, names);
    Ok(Parts {
        names: rule_names,
        skips,
        nonterminals,
        folds,
        start,
    })
}

/// Those of the symbols that are neither skipped nor used.
fn notes_of(
    alloc: Global,
    parts: &Parts,
    productions: &[Production],
    symbols: &[Symbol],
) -> Result<Vec<Symbol>, AllocError>
    requires start { parts.now.start < length parts.now.nonterminals.items }
    requires within { AreWithin productions.now (length parts.now.nonterminals.items) }
    ensures { IfOk result (λ notes. (f : FileGrammar) → AreParts parts.now f →
        f.grammar.productions ≡ productions.now → AreNotes f symbols.now notes.items) }
{
    let marks = mark_used(alloc, parts.nonterminals.len(), parts.start, productions)?;
    notes(alloc, symbols, &parts.skips, productions, &marks)
}

fn skips(alloc: Global, rules: &[RuleName<'_>]) -> Result<Vec<bool>, AllocError>
    ensures { IfOk result (λ skips. skips.items ≡ map (λ r. r.skip) (map rule_line rules.now)) }
{
    let mut skips = Vec::with_capacity(alloc, rules.len())?;
    for rule in rules {
        skips.push(rule.skip)?;
    }
    Ok(skips)
}

/// The names of the rules, in file order.
fn rule_names(alloc: Global, rules: &[RuleName<'_>]) -> Result<Vec<Name>, AllocError>
    ensures { IfOk result (λ names.
        names.items ≡ map chars (map (λ r. r.name) (map rule_line rules.now))) }
{
    let mut names = Vec::with_capacity(alloc, rules.len())?;
    for rule in rules {
        names.push(Name {
            text: String::from_str(alloc, rule.name)?,
        })?;
    }
    Ok(names)
}
