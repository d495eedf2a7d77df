//! The grammar of a file's lines, in numbers.

ghost use Rattle.std.specs.Prelude.{◌≡◌, ◌++◌, [], IfOk, OnOk, map, option_map};
ghost use Rattle.std.specs.Str.{chars};
ghost use Rattle.std.specs.List.{cons_option};
ghost use Rattle.grammar_file.specs.Contents.{number_of, as_production, productions, starts};
ghost use Rattle.grammar.specs.Contents.{symbol_of, production_of, first_of, folds_name, is_fold};
ghost use Rattle.grammar_line.specs.Kept.{line_view, texts};
ghost use Rattle.grammar_file.specs.Kept.{lines_view, HasMeanings};

use crate::grammar::Name;
use definitions::Symbol;
use grammar_file::{Line, Names, Numbered};
use productions::Production;
use std::alloc::{AllocError, Global};

fn symbols_of(alloc: Global, right: &[&str], names: &Names<'_>) -> Result<Vec<Symbol>, AllocError>
    requires { HasMeanings names.now }
    ensures { IfOk result (λ symbols.
        symbols.items
        ≡ map (symbol_of names.now.nonterminals (map (λ r. r.name) names.now.rules))
        (texts right.now)) }
{
    let mut symbols = Vec::with_capacity(alloc, right.len())?;
    for name in right {
        symbols.push(names.symbol(name))?;
    }
    Ok(symbols)
}

/// The production of a line.
fn production_of(
    alloc: Global,
    line: &Line<'_>,
    names: &Names<'_>,
) -> Result<Option<Production>, AllocError>
    requires { HasMeanings names.now }
    ensures { IfOk result (λ p.
        p
        ≡ option_map (production_of names.now.nonterminals (map (λ r. r.name) names.now.rules))
        (as_production (line_view line.now))) }
{
    match line {
        Line::Production { left, right } => Ok(Some(Production {
            left: names.nonterminals.number(left),
            right: symbols_of(alloc, right, names)?,
        })),
        _ => Ok(None),
    }
}

/// The productions, in file order.
pub fn productions(
    alloc: Global,
    statements: &[Numbered<'_>],
    names: &Names<'_>,
) -> Result<Vec<Production>, AllocError>
    requires { HasMeanings names.now }
    ensures { IfOk result (λ found.
        found.items
        ≡ map (production_of names.now.nonterminals (map (λ r. r.name) names.now.rules))
        (productions (lines_view statements.now))) }
{
    let mut found = Vec::new(alloc);
    for statement in statements {
        let production = production_of(alloc, &statement.line, names)?;
        push(&mut found, production)?;
    }
    Ok(found)
}

/// Adds the production, if there is one.
fn push(found: &mut Vec<Production>, production: Option<Production>) -> Result<(), AllocError>
    ensures { OnOk result (found.new.items ≡ found.old.items ++ cons_option production []) }
{
    match production {
        Some(production) => {
            found.push(production)?;
            Ok(())
        }
        None => Ok(()),
    }
}

/// The name after the first `start`; nothing where there is none.
fn first_start<'a>(statements: &[Numbered<'a>]) -> &'a str
    ensures { result.now ≡ first_of (starts (lines_view statements.now)) }
{
    for statement in statements {
        if let Line::Start(name) = &statement.line {
            return name;
        }
    }
    ""
}

/// The number of the start.
pub fn start(statements: &[Numbered<'_>], names: &Names<'_>) -> usize
    ensures { result
        ≡ number_of (first_of (starts (lines_view statements.now))) names.now.nonterminals }
{
    names.nonterminals.number(first_start(statements))
}

/// Whether each nonterminal folds.
pub fn folds(
    alloc: Global,
    statements: &[Numbered<'_>],
    names: &Names<'_>,
) -> Result<Vec<bool>, AllocError>
    ensures { IfOk result (λ folds.
        folds.items ≡ map (λ w. is_fold w (lines_view statements.now)) names.now.nonterminals) }
{
    let all = names.nonterminals.as_slice();
    let mut folds = Vec::with_capacity(alloc, all.len())?;
    for name in all {
        folds.push(is_fold(name, statements))?;
    }
    Ok(folds)
}

fn is_fold(name: &str, statements: &[Numbered<'_>]) -> bool
    ensures { result ≡ is_fold name.now (lines_view statements.now) }
{
    statements
        .iter()
        .any(|statement| folds_name(name, &statement.line))
}

/// Whether the line is `fold NAME`.
fn folds_name(name: &str, line: &Line<'_>) -> bool
    ensures { result ≡ folds_name name.now (line_view line.now) }
{
    match line {
        Line::Fold(other) => *other == name,
        _ => false,
    }
}

/// Copies of the names.
pub fn copy_names(alloc: Global, names: &[&str]) -> Result<Vec<Name>, AllocError>
    ensures { IfOk result (λ copies. copies.items ≡ map chars (texts names.now)) }
{
    let mut copies = Vec::with_capacity(alloc, names.len())?;
    for name in names {
        copies.push(Name {
            text: String::from_str(alloc, name)?,
        })?;
    }
    Ok(copies)
}
