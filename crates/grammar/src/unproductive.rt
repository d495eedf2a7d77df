//! The first nonterminal that no text is derived from.

ghost use Rattle.std.specs.Prelude.{◌≡◌, ◌<◌, ℕ, Some, true, false, length, slice_get, slice_index_or, IfErr, OnOk, MatchOption};
ghost use Rattle.std.specs.List.{list_any};
ghost use Rattle.grammar_line.specs.Words.{Word};
ghost use Rattle.grammar_file.specs.Contents.{nonterminals};
ghost use Rattle.grammar_file.specs.Faults.{Unproductive};
ghost use Rattle.grammar.specs.Faults.{is_production_of, IsFirstProduction};
ghost use Rattle.grammar.specs.Marks.{AreBelow, IsFirstUnmarked, AllProductiveIn, IsUnproductiveIn};
ghost use Rattle.grammar_line.specs.Kept.{line_view, texts};
ghost use Rattle.grammar_file.specs.Kept.{lines_view};
ghost use Rattle.grammar_file.specs.Causes.{Reports};

use crate::productive::productive;
use grammar_file::{GrammarCause, GrammarFault, Line, Numbered};
use productions::Production;
use std::alloc::Global;

/// Tests that all nonterminals are productive.
pub fn test_productive(
    alloc: Global,
    names: &[&str],
    statements: &[Numbered<'_>],
    productions: &[Production],
) -> Result<(), GrammarFault>
    requires below { AreBelow productions.now (length names.now) }
    requires names { texts names.now ≡ nonterminals (lines_view statements.now) }
    ensures fine { OnOk result (AllProductiveIn productions.now (length names.now)) }
    ensures fault { IfErr result (λ f.
        Reports f (λ line c.
        (n : ℕ) ×
        ((w : Word) × (slice_get (texts names.now) n ≡ Some w) × (c ≡ Unproductive w) ×
        IsUnproductiveIn productions.now n
        × IsFirstProduction (lines_view statements.now) w line))) }
{
    let marks = productive(alloc, names.len(), productions)?;
    match first_unmarked(&marks) {
        None => Ok(()),
        Some(nonterminal) => {
            let name = names[nonterminal];
            let line = first_line_of(name, statements);
            let name = String::from_str(alloc, name)?;
            Err(GrammarFault {
                line,
                cause: GrammarCause::Unproductive(name),
            })
        }
    }
}

/// The number of the first mark that isn't set.
fn first_unmarked(marks: &[bool]) -> Option<usize>
    ensures { MatchOption result
        ((n : ℕ) → n < length marks.now → slice_index_or marks.now n false ≡ true)
        (IsFirstUnmarked marks.now) }
{
    for (index, mark) in marks.iter().enumerate() {
        if !*mark {
            return Some(index);
        }
    }
    None
}

/// The number of the first production of a nonterminal, which has one.
fn first_line_of(name: &str, statements: &[Numbered<'_>]) -> usize
    requires { list_any (λ s. is_production_of name.now s.says) (lines_view statements.now) ≡ true }
    ensures { IsFirstProduction (lines_view statements.now) name.now result }
{
    for statement in statements {
        if is_production_of(name, &statement.line) {
            return statement.number;
        }
    }
    unreachable!()
}

/// Whether the line is a production of the nonterminal.
fn is_production_of(name: &str, line: &Line<'_>) -> bool
    ensures { result ≡ is_production_of name.now (line_view line.now) }
{
    match line {
        Line::Production { left, .. } => *left == name,
        _ => false,
    }
}
