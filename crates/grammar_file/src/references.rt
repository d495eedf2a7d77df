//! The names that the lines use.

ghost use Rattle.std.specs.Prelude.{IfErr, OnOk, List, map, not};
ghost use Rattle.grammar_file.specs.Contents.{nonterminals, is_among};
ghost use Rattle.grammar_file.specs.Faults;
ghost use Rattle.grammar_file.specs.Faults.{cause_if, symbol_fault, right_fault, reference_fault, HaveReferents, IsFirstReferenceFault};
ghost use Rattle.grammar_line.specs.Statements.{Statement};
ghost use Rattle.grammar_line.specs.Words.{plain};
ghost use Rattle.grammar_line.specs.Kept.{line_view, texts};
ghost use Rattle.grammar_file.specs.Kept.{lines_view, AreNames};
ghost use Rattle.grammar_file.specs.Causes.{Reports, Tells};

use crate::fault::{GrammarCause, GrammarFault};
use crate::names::Names;
use crate::statements::Numbered;
use grammar_line::{Line, plain};
use std::alloc::Global;

/// Tests the names that the lines use, from the first line on.
pub fn test_references(
    alloc: Global,
    names: &Names<'_>,
    statements: &[Numbered<'_>],
) -> Result<(), GrammarFault>
    requires { AreNames names.now (lines_view statements.now) }
    ensures fine { OnOk result
        (HaveReferents (lines_view statements.now) (lines_view statements.now)) }
    ensures fault { IfErr result (λ f.
        Reports f (IsFirstReferenceFault (lines_view statements.now))) }
{
    for statement in statements {
        if let Err(cause) = test_line(alloc, names, &statement.line) {
            return Err(GrammarFault {
                line: statement.number,
                cause,
            });
        }
    }
    Ok(())
}

/// Tests the names that a line uses.
fn test_line(alloc: Global, names: &Names<'_>, line: &Line<'_>) -> Result<(), GrammarCause>
    ensures { (ss : List Statement) → AreNames names.now ss →
        Tells result (reference_fault ss (line_view line.now)) }
{
    match line {
        Line::Production { right, .. } => test_right(alloc, names, right),
        Line::Start(name) | Line::Fold(name) => test_nonterminal(alloc, names, name),
        Line::Nothing | Line::Rule { .. } | Line::Bad => Ok(()),
    }
}

fn test_nonterminal(alloc: Global, names: &Names<'_>, name: &str) -> Result<(), GrammarCause>
    ensures { (ss : List Statement) → AreNames names.now ss →
        Tells result
        (cause_if (not (is_among name.now (nonterminals ss))) (Faults.NotANonterminal name.now)) }
{
    if names.nonterminals.contains(name) {
        return Ok(());
    }
    Err(GrammarCause::NotANonterminal(String::from_str(alloc, name)?))
}

/// Tests the names of a right side, from the left.
fn test_right(alloc: Global, names: &Names<'_>, right: &[&str]) -> Result<(), GrammarCause>
    ensures { (ss : List Statement) → AreNames names.now ss →
        Tells result (right_fault ss (map plain (texts right.now))) }
{
    for word in right {
        test_symbol(alloc, names, plain(word))?;
    }
    Ok(())
}

/// Tests that the name may stand on a right side.
fn test_symbol(alloc: Global, names: &Names<'_>, name: &str) -> Result<(), GrammarCause>
    ensures { (ss : List Statement) → AreNames names.now ss →
        Tells result (symbol_fault ss name.now) }
{
    let meaning = names.meanings.of(name);
    if meaning.nonterminal.is_some() {
        Ok(())
    } else if meaning.skip {
        let name = String::from_str(alloc, name)?;
        Err(GrammarCause::SkipInProduction(name))
    } else if meaning.rule.is_some() {
        Ok(())
    } else {
        let name = String::from_str(alloc, name)?;
        Err(GrammarCause::Undefined(name))
    }
}
