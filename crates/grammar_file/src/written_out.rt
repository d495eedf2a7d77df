//! What marked words mean: each is a nonterminal with two productions.

ghost use Rattle.std.specs.Prelude.{◌≡◌, ◌+◌, ◌≤◌, ◌<◌, ◌^◌, ◌++◌, ◌∷◌, [], OnOk};
ghost use Rattle.grammar_line.specs.Statements.{at};
ghost use Rattle.grammar_line.specs.Statements;
ghost use Rattle.grammar_file.specs.Faults.{production_count};
ghost use Rattle.grammar_file.specs.WrittenOut.{added, written_out};
ghost use Rattle.grammar_line.specs.Kept.{texts};
ghost use Rattle.grammar_file.specs.Kept.{lines_view, AreNames};

use crate::names::Names;
use crate::statements::{Numbered, add_line};
use grammar_line::{Line, Mark, RightWord};
use std::alloc::{AllocError, Global};

/// Adds the productions of the marked words after the lines, in the order in which the words first
/// stand.
pub fn write_out<'a>(
    alloc: Global,
    statements: &mut Vec<Numbered<'a>>,
    names: &mut Names<'a>,
) -> Result<(), AllocError>
    requires names { AreNames names.old (lines_view statements.old.items) }
    requires few { production_count (lines_view statements.old.items) ≤ 1024 }
    ensures statements { OnOk result (lines_view statements.new.items
        ≡ written_out (lines_view statements.old.items)) }
    ensures names { OnOk result (AreNames names.new (lines_view statements.new.items)) }
{
    let words = names.marked.as_slice().to_vec(alloc)?;
    for word in &words {
        add_productions(alloc, statements, names, word)?;
    }
    Ok(())
}

/// Adds the productions of a marked word.
fn add_productions<'a>(
    alloc: Global,
    statements: &mut Vec<Numbered<'a>>,
    names: &mut Names<'a>,
    word: &'a str,
) -> Result<(), AllocError>
    requires names { AreNames names.old (lines_view statements.old.items) }
    requires few { names.old.productions < 2 ^ 31 }
    ensures statements { OnOk result (lines_view statements.new.items
        ≡ lines_view statements.old.items ++ added word.now) }
    ensures names { OnOk result (AreNames names.new (lines_view statements.new.items)) }
    ensures few { OnOk result (names.new.productions ≤ names.old.productions + 2) }
{
    let RightWord { name, mark } = RightWord::read(word);
    match mark {
        Mark::Once => Ok(()),
        Mark::Any => add_two(alloc, statements, names, word, &[], &[word, name]),
        Mark::AtLeastOnce => add_two(alloc, statements, names, word, &[name], &[word, name]),
        Mark::AtMostOnce => add_two(alloc, statements, names, word, &[], &[name]),
    }
}

/// Adds two productions of one nonterminal.
fn add_two<'a>(
    alloc: Global,
    statements: &mut Vec<Numbered<'a>>,
    names: &mut Names<'a>,
    left: &'a str,
    first: &[&'a str],
    second: &[&'a str],
) -> Result<(), AllocError>
    requires names { AreNames names.old (lines_view statements.old.items) }
    requires few { names.old.productions < 2 ^ 31 }
    ensures statements { OnOk result (lines_view statements.new.items
        ≡ lines_view statements.old.items
        ++ at 0 (Statements.Production left.now (texts first.now))
        ∷ at 0 (Statements.Production left.now (texts second.now)) ∷ []) }
    ensures names { OnOk result (AreNames names.new (lines_view statements.new.items)) }
    ensures few { OnOk result (names.new.productions ≡ names.old.productions + 2) }
{
    add_production(alloc, statements, names, left, first)?;
    add_production(alloc, statements, names, left, second)
}

/// Adds a production that stands on no line.
fn add_production<'a>(
    alloc: Global,
    statements: &mut Vec<Numbered<'a>>,
    names: &mut Names<'a>,
    left: &'a str,
    right: &[&'a str],
) -> Result<(), AllocError>
    requires names { AreNames names.old (lines_view statements.old.items) }
    requires few { names.old.productions < 2 ^ 32 }
    ensures statements { OnOk result (lines_view statements.new.items
        ≡ lines_view statements.old.items
        ++ at 0 (Statements.Production left.now (texts right.now)) ∷ []) }
    ensures names { OnOk result (AreNames names.new (lines_view statements.new.items)) }
    ensures few { OnOk result (names.new.productions ≡ names.old.productions + 1) }
{
    let line = Line::Production {
        left,
        right: right.to_vec(alloc)?,
    };
    names.note(alloc, &line)?;
    add_line(statements, 0, line)
}
