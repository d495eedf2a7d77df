//! What is wrong with a grammar file, and where.

use crate::causes::{cause_words, pattern_words};
use crate::conflicts::{
    Move, dotted, line_of_production, look_name, move_of, name_list, sides_of, where_met,
};
use crate::lines::{LinePart, line_of, part_from, pattern_start};
use crate::mistakes::mistake;
use docs::LoadFault;
use grammar::{Grammar, GrammarCause, GrammarFault, Symbol};
use std::alloc::{AllocError, Global};
use tables::{Conflict, Item};

/// One of the two items of a conflict: its production with a dot, and the lookahead.
#[derive(Debug, Drop)]
pub struct ReportedItem {
    /// The item as it is written.
    pub message: String,
    /// The line of its production.
    pub at: LinePart,
    pub calls_for: Move,
    /// The left side of its production.
    pub left: String,
    /// The right side.
    pub right: Vec<String>,
    /// How many symbols of the right side stand before the dot.
    pub dot: usize,
    pub look: String,
}

/// A conflict: two items that call for different moves on one lookahead.
#[derive(Debug, Drop)]
pub struct ReportedConflict {
    pub look: String,
    /// A viable prefix after which the lookahead comes.
    pub prefix: Vec<String>,
    pub first: ReportedItem,
    pub second: ReportedItem,
}

/// What is wrong with a grammar file.
#[derive(Debug, Drop)]
pub struct GrammarReport {
    pub message: String,
    pub at: LinePart,
    /// What to write instead, where the mistake is one that is known.
    pub hint: Option<&'static str>,
    pub conflict: Option<ReportedConflict>,
}

/// A report about the first line, for faults that no line shows.
fn whole(alloc: Global, message: &str, text: &str) -> Result<GrammarReport, AllocError> {
    Ok(GrammarReport {
        message: String::from_str(alloc, message)?,
        at: part_from(text, 0, 0),
        hint: None,
        conflict: None,
    })
}

/// What to write in the place of a pattern at fault, or of a line that is none, where it is a
/// mistake that is known.
fn hint_at(cause: &GrammarCause, text: &str, line: usize) -> Option<&'static str> {
    match cause {
        GrammarCause::BadPattern(fault) => Some(pattern_words(&fault.cause)),
        GrammarCause::BadLine => mistake(line_of(text, 0), line_of(text, line)),
        _ => None,
    }
}

/// The report of a line at fault.
fn of_line(alloc: Global, fault: &GrammarFault, text: &str) -> Result<GrammarReport, AllocError> {
    let line = fault.line.saturating_sub(1);
    let character = match &fault.cause {
        GrammarCause::BadPattern(pattern) => {
            pattern_start(text, line).saturating_add(pattern.at)
        }
        _ => 0,
    };
    let cause = &fault.cause;
    let hint = hint_at(cause, text, line);
    let words = hint.unwrap_or(cause_words(cause));
    Ok(GrammarReport {
        message: format!(in alloc; "{cause}: {words}")?,
        at: part_from(text, line, character),
        hint,
        conflict: None,
    })
}

/// The report of one of the items of a conflict.
fn of_item(
    alloc: Global,
    grammar: &Grammar,
    item: Item,
    text: &str,
) -> Result<ReportedItem, AllocError> {
    let start = [Symbol::Nonterminal(grammar.start())];
    let sides = sides_of(grammar, item, &start);
    let written = dotted(alloc, grammar, &sides, item.at)?;
    let look = look_name(grammar, item.look);
    Ok(ReportedItem {
        message: format!(in alloc; "item: {written}, {look}")?,
        at: part_from(text, line_of_production(text, grammar, &sides), 0),
        calls_for: move_of(&sides, item.at),
        left: String::from_str(alloc, sides.left)?,
        right: name_list(alloc, grammar, sides.right)?,
        dot: item.at,
        look: String::from_str(alloc, look)?,
    })
}

/// What an item calls for, with its production.
fn move_words(alloc: Global, grammar: &Grammar, item: Item) -> Result<String, AllocError> {
    let start = [Symbol::Nonterminal(grammar.start())];
    let sides = sides_of(grammar, item, &start);
    let written = dotted(alloc, grammar, &sides, item.at)?;
    let called = move_of(&sides, item.at).word();
    format!(in alloc; "{called} in {written}")
}

/// The report of a conflict, in the line of its first production.
fn of_conflict(
    alloc: Global,
    grammar: &Grammar,
    conflict: &Conflict,
    text: &str,
) -> Result<GrammarReport, AllocError> {
    let first = of_item(alloc, grammar, conflict.first, text)?;
    let second = of_item(alloc, grammar, conflict.second, text)?;
    let look = look_name(grammar, conflict.look);
    let place = where_met(alloc, grammar, conflict)?;
    let one = move_words(alloc, grammar, conflict.first)?;
    let other = move_words(alloc, grammar, conflict.second)?;
    let message = format!(in alloc;
        "conflict on {look} {place}: {one} or {other}; docs/GRAMMARS.md says how to mend it"
    )?;
    Ok(GrammarReport {
        message,
        at: first.at,
        hint: None,
        conflict: Some(ReportedConflict {
            look: String::from_str(alloc, look)?,
            prefix: name_list(alloc, grammar, &conflict.prefix)?,
            first,
            second,
        }),
    })
}

/// What is wrong with the grammar file of this text, and where, by the fault that
/// `docs::Language::load` has returned for it. Refuses for memory alone.
pub fn report(alloc: Global, fault: &LoadFault, text: &str) -> Result<GrammarReport, AllocError> {
    match fault {
        LoadFault::Grammar(fault) => of_line(alloc, fault, text),
        LoadFault::Conflict(grammar, conflict) => of_conflict(alloc, grammar, conflict, text),
        LoadFault::TooManyStates => whole(
            alloc,
            "the automaton of the token rules would have more than 4,096 states: fewer or shorter patterns are wanted",
            text,
        ),
        LoadFault::TooManySets => whole(
            alloc,
            "the tables would have more than 8,192 sets of items: fewer productions are wanted",
            text,
        ),
        LoadFault::Memory => Err(AllocError),
    }
}
