//! What an editor is shown of a grammar file that defines no language. For whoever shows the file
//! in an editor.
//!
//! `report` says what is wrong, why, and where in the file's text: the line at fault, and of a
//! pattern from the character on where its fault is; of a conflict the productions of both items,
//! and what they call for. Of a line that is written as in another form of grammars it says what
//! to write in its place, and of a pattern what is wrong with it: the *hint*.
//!
//! Words: a *report* has a message and its place; the *items* of a conflict are those of
//! `tables::Conflict`, each with the line of its production.
//!
//! Limits: those of `docs`. Places count UTF-16 units, which grammar files have one of for each
//! character that their names and patterns may have without quotes. A call costs the text.
//!
//! ```
//! let text = "lrgrammar 1\ntoken A = [z-a]\nstart S\nS = A\n";
//! let fault = Language::load(alloc, text).err()?;
//! let report = report(alloc, &fault, text).ok()?;
//! println!(rt; "line {}: {}", report.at.line, report.message).ok()
//! // line 1: G6 bad pattern at 1: P3: the range is the wrong way round
//! ```
#![tactic(auto)]

mod causes;
mod conflicts;
mod lines;
mod mistakes;
mod reports;

pub use conflicts::Move;
pub use lines::LinePart;
pub use reports::{GrammarReport, ReportedConflict, ReportedItem, report};
