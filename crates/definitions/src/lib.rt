//! The plain data that code and definitions share: positions and ranges, kinds and symbols, edits
//! and splices, diagnostics, counts, and expressions of patterns. `specs/` defines what they mean,
//! and docs/DEFINITIONS.md says it in plain words.
//!
//! There is no call that computes. Other crates hand these types on, so you rarely name this one.
//! The functions of `laws` do nothing: their contracts are the laws of the definitions, to be
//! cited in proofs.
//!
//! Words: a *kind* is the rule of a token, or invalid; a *symbol* is a rule or a nonterminal, by
//! its number; a *unit* is what a position counts: bytes of UTF-8, units of UTF-16, or characters.
//!
//! Limits: lines and units have 32 bits. Nothing costs anything at run time.
//!
//! ```
//! let at = Position {
//!     line: 1,
//!     character: 4,
//! };
//! let place = Range { start: at, end: at };
//! println!(rt; "line {}", place.end.line).ok()?;
//! // line 1
//! ```
#![tactic(auto)]

pub mod expression;
pub mod laws;

pub use expression::{Expression, Interval, PatternCause, PatternFault};
use std::rc::Rc;

/// A place in a text: a line and a count of units in it (LSP 3.17, "Position").
#[derive(Clone, Copy, Debug, PartialEq, Eq)]
pub struct Position {
    pub line: u32,
    pub character: u32,
}

/// The part of a text from one place to another (LSP 3.17, "Range").
#[derive(Clone, Copy, Debug, PartialEq, Eq)]
pub struct Range {
    pub start: Position,
    pub end: Position,
}

/// What a position counts (LSP 3.17, "PositionEncodingKind").
#[derive(Clone, Copy, Debug, PartialEq, Eq)]
pub enum Unit {
    Utf8,
    Utf16,
    Utf32,
}

/// The kind of a token: the rule that it matches, by its number, or none.
#[derive(Clone, Copy, Debug, PartialEq, Eq)]
pub enum Kind {
    Rule(usize),
    Invalid,
}

/// The edit of this number: `inserted` characters in place of the `removed` ones from offset `at`
/// on.
#[derive(Clone, Copy, Debug, PartialEq, Eq)]
pub struct Edit {
    pub at: usize,
    pub removed: usize,
    pub inserted: usize,
    pub number: u64,
}

/// The places `from..to` of a list of kinds give way to `kinds`.
#[derive(Debug, PartialEq, Eq, Drop)]
pub struct KindSplice {
    pub from: usize,
    pub to: usize,
    pub kinds: Vec<Kind>,
}

/// A symbol of a right side: a token rule, or a nonterminal.
#[derive(Clone, Copy, Debug, PartialEq, Eq)]
pub enum Symbol {
    Rule(usize),
    Nonterminal(usize),
}

/// What is reported of the fault of a text: where it stands, and why (LSP 3.17, "Diagnostic").
#[derive(Debug, Drop)]
pub struct Diagnostic {
    pub range: Range,
    pub message: String,
}

/// A token's name, which the tokens of its rule share, and the token's range.
#[derive(Debug, Drop)]
pub struct Row {
    pub name: Rc<String>,
    pub range: Range,
}

/// How much there is of a document, and how much its last edit has made. Opening makes all there
/// is, as edit 0.
#[derive(Clone, Copy, Debug, PartialEq, Eq)]
pub struct Stats {
    /// The number of the last edit.
    pub edit: u64,
    /// How many tokens it has made.
    pub scanned: u64,
    /// How many tokens there are.
    pub tokens: u64,
    /// How many nodes the document's trees have.
    pub branches: u64,
    /// How many of them the last edit has made.
    pub built: u64,
    /// How many nodes are kept in memory.
    pub nodes: u64,
}
