//! Why a text is no grammar file.

ghost use Rattle.std.specs.Prelude.{◌≡◌, Some};
ghost use Rattle.grammar_file.specs.Texts.{cause_text, fault_text, limit_name, pattern_code};
ghost use Rattle.grammar_file.specs.declared.fault.GrammarCause.TheVariants.{Memory};

use definitions::{PatternCause, PatternFault};
use std::alloc::AllocError;
use std::fmt;
use thiserror::Error;

/// The first fault of a grammar file: the number of its line, the first one's being 1, and the
/// cause.
///
/// The line is 0 where the whole file is at fault: its size, or that it has no start. Beside
/// `Memory` it says nothing.
#[derive(Debug, PartialEq, Eq, Drop, Error)]
pub struct GrammarFault {
    pub line: usize,
    pub cause: GrammarCause,
}

/// What is wrong with a line of a grammar file. Names are the leftmost ones at fault, without
/// marks.
#[derive(Debug, PartialEq, Eq, Drop, Error)]
pub enum GrammarCause {
    /// The first line is neither `lrgrammar 1` nor `lrgrammar 2`.
    FirstLine,
    /// The line is none of those that there are.
    BadLine,
    /// A name defined by two rules, or by a rule and a production; or a production written twice.
    DefinedTwice(String),
    /// A name on a right side that is no rule's and no nonterminal's.
    Undefined(String),
    /// A reserved name that is defined or used.
    Reserved(String),
    /// The pattern of a rule is none.
    BadPattern(PatternFault),
    /// No line names the start.
    NoStart,
    /// A second line names the start.
    SecondStart,
    /// The name after `start` or `fold` is no nonterminal's.
    NotANonterminal(String),
    /// No text is derived from the nonterminal. The lines and names of a file don't show this.
    Unproductive(String),
    /// The name of a `skip` rule on a right side.
    SkipInProduction(String),
    /// There are too many of these.
    Limit(Limit),
    /// Memory was refused.
    Memory,
}

/// What a grammar file may have only so many of.
#[derive(Clone, Copy, Debug, PartialEq, Eq, Error)]
pub enum Limit {
    /// 65,536 bytes.
    File,
    /// 256 `token` and `skip` rules together.
    Tokens,
    /// 256 nonterminals.
    Nonterminals,
    /// 1,024 productions.
    Productions,
    /// 16 symbols on a right side.
    Symbols,
}

impl fmt::Display for GrammarFault {
    ghost output = { λ fault. Some (fault_text fault) };

    fn fmt<W: fmt::Write>(&self, f: &mut fmt::Formatter<W>) -> fmt::Result {
        write!(f, "line {}: {}", self.line, self.cause)
    }
}

impl fmt::Display for GrammarCause {
    ghost output = { λ cause. Some (cause_text cause) };

    fn fmt<W: fmt::Write>(&self, f: &mut fmt::Formatter<W>) -> fmt::Result {
        match self {
            GrammarCause::FirstLine => write!(f, "G1 first line"),
            GrammarCause::BadLine => write!(f, "G2 bad line"),
            GrammarCause::DefinedTwice(name) => write!(f, "G3 defined twice: {name}"),
            GrammarCause::Undefined(name) => write!(f, "G4 undefined: {name}"),
            GrammarCause::Reserved(name) => write!(f, "G5 reserved: {name}"),
            GrammarCause::BadPattern(fault) => {
                let code = pattern_code(fault.cause);
                write!(f, "G6 bad pattern at {}: {code}", fault.at)
            }
            GrammarCause::NoStart => write!(f, "G7 no start"),
            GrammarCause::SecondStart => write!(f, "G7 second start"),
            GrammarCause::NotANonterminal(name) => write!(f, "G8 not a nonterminal: {name}"),
            GrammarCause::Unproductive(name) => write!(f, "G9 unproductive: {name}"),
            GrammarCause::SkipInProduction(name) => {
                write!(f, "G10 skip token in a production: {name}")
            }
            GrammarCause::Limit(limit) => write!(f, "G11 limit passed: {limit}"),
            GrammarCause::Memory => write!(f, "no memory"),
        }
    }
}

impl fmt::Display for Limit {
    ghost output = { λ limit. Some (limit_name limit) };

    fn fmt<W: fmt::Write>(&self, f: &mut fmt::Formatter<W>) -> fmt::Result {
        match self {
            Limit::File => write!(f, "file"),
            Limit::Tokens => write!(f, "tokens"),
            Limit::Nonterminals => write!(f, "nonterminals"),
            Limit::Productions => write!(f, "productions"),
            Limit::Symbols => write!(f, "symbols"),
        }
    }
}

/// The code under which the fault of a pattern is printed.
fn pattern_code(cause: PatternCause) -> &'static str
    ensures { result.now ≡ pattern_code cause }
{
    match cause {
        PatternCause::Syntax => "P1",
        PatternCause::EmptyClass => "P2",
        PatternCause::ReversedRange => "P3",
        PatternCause::EmptyLiteral => "P4",
        PatternCause::MatchesEmpty => "P5",
        PatternCause::Memory => "P6",
    }
}

impl From<AllocError> for GrammarCause {
    ghost from_gives = { λ _ e. e ≡ Memory };

    fn from(_: AllocError) -> GrammarCause {
        GrammarCause::Memory
    }
}

impl From<AllocError> for GrammarFault {
    ghost from_gives = { λ _ e. e ≡ record { line = 0; cause = Memory } };

    fn from(_: AllocError) -> GrammarFault {
        GrammarFault {
            line: 0,
            cause: GrammarCause::Memory,
        }
    }
}
