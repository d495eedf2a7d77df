//! The statements of a file, line by line.

ghost use Rattle.std.specs.Prelude.{◌≡◌, ◌≢◌, ◌≤◌, ◌^◌, ◌++◌, ◌∷◌, ◌||◌, [], ℕ, Bool, List, None, map, IfOk, IfErr, OnOk};
ghost use Rattle.std.specs.List.{cons_option};
ghost use Rattle.std.specs.Str.{chars};
ghost use Rattle.definitions.specs.declared.expression.PatternFault.{PatternFault};
ghost use Rattle.definitions.specs.PatternFaults.{IsFault as IsPatternFault};
ghost use Rattle.definitions.specs.Spelling.{IsPattern};
ghost use Rattle.grammar_line.specs.Statements.{numbered, statements_in, Nothing, at};
ghost use Rattle.grammar_line.specs.Statements;
ghost use Rattle.grammar_file.specs.Contents.{defines};
ghost use Rattle.grammar_line.specs.Words.{plain};
ghost use Rattle.grammar_file.specs.Faults.{reserved, has_rule, has_production, early_fault, line_limit, limit_fault, IsLineFault, IsFirstLineFault, HasPatternFault, BadPattern};
ghost use Rattle.grammar_line.specs.Kept.{line_view, texts};
ghost use Rattle.grammar_file.specs.Kept.{lines_view, AreNames, IsRead, IsPatternOf, with_pattern};
ghost use Rattle.grammar_file.specs.Causes.{Reports, ReportsCause, Tells};

use crate::fault::{GrammarCause, GrammarFault, Limit};
use crate::names::Names;
use definitions::{PatternCause, Symbol};
use grammar_line::{Line, Version, is_reserved, plain, read_line};
use patterns::Pattern;
use std::alloc::{AllocError, Global};

/// The most rules of a file.
const MOST_RULES: usize = 256;

/// The most nonterminals.
const MOST_NONTERMINALS: usize = 256;

/// The most productions.
const MOST_PRODUCTIONS: usize = 1024;

/// The most symbols of a right side.
const MOST_SYMBOLS: usize = 16;

/// A line that says something, with its number, the first line's being 1. The production of a
/// marked word stands on no line, and has number 0.
#[derive(Drop)]
pub struct Numbered<'a> {
    /// The line's number.
    pub number: usize,
    /// What it says.
    pub line: Line<'a>,
}

/// What is kept of a file's lines, which have no fault.
#[derive(Drop)]
pub struct File<'a> {
    /// The lines that say something, in file order, and after all of them the productions of the
    /// marked words.
    pub statements: Vec<Numbered<'a>>,
    /// The names that they define.
    pub names: Names<'a>,
    /// The patterns of the rules, in file order.
    pub patterns: Vec<Pattern>,
    /// All that the lines define, in file order: a rule, and a nonterminal at its first
    /// production.
    pub defined: Vec<Symbol>,
}

impl<'a> File<'a> {
    /// Before any line.
    pub(crate) fn new(alloc: Global) -> File<'a>
        ensures { IsRead result [] }
    {
        File {
            statements: Vec::new(alloc),
            names: Names::new(alloc),
            patterns: Vec::new(alloc),
            defined: Vec::new(alloc),
        }
    }

    /// Adds what the lines say, of which the first has number 2, up to the first fault.
    pub(crate) fn add_lines(
        &mut self,
        alloc: Global,
        version: Version,
        lines: &[&'a str],
    ) -> Result<(), GrammarFault>
        requires { IsRead self.old [] }
        ensures read { OnOk result (IsRead self.new (statements_in version (texts lines.now))) }
        ensures fault { IfErr result (λ f.
            Reports f (IsFirstLineFault (statements_in version (texts lines.now)))) }
    {
        for (index, text) in lines.iter().enumerate() {
            let line = read_line(alloc, version, text)?;
            let number = index + 2;
            if let Err(cause) = self.add(alloc, number, line) {
                return Err(GrammarFault {
                    line: number,
                    cause,
                });
            }
        }
        Ok(())
    }

    /// Adds a line with its number, unless it says nothing.
    fn add(&mut self, alloc: Global, number: usize, line: Line<'a>) -> Result<(), GrammarCause>
        requires { IsRead self.old (lines_view self.old.statements.items) }
        ensures read { OnOk result (IsRead self.new (lines_view self.old.statements.items
            ++ cons_option (numbered number (line_view line.entry)) [])) }
        ensures fault { IfErr result (λ cause. (line_view line.entry ≢ Nothing) × ReportsCause cause
            (IsLineFault (lines_view self.old.statements.items) (line_view line.entry))) }
    {
        match line {
            Line::Nothing => Ok(()),
            line => self.add_statement(alloc, number, line),
        }
    }

    /// Adds a line that says something.
    fn add_statement(
        &mut self,
        alloc: Global,
        number: usize,
        line: Line<'a>,
    ) -> Result<(), GrammarCause>
        requires { IsRead self.old (lines_view self.old.statements.items) }
        ensures read { OnOk result (IsRead self.new (lines_view self.old.statements.items
            ++ at number (line_view line.entry) ∷ [])) }
        ensures fault { IfErr result (λ cause. ReportsCause cause
            (IsLineFault (lines_view self.old.statements.items) (line_view line.entry))) }
    {
        let pattern = self.test(alloc, &line)?;
        self.note(alloc, &line, pattern)?;
        add_line(&mut self.statements, number, line)?;
        self.test_limits()
    }

    /// Notes what a line defines, but not the line.
    fn note(
        &mut self,
        alloc: Global,
        line: &Line<'a>,
        pattern: Option<Pattern>,
    ) -> Result<(), AllocError>
        requires { IsRead self.old (lines_view self.old.statements.items) }
        ensures statements { OnOk result (self.new.statements.items ≡ self.old.statements.items) }
        ensures names { OnOk result ((n : ℕ) → AreNames self.new.names
            (lines_view self.old.statements.items ++ at n (line_view line.now) ∷ [])) }
        ensures few { OnOk result (self.new.names.productions ≤ 2 ^ 32) }
        ensures patterns { OnOk result (self.new.patterns.items
            ≡ with_pattern self.old.patterns.items pattern) }
        ensures defined { OnOk result (self.new.defined.items
            ≡ self.old.defined.items
            ++ cons_option
            (defines (lines_view self.old.statements.items) (line_view line.now)) []) }
    {
        add_pattern(&mut self.patterns, pattern)?;
        add_symbol(&mut self.defined, self.names.defined_by(line))?;
        self.names.note(alloc, line)?;
        Ok(())
    }

    /// Tests a line but for the limits that all lines have to keep, and hands out the pattern of a
    /// rule.
    fn test(&self, alloc: Global, line: &Line<'_>) -> Result<Option<Pattern>, GrammarCause>
        requires { AreNames self.now.names (lines_view self.now.statements.items) }
        ensures early { IfOk result (λ _.
            early_fault (lines_view self.now.statements.items) (line_view line.now) ≡ None) }
        ensures pattern { IfOk result (λ p. IsPatternOf (line_view line.now) p) }
        ensures limit { IfOk result (λ _.
            line_limit (lines_view self.now.statements.items) (line_view line.now) ≡ None) }
        ensures fault { IfErr result (λ cause. ReportsCause cause
            (IsLineFault (lines_view self.now.statements.items) (line_view line.now))) }
    {
        self.test_early(alloc, line)?;
        let pattern = pattern_of(alloc, line)?;
        self.test_line_limit(line)?;
        Ok(pattern)
    }

    /// Tests what is reported before the pattern is read.
    fn test_early(&self, alloc: Global, line: &Line<'_>) -> Result<(), GrammarCause>
        requires { AreNames self.now.names (lines_view self.now.statements.items) }
        ensures { Tells result
            (early_fault (lines_view self.now.statements.items) (line_view line.now)) }
    {
        match line {
            Line::Nothing => Ok(()),
            Line::Production { left, right } => self.test_production(alloc, left, right),
            Line::Rule { name, .. } => self.test_rule(alloc, name),
            Line::Start(name) | Line::Fold(name) => test_reserved(alloc, name),
            Line::Bad => Err(GrammarCause::BadLine),
        }
    }

    /// Tests the names of a production, and that it stands nowhere before.
    fn test_production(&self, alloc: Global, left: &str, right: &[&str]) -> Result<(), GrammarCause>
        requires { AreNames self.now.names (lines_view self.now.statements.items) }
        ensures { Tells result (early_fault (lines_view self.now.statements.items)
            (Statements.Production left.now (texts right.now))) }
    {
        test_reserved(alloc, left)?;
        test_words(alloc, right)?;
        if self.is_defined(alloc, left, right)? {
            return Err(GrammarCause::DefinedTwice(String::from_str(alloc, left)?));
        }
        Ok(())
    }

    /// Whether the left side is a rule's name, or the production is there.
    fn is_defined(&self, alloc: Global, left: &str, right: &[&str]) -> Result<bool, AllocError>
        requires { AreNames self.now.names (lines_view self.now.statements.items) }
        ensures { IfOk result (λ is.
            is
            ≡ (has_rule (lines_view self.now.statements.items) left.now
            || has_production (lines_view self.now.statements.items) left.now (texts right.now))) }
    {
        if self.names.rules.contains(left) {
            return Ok(true);
        }
        self.names.sides.contains(alloc, left, right)
    }

    fn test_rule(&self, alloc: Global, name: &str) -> Result<(), GrammarCause>
        requires { AreNames self.now.names (lines_view self.now.statements.items) }
        ensures { (skip : Bool) (pattern : List ℕ) → Tells result
            (early_fault (lines_view self.now.statements.items)
            (Statements.Rule skip name.now pattern)) }
    {
        test_reserved(alloc, name)?;
        if self.names.rules.contains(name) || self.names.nonterminals.contains(name) {
            return Err(GrammarCause::DefinedTwice(String::from_str(alloc, name)?));
        }
        Ok(())
    }

    /// Tests that the line is no second start, and its right side isn't too long.
    fn test_line_limit(&self, line: &Line<'_>) -> Result<(), GrammarCause>
        requires { AreNames self.now.names (lines_view self.now.statements.items) }
        ensures { Tells result
            (line_limit (lines_view self.now.statements.items) (line_view line.now)) }
    {
        match line {
            Line::Production { right, .. } if MOST_SYMBOLS < right.len() => {
                Err(GrammarCause::Limit(Limit::Symbols))
            }
            Line::Start(_) if self.names.started => Err(GrammarCause::SecondStart),
            _ => Ok(()),
        }
    }

    /// Tests that the lines keep the limits, where a marked word counts as one nonterminal and two
    /// productions.
    fn test_limits(&self) -> Result<(), GrammarCause>
        requires names { AreNames self.now.names (lines_view self.now.statements.items) }
        requires small { self.now.names.productions ≤ 2 ^ 32 }
        ensures { Tells result (limit_fault (lines_view self.now.statements.items)) }
    {
        let marked = self.names.marked.len();
        if MOST_RULES < self.names.rules.len() {
            Err(GrammarCause::Limit(Limit::Tokens))
        } else if MOST_NONTERMINALS < self.names.nonterminals.len() + marked {
            Err(GrammarCause::Limit(Limit::Nonterminals))
        } else if MOST_PRODUCTIONS < self.names.productions + 2 * marked {
            Err(GrammarCause::Limit(Limit::Productions))
        } else {
            Ok(())
        }
    }
}

/// Adds the pattern, if there is one.
fn add_pattern(patterns: &mut Vec<Pattern>, pattern: Option<Pattern>) -> Result<(), AllocError>
    ensures { OnOk result (patterns.new.items ≡ with_pattern patterns.old.items pattern) }
{
    match pattern {
        Some(pattern) => {
            patterns.push(pattern)?;
            Ok(())
        }
        None => Ok(()),
    }
}

/// Adds the symbol, if there is one.
fn add_symbol(symbols: &mut Vec<Symbol>, symbol: Option<Symbol>) -> Result<(), AllocError>
    ensures { OnOk result (symbols.new.items ≡ symbols.old.items ++ cons_option symbol []) }
{
    match symbol {
        Some(symbol) => {
            symbols.push(symbol)?;
            Ok(())
        }
        None => Ok(()),
    }
}

/// Adds a line with its number.
pub fn add_line<'a>(
    statements: &mut Vec<Numbered<'a>>,
    number: usize,
    line: Line<'a>,
) -> Result<(), AllocError>
    ensures { OnOk result (lines_view statements.new.items
        ≡ lines_view statements.old.items ++ at number (line_view line.entry) ∷ []) }
{
    statements.push(Numbered { number, line })?;
    Ok(())
}

fn test_reserved(alloc: Global, name: &str) -> Result<(), GrammarCause>
    ensures { Tells result (reserved (name.now ∷ [])) }
{
    if is_reserved(name) {
        return Err(GrammarCause::Reserved(String::from_str(alloc, name)?));
    }
    Ok(())
}

/// Tests that no name of a right side is reserved, from the left.
fn test_words(alloc: Global, words: &[&str]) -> Result<(), GrammarCause>
    ensures { Tells result (reserved (map plain (texts words.now))) }
{
    for word in words {
        test_reserved(alloc, plain(word))?;
    }
    Ok(())
}

/// The pattern of a rule's line.
fn pattern_of(alloc: Global, line: &Line<'_>) -> Result<Option<Pattern>, GrammarCause>
    ensures pattern { IfOk result (λ p. IsPatternOf (line_view line.now) p) }
    ensures fault { IfErr result (λ cause. ReportsCause cause (λ c.
        (f : PatternFault) × HasPatternFault (line_view line.now) f × (c ≡ BadPattern f))) }
{
    match line {
        Line::Rule { pattern, .. } => Ok(Some(read_pattern(alloc, pattern)?)),
        _ => Ok(None),
    }
}

/// The pattern of a rule, or why its text is none.
fn read_pattern(alloc: Global, text: &str) -> Result<Pattern, GrammarCause>
    ensures pattern { IfOk result (λ p. IsPattern (chars text.now) p) }
    ensures fault { IfErr result (λ cause. ReportsCause cause (λ c.
        (f : PatternFault) × IsPatternFault (chars text.now) f × (c ≡ BadPattern f))) }
{
    match Pattern::read(alloc, text) {
        Ok(pattern) => Ok(pattern),
        Err(fault) => {
            if fault.cause == PatternCause::Memory {
                return Err(GrammarCause::Memory);
            }
            Err(GrammarCause::BadPattern(fault))
        }
    }
}
