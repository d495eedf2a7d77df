//! The names that the lines of a file define.

ghost use Rattle.std.specs.Prelude.{◌≡◌, ◌+◌, ◌<◌, ◌^◌, ◌++◌, ◌∷◌, List, [], None, Some, if◌then◌else◌, length, map, OnOk};
ghost use Rattle.definitions.specs.declared.Symbol.TheVariants.{Nonterminal, Rule as Terminal};
ghost use Rattle.grammar_line.specs.Statements.{Statement};
ghost use Rattle.grammar_file.specs.Contents.{defines, is_among, number_of, with_name};
ghost use Rattle.grammar_file.specs.WrittenOut.{with_marked};
ghost use Rattle.grammar_line.specs.Kept.{line_view, texts};
ghost use Rattle.grammar_file.specs.Kept.{rule_line, AreNames, HasMeanings, with_rule, with_left, with_right, with_sides, with_names, with_production, with_start};

use crate::meanings::Meanings;
use crate::name_set::NameSet;
use crate::production_set::ProductionSet;
use crate::rules::{RuleName, Rules};
use definitions::Symbol;
use grammar_line::{Line, is_marked};
use std::alloc::{AllocError, Global};

/// What the lines so far define.
#[derive(Drop)]
pub struct Names<'a> {
    /// The rules, in file order.
    pub rules: Rules<'a>,
    /// The nonterminals, in the order of their first productions.
    pub nonterminals: NameSet<'a>,
    /// What the names of rules and nonterminals mean.
    pub(crate) meanings: Meanings<'a>,
    /// The marked words on right sides, in the order of first occurrence.
    pub(crate) marked: NameSet<'a>,
    /// The productions.
    pub(crate) sides: ProductionSet<'a>,
    /// How many productions there are.
    pub(crate) productions: usize,
    /// Whether there is a start.
    pub(crate) started: bool,
}

impl<'a> Names<'a> {
    /// Before any line.
    pub(crate) fn new(alloc: Global) -> Names<'a>
        ensures { AreNames result [] }
    {
        Names {
            rules: Rules::new(alloc),
            nonterminals: NameSet::new(alloc),
            meanings: Meanings::new(alloc),
            marked: NameSet::new(alloc),
            sides: ProductionSet::new(alloc),
            productions: 0,
            started: false,
        }
    }

    /// Adds what a line defines.
    pub(crate) fn note(&mut self, alloc: Global, line: &Line<'a>) -> Result<(), AllocError>
        requires { self.old.productions < 2 ^ 32 }
        ensures rules { OnOk result (self.new.rules
            ≡ with_rule self.old.rules (line_view line.now)) }
        ensures nonterminals { OnOk result (self.new.nonterminals
            ≡ with_left self.old.nonterminals (line_view line.now)) }
        ensures marked { OnOk result (self.new.marked
            ≡ with_right self.old.marked (line_view line.now)) }
        ensures sides { OnOk result (self.new.sides
            ≡ with_sides self.old.sides (line_view line.now)) }
        ensures productions { OnOk result (self.new.productions
            ≡ with_production self.old.productions (line_view line.now)) }
        ensures started { OnOk result (self.new.started
            ≡ with_start self.old.started (line_view line.now)) }
        ensures meanings { OnOk result (HasMeanings self.old → HasMeanings self.new) }
    {
        match line {
            Line::Rule {
                skip,
                name,
                pattern,
            } => self.note_rule(RuleName {
                skip: *skip,
                name,
                pattern,
            }),
            Line::Production { left, right } => self.note_production(alloc, left, right),
            Line::Start(_) => {
                self.started = true;
                Ok(())
            }
            Line::Fold(_) | Line::Nothing | Line::Bad => Ok(()),
        }
    }

    /// Adds a rule.
    fn note_rule(&mut self, rule: RuleName<'a>) -> Result<(), AllocError>
        ensures is { OnOk result (self.new
            ≡ record self.old {
              rules = self.old.rules ++ rule_line rule.entry ∷ [];
              meanings = self.new.meanings;
            }) }
        ensures meanings { OnOk result (HasMeanings self.old → HasMeanings self.new) }
    {
        self.meanings.add_rule(rule, self.rules.len())?;
        self.rules.add(rule)
    }

    /// Adds a production.
    fn note_production(
        &mut self,
        alloc: Global,
        left: &'a str,
        right: &[&'a str],
    ) -> Result<(), AllocError>
        requires { self.old.productions < 2 ^ 32 }
        ensures is { OnOk result (self.new
            ≡ record self.old {
              nonterminals = with_name self.old.nonterminals left.now;
              meanings = self.new.meanings;
              marked = with_marked self.old.marked (texts right.now);
              sides = with_names self.old.sides (left.now ∷ texts right.now);
              productions = self.old.productions + 1;
            }) }
        ensures meanings { OnOk result (HasMeanings self.old → HasMeanings self.new) }
    {
        self.note_left(left)?;
        add_marked(&mut self.marked, right)?;
        self.sides.add(alloc, left, right)?;
        self.productions += 1;
        Ok(())
    }

    /// Adds a left side, unless it is there.
    fn note_left(&mut self, left: &'a str) -> Result<(), AllocError>
        ensures is { OnOk result (self.new
            ≡ record self.old {
              nonterminals = with_name self.old.nonterminals left.now;
              meanings = self.new.meanings;
            }) }
        ensures meanings { OnOk result (HasMeanings self.old → HasMeanings self.new) }
    {
        if self.nonterminals.contains(left) {
            return Ok(());
        }
        self.meanings
            .add_nonterminal(left, self.nonterminals.len())?;
        self.nonterminals.add(left)
    }

    /// The symbol of a name: the nonterminal, or else the first rule of this name. Where there is
    /// neither, it has the count of the rules.
    pub fn symbol(&self, name: &str) -> Symbol
        requires { HasMeanings self.now }
        ensures { result
            ≡ (if is_among name.now self.now.nonterminals
            then Nonterminal (number_of name.now self.now.nonterminals)
            else Terminal (number_of name.now (map (λ r. r.name) self.now.rules))) }
    {
        let meaning = self.meanings.of(name);
        match meaning.nonterminal {
            Some(nonterminal) => Symbol::Nonterminal(nonterminal),
            None => Symbol::Rule(meaning.rule.unwrap_or(self.rules.len())),
        }
    }

    /// What a line defines after those so far: a rule, or a nonterminal at its first production.
    pub(crate) fn defined_by(&self, line: &Line<'_>) -> Option<Symbol>
        ensures { (ss : List Statement) → AreNames self.now ss →
            result ≡ defines ss (line_view line.now) }
    {
        match line {
            Line::Rule { .. } => Some(Symbol::Rule(self.rules.len())),
            Line::Production { left, .. } => self.new_nonterminal(left),
            _ => None,
        }
    }

    /// The nonterminal that a left side defines, unless it is there.
    fn new_nonterminal(&self, left: &str) -> Option<Symbol>
        ensures { result
            ≡ (if is_among left.now self.now.nonterminals then None else Some
            (Nonterminal (length self.now.nonterminals))) }
    {
        if self.nonterminals.contains(left) {
            None
        } else {
            Some(Symbol::Nonterminal(self.nonterminals.len()))
        }
    }
}

/// Adds the marked ones of the words.
fn add_marked<'a>(marked: &mut NameSet<'a>, words: &[&'a str]) -> Result<(), AllocError>
    ensures { OnOk result (marked.new ≡ with_marked marked.old (texts words.now)) }
{
    for word in words {
        if is_marked(word) {
            marked.add(word)?;
        }
    }
    Ok(())
}
