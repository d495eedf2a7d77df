//! What names mean, each found by its text.

ghost use Rattle.std.specs.Prelude.{◌≡◌, ◌++◌, ◌∷◌, [], List, length, OnOk};
ghost use Rattle.grammar_file.specs.Contents.{RuleLine};
ghost use Rattle.grammar_file.specs.Kept.{rule_line};
ghost use Rattle.grammar_file.specs.Meanings.{meaning_in, AreMeanings};
ghost use Rattle.grammar_line.specs.Words.{Word};

use crate::rules::RuleName;
use indexmap::IndexMap;
use std::alloc::{AllocError, Global};

/// What a name means.
#[derive(Clone, Copy)]
pub struct Meaning {
    /// The number of the nonterminal of this name.
    pub nonterminal: Option<usize>,
    /// The number of the first rule of this name.
    pub rule: Option<usize>,
    /// Whether a `skip` rule has this name.
    pub skip: bool,
}

/// What a name means that nothing defines.
const UNKNOWN: Meaning = Meaning {
    nonterminal: None,
    rule: None,
    skip: false,
};

/// What each name means.
#[derive(Drop)]
pub struct Meanings<'a> {
    by_name: IndexMap<&'a str, Meaning>,
}

impl<'a> Meanings<'a> {
    /// Before any name is defined.
    pub fn new(alloc: Global) -> Meanings<'a>
        ensures { AreMeanings [] [] result.by_name.entries }
    {
        Meanings {
            by_name: IndexMap::new(alloc),
        }
    }

    /// What a name means.
    pub fn of(&self, name: &str) -> Meaning
        ensures { result ≡ meaning_in self.now.by_name.entries name.now }
    {
        self.by_name.get(name).copied().unwrap_or(UNKNOWN)
    }

    /// Adds the rule of this number, the last one.
    pub fn add_rule(&mut self, rule: RuleName<'a>, number: usize) -> Result<(), AllocError>
        ensures { OnOk result ((nonterminals : List Word) (rules : List RuleLine) →
            length rules ≡ number → AreMeanings nonterminals rules self.old.by_name.entries →
            AreMeanings nonterminals (rules ++ rule_line rule.entry ∷ [])
            self.new.by_name.entries) }
    {
        let meaning = self.of(rule.name);
        let meaning = Meaning {
            rule: meaning.rule.or(Some(number)),
            skip: meaning.skip || rule.skip,
            ..meaning
        };
        self.by_name.insert(rule.name, meaning)?;
        Ok(())
    }

    /// Adds the nonterminal of this number, the last one.
    pub fn add_nonterminal(&mut self, name: &'a str, number: usize) -> Result<(), AllocError>
        ensures { OnOk result ((nonterminals : List Word) (rules : List RuleLine) →
            length nonterminals ≡ number →
            AreMeanings nonterminals rules self.old.by_name.entries →
            AreMeanings (nonterminals ++ name.now ∷ []) rules self.new.by_name.entries) }
    {
        let meaning = self.of(name);
        let meaning = Meaning {
            nonterminal: meaning.nonterminal.or(Some(number)),
            ..meaning
        };
        self.by_name.insert(name, meaning)?;
        Ok(())
    }
}
