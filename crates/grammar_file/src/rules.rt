//! The rules of a file, each found by its name.

ghost use Rattle.std.specs.Prelude.{◌≡◌, ◌++◌, ◌∷◌, [], List, length, map, OnOk, OnErr};
ghost use Rattle.std.specs.Str.{bytes_eq};
ghost use Rattle.std.specs.List.{list_any};
ghost use Rattle.grammar_file.specs.Contents.{number_of};
ghost use Rattle.grammar_file.specs.Numbers.{AreNumbers};
ghost use Rattle.grammar_file.specs.Kept.{rule_line};
ghost use Rattle.grammar_line.specs.Words.{Word};

use indexmap::IndexMap;
use std::alloc::{AllocError, Global};
use std::marker::Model;

/// A `token` or `skip` rule.
#[derive(Clone, Copy)]
pub struct RuleName<'a> {
    /// Whether it is a `skip` rule.
    pub skip: bool,
    /// The rule's name.
    pub name: &'a str,
    /// The text of its pattern.
    pub pattern: &'a str,
}

/// Rules, in file order.
#[derive(Drop)]
pub struct Rules<'a> {
    rules: Vec<RuleName<'a>>,
    /// The number of the first rule of each name.
    numbers: IndexMap<&'a str, usize>,
}

impl<'a> Model for Rules<'a> {
    ghost use Rattle.std.specs.Prelude.{List, map};
    ghost use Rattle.grammar_file.specs.Contents.{RuleLine};
    ghost use Rattle.grammar_file.specs.Numbers.{AreNumbers};

    ghost Value = { List RuleLine };

    ghost view = { λ r. map (λ x. record {
      skip = x.skip;
      name = x.name.now;
      pattern = x.pattern.now;
    }) r.rules.items };

    ghost invariant = { λ r. AreNumbers (map (λ x. x.name.now) r.rules.items) r.numbers.entries };
}

impl<'a> Rules<'a> {
    /// No rules.
    pub(crate) fn new(alloc: Global) -> Rules<'a>
        ensures { result ≡ [] }
    {
        Rules {
            rules: Vec::new(alloc),
            numbers: IndexMap::new(alloc),
        }
    }

    /// How many rules there are.
    pub(crate) fn len(&self) -> usize
        ensures { result ≡ length self.now }
    {
        self.rules.len()
    }

    /// The rules, in order.
    pub fn as_slice(&self) -> &[RuleName<'a>]
        ensures { map rule_line result.now ≡ self.now }
    {
        &self.rules
    }

    /// The number of the first rule of this name; the count of the rules where none has it.
    pub fn number(&self, name: &str) -> usize
        ensures { result ≡ number_of name.now (map (λ r. r.name) self.now) }
    {
        self.numbers.get(name).copied().unwrap_or(self.rules.len())
    }

    /// Whether a rule has this name.
    pub(crate) fn contains(&self, name: &str) -> bool
        ensures { result ≡ list_any (λ r. bytes_eq r.name name.now) self.now }
    {
        self.numbers.contains_key(name)
    }

    /// Adds a rule at the end.
    pub(crate) fn add(&mut self, rule: RuleName<'a>) -> Result<(), AllocError>
        ensures { OnOk result (self.new ≡ self.old ++ rule_line rule.entry ∷ []) }
    {
        // With room for the rule nothing can fail after the change of the numbers.
        self.rules.reserve(1)?;
        add_number(&mut self.numbers, rule.name, self.rules.len())?;
        self.rules.push(rule)?;
        Ok(())
    }
}

/// Adds the number of a name unless the name has one.
fn add_number<'a>(
    numbers: &mut IndexMap<&'a str, usize>,
    name: &'a str,
    number: usize,
) -> Result<(), AllocError>
    ensures added { OnOk result ((names : List Word) → length names ≡ number →
        AreNumbers names numbers.old.entries →
        AreNumbers (names ++ name.now ∷ []) numbers.new.entries) }
    ensures err { OnErr result (numbers.new.entries ≡ numbers.old.entries) }
{
    if !numbers.contains_key(name) {
        numbers.insert(name, number)?;
    }
    Ok(())
}
