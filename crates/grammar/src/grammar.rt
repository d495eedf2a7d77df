//! What a grammar file defines.

ghost use Rattle.std.specs.Prelude.{◌≡◌, ◌<◌, ◌≤◌, false, List, [], length, map, slice_index_or, IfOk, IfErr};
ghost use Rattle.std.specs.Str.{chars};
ghost use Rattle.std.specs.Iterator.{YieldsFirstBy, item_count};
ghost use Rattle.definitions.specs.Tokens.{is_skipped};
ghost use Rattle.definitions.specs.Answers.{kind_name};
ghost use Rattle.definitions.specs.declared.Symbol.{Symbol};
ghost use Rattle.grammar_file.specs.Causes.{Reports};
ghost use Rattle.grammar.specs.Faults.{IsFault};
ghost use Rattle.definitions.specs.Trees.{left_of, right_of};
ghost use Rattle.grammar.specs.Grammars.{FileGrammar, IsGrammar};
ghost use Rattle.grammar.specs.Meaning.{IsGrammarOf};
ghost use Rattle.grammar.specs.Notes.{AreNotes, symbol_name};

use crate::read::read;
use definitions::{Kind, Symbol};
use grammar_file::GrammarFault;
use patterns::Pattern;
use productions::Production;
use std::alloc::Global;
use std::marker::Model;

/// A name of a rule or of a nonterminal.
#[derive(Drop)]
pub struct Name {
    pub text: String,
}

impl Model for Name {
    ghost use Rattle.std.specs.Prelude.{ℕ, List, string_bytes};
    ghost use Rattle.std.specs.Str.{chars};

    ghost Value = { List ℕ };

    ghost view = { λ n. chars (string_bytes n.text) };
}

/// What a grammar file defines: its rules and nonterminals in file order, and its productions. A
/// marked word, as `X*`, is a nonterminal of this name. The marked words stand after what the
/// lines define, and so do their productions.
#[derive(Drop)]
pub struct Grammar {
    /// The names of the rules, in file order.
    pub(crate) names: Vec<Name>,
    /// The pattern of each rule.
    pub(crate) patterns: Vec<Pattern>,
    /// Whether each rule is a skip rule.
    pub(crate) skips: Vec<bool>,
    /// The names of the nonterminals, in file order.
    pub(crate) nonterminals: Vec<Name>,
    /// Whether each nonterminal folds.
    pub(crate) folds: Vec<bool>,
    /// The number of the start.
    pub(crate) start: usize,
    /// The productions, in file order.
    pub(crate) productions: Vec<Production>,
    /// All that the file defines, in file order.
    pub(crate) defined: Vec<Symbol>,
    /// Those of it that are neither skipped nor used.
    pub(crate) notes: Vec<Symbol>,
}

impl Model for Grammar {
    ghost use Rattle.grammar.specs.Grammars.{FileGrammar, IsGrammar, stored};
    ghost use Rattle.grammar.specs.Notes.{AreNotes};
    ghost use Rattle.definitions.specs.contracts.expression.Expression as e;
    ghost use Rattle.std.specs.Coded.{codes};

    ghost Value = { FileGrammar };

    ghost coded = { Prim.hlevel (codes, e.the_row.coded) };

    ghost view = { λ g. stored g.names.items g.patterns.items g.skips.items g.nonterminals.items
        g.folds.items g.start g.productions.items g.defined.items };

    ghost invariant = { λ g.
        let file = stored g.names.items g.patterns.items g.skips.items g.nonterminals.items
        g.folds.items g.start g.productions.items g.defined.items in
        IsGrammar file × AreNotes file g.defined.items g.notes.items };
}

impl Grammar {
    /// The grammar of a file, or its first fault.
    ///
    /// Reported first is a file of more than 65,536 bytes, then a first line that is neither
    /// `lrgrammar 1` nor `lrgrammar 2`, then the first line with a fault of its own, then that
    /// there is no start, then the first line that uses a name wrongly, and then the first
    /// unproductive nonterminal, at its first production. Where memory is refused the cause is
    /// `GrammarCause::Memory`, which says nothing of the file.
    pub fn read(alloc: Global, text: &str) -> Result<Grammar, GrammarFault>
        ensures grammar { IfOk result (λ g. IsGrammarOf text.now g) }
        ensures fault { IfErr result (λ f. Reports f (IsFault text.now)) }
        ensures refused { IfErr result (λ f.
            Reports f (λ _ _. (g : FileGrammar) → IsGrammarOf text.now g → ⊥)) }
    {
        read(alloc, text)
    }

    /// The number of the start nonterminal.
    pub fn start(&self) -> usize
        ensures start { result ≡ self.now.grammar.start }
        ensures sound { IsGrammar self.now }
    {
        self.start
    }

    /// How many token and skip rules there are.
    pub fn rules(&self) -> usize
        ensures { result ≡ length self.now.names }
    {
        self.names.len()
    }

    /// The patterns of the rules, in file order.
    pub fn patterns(&self) -> &[Pattern]
        ensures is { result.now ≡ self.now.patterns }
        ensures few { length self.now.patterns ≤ 256 }
    {
        &self.patterns
    }

    /// The name of a kind: its rule's, or `invalid`. Rule names are never empty; for an unknown
    /// rule the result is empty.
    pub fn kind_name(&self, kind: Kind) -> &str
        ensures { chars result.now ≡ kind_name self.now.names kind }
    {
        match kind {
            Kind::Rule(rule) => name_at(&self.names, rule),
            Kind::Invalid => "invalid",
        }
    }

    /// Whether tokens of this kind are skipped.
    pub fn is_skipped(&self, kind: Kind) -> bool
        ensures { result ≡ is_skipped self.now.skips kind }
    {
        match kind {
            Kind::Rule(rule) => self.skips.get(rule).copied().unwrap_or(false),
            Kind::Invalid => false,
        }
    }

    /// How many nonterminals there are.
    pub fn nonterminals(&self) -> usize
        ensures { result ≡ length self.now.nonterminals }
    {
        self.nonterminals.len()
    }

    /// The name of a nonterminal.
    pub fn nonterminal_name(&self, nonterminal: usize) -> &str
        requires { nonterminal < length self.now.nonterminals }
        ensures { chars result.now ≡ slice_index_or self.now.nonterminals nonterminal [] }
    {
        &self.nonterminals[nonterminal].text
    }

    /// Whether the nodes of a nonterminal fold.
    pub fn is_fold(&self, nonterminal: usize) -> bool
        ensures { result ≡ slice_index_or self.now.folds nonterminal false }
    {
        self.folds.get(nonterminal).copied().unwrap_or(false)
    }

    /// How many productions there are.
    pub fn productions(&self) -> usize
        ensures { result ≡ length self.now.grammar.productions }
    {
        self.productions.len()
    }

    /// The nonterminal on the left side of a production.
    pub fn left(&self, production: usize) -> usize
        requires { production < length self.now.grammar.productions }
        ensures { result ≡ left_of self.now.grammar production }
    {
        self.productions[production].left
    }

    /// The symbols on the right side of a production.
    pub fn right(&self, production: usize) -> &[Symbol]
        requires { production < length self.now.grammar.productions }
        ensures { result.now ≡ right_of self.now.grammar production }
    {
        &self.productions[production].right
    }

    /// The names of the nonterminals and `token` rules that no derivation from the start uses, in
    /// file order, a nonterminal at its first production.
    pub fn notes(&self) -> Notes<'_>
        ensures { (notes : List Symbol) × AreNotes self.now self.now.defined notes ×
            (result ≡ map (symbol_name self.now) notes) }
    {
        Notes {
            grammar: self,
            rest: &self.notes,
        }
    }

    fn symbol_name(&self, symbol: Symbol) -> &str
        ensures { chars result.now ≡ symbol_name self.now symbol }
    {
        match symbol {
            Symbol::Rule(rule) => name_at(&self.names, rule),
            Symbol::Nonterminal(nonterminal) => name_at(&self.nonterminals, nonterminal),
        }
    }
}

/// The name at this place, and nothing past the last one.
fn name_at(names: &[Name], place: usize) -> &str
    ensures { chars result.now ≡ slice_index_or names.now place [] }
{
    if place < names.len() {
        let name = &names[place];
        &name.text
    } else {
        ""
    }
}

/// Names of symbols that no derivation from the start uses.
#[derive(Drop)]
pub struct Notes<'a> {
    grammar: &'a Grammar,
    /// The symbols whose names are still to come.
    rest: &'a [Symbol],
}

impl<'a> Model for Notes<'a> {
    ghost use Rattle.std.specs.Prelude.{ℕ, List, map};
    ghost use Rattle.grammar.specs.Notes.{symbol_name};

    ghost Value = { List (List ℕ) };

    ghost view = { λ n. map (symbol_name n.grammar.now) n.rest.now };
}

impl<'a> Iterator for Notes<'a> {
    type Item = &'a str;

    ghost next_gives = { YieldsFirstBy (λ x. chars x.now) (λ s. s) };

    ghost remaining = { item_count (λ s. s) };

    fn next(&mut self) -> Option<&'a str> {
        let (first, rest) = self.rest.split_first()?;
        let grammar = self.grammar;
        self.rest = rest;
        Some(grammar.symbol_name(*first))
    }
}
