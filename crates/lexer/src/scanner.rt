//! A grammar, with the automaton of its token rules.
ghost use Rattle.std.specs.Prelude.{◌≡◌, IfOk, IfErr};
ghost use Rattle.dfa.specs.Positions.{HasMoreStatesThan};
ghost use Rattle.dfa.specs.Table.{Table, IsAutomaton};
ghost use Rattle.dfa.specs.declared.build.DfaFault.TheVariants.{TooManyStates};

use dfa::{Automaton, DfaFault};
use grammar::Grammar;
use std::alloc::Global;
use std::marker::Model;

/// A grammar, with the automaton of its token rules. A contract sees the grammar.
///
/// Its two parts are what a scan of a text is handed.
#[derive(Drop)]
pub struct Scanner {
    grammar: Grammar,
    automaton: Automaton,
}

impl Model for Scanner {
    ghost use Rattle.std.specs.Coded.{codes};
    ghost use Rattle.definitions.specs.contracts.expression.Expression as e;
    ghost use Rattle.dfa.specs.Table.{IsAutomaton};
    ghost use Rattle.grammar.specs.Grammars.{FileGrammar};

    ghost Value = { FileGrammar };

    ghost coded = { Prim.hlevel (codes, e.the_row.coded) };

    ghost view = { λ s. s.grammar };

    ghost invariant = { λ s. IsAutomaton s.grammar.patterns s.automaton };
}

impl Scanner {
    /// The scanner of a grammar. Refuses one whose automaton would have more than 4,096 states
    /// with `TooManyStates`. `Memory` says that memory was refused.
    pub fn new(alloc: Global, grammar: Grammar) -> Result<Scanner, DfaFault>
        ensures grammar { IfOk result (λ s. s ≡ grammar) }
        ensures few { IfOk result (λ _. HasMoreStatesThan grammar.patterns 4096 → ⊥) }
        ensures many { IfErr result (λ e.
            e ≡ TooManyStates → HasMoreStatesThan grammar.patterns 4096) }
    {
        match Automaton::build(alloc, grammar.patterns()) {
            Ok(automaton) => Ok(Scanner { grammar, automaton }),
            Err(fault) => Err(fault),
        }
    }

    /// The grammar.
    pub fn grammar(&self) -> &Grammar
        ensures is { result.now ≡ self.now }
        ensures automaton { (table : Table) × IsAutomaton self.now.patterns table }
    {
        &self.grammar
    }

    /// The automaton of its token rules.
    pub fn automaton(&self) -> &Automaton
        ensures { IsAutomaton self.now.patterns result.now }
    {
        &self.automaton
    }

    /// The grammar, without the automaton.
    pub fn into_grammar(self) -> Grammar
        ensures { result ≡ self }
    {
        self.grammar
    }
}
