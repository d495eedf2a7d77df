//! The canonical collection: the sets of items, and where a symbol leads from each.
ghost use Rattle.std.specs.Prelude.{◌≡◌, ◌<◌, ◌+◌, ◌∷◌, ◌++◌, List, [], None, IfOk, OnOk, length};
ghost use Rattle.definitions.specs.declared.Symbol.{Symbol};
ghost use Rattle.item_sets.specs.Collection.{kernel_at, AreStates, Placed, GoesOn, IsStep, IsRow};
ghost use Rattle.item_sets.specs.Order.{IsOrdered};
ghost use Rattle.item_sets.specs.States.{HasKernel, IsSetOf};

use crate::goto::kernels_after;
use crate::item::Item;
use crate::kernels::Kernels;
use crate::state_number::StateNumber;
use definitions::Symbol;
use productions::{AugmentedGrammar, symbol_at};
use std::alloc::{AllocError, Global};
use std::marker::Model;

/// The set and the symbol from which a set was first reached.
#[derive(Clone, Copy)]
pub struct Origin {
    /// The earlier set.
    from: StateNumber,
    /// The symbol that leads from it.
    symbol: Symbol,
}

/// The sets found so far, by their kernels, and how each of them was first reached.
#[derive(Drop)]
pub struct States {
    /// The kernel of each set.
    kernels: Kernels,
    /// How each set was first reached.
    origins: Vec<Origin>,
}

impl Model for States {
    ghost use Rattle.item_sets.specs.Collection.{Found};

    ghost Value = { Found };

    ghost view = { λ a. record { kernels = a.kernels; origins = a.origins.items } };
}

impl States {
    /// The set of the empty prefix alone.
    pub fn new(alloc: Global, grammar: &AugmentedGrammar) -> Result<States, AllocError>
        ensures states { IfOk result (AreStates grammar.now) }
        ensures alone { IfOk result (λ states. length states.kernels ≡ 1) }
    {
        let mut kernels = Kernels::new(alloc);
        let mut kernel = Vec::new(alloc);
        kernel.push(Item {
            production: None,
            at: 0,
            look: None,
        })?;
        kernels.place(alloc, &kernel)?;
        let mut origins = Vec::new(alloc);
        origins.push(Origin {
            from: StateNumber { index: 0 },
            symbol: Symbol::Nonterminal(grammar.start()),
        })?;
        Ok(States { kernels, origins })
    }

    /// How many sets there are so far.
    pub fn len(&self) -> usize
        ensures { result ≡ length self.now.kernels }
    {
        self.kernels.len()
    }

    /// The kernel of a set.
    pub fn kernel(&self, state: StateNumber) -> &[Item]
        requires { state < length self.now.kernels }
        ensures { result.now ≡ kernel_at self.now.kernels state }
    {
        self.kernels.kernel(state)
    }

    /// The state with this kernel, which is added where it is new.
    fn place(
        &mut self,
        alloc: Global,
        kernel: &[Item],
        from: StateNumber,
        symbol: Symbol,
    ) -> Result<StateNumber, AllocError>
        requires { length self.old.origins ≡ length self.old.kernels }
        ensures place { IfOk result (λ s. (s < length self.new.kernels)
            × (kernel_at self.new.kernels s ≡ kernel.now)) }
        ensures placed { OnOk result (Placed self.old self.new kernel.now from symbol) }
    {
        let state = self.kernels.place(alloc, kernel)?;
        if state.index == self.origins.len() {
            self.origins.push(Origin { from, symbol })?;
        }
        Ok(state)
    }

    /// Where the symbol leads from a state, with this kernel after it. A state that is met for the
    /// first time is added.
    fn goto(
        &mut self,
        alloc: Global,
        grammar: &AugmentedGrammar,
        kernel: &[Item],
        from: StateNumber,
        symbol: Symbol,
    ) -> Result<Option<StateNumber>, AllocError>
        requires states { AreStates grammar.now self.old }
        requires from { from < length self.old.kernels }
        requires ordered { IsOrdered grammar.now kernel.now }
        requires leads { (prefix : List Symbol)
            → HasKernel grammar.now.grammar (kernel_at self.old.kernels from) prefix
            → HasKernel grammar.now.grammar kernel.now (prefix ++ symbol ∷ []) }
        ensures states { OnOk result (AreStates grammar.now self.new) }
        ensures goes_on { OnOk result (GoesOn self.old.kernels self.new.kernels) }
        ensures step { IfOk result (IsStep grammar.now.grammar self.new.kernels from symbol) }
    {
        if kernel.is_empty() {
            return Ok(None);
        }
        let to = self.place(alloc, kernel, from, symbol)?;
        Ok(Some(to))
    }

    /// Where each symbol leads from the state with these items, by the symbol's number. States
    /// that are met for the first time are added in the order of the symbols.
    pub fn gotos(
        &mut self,
        alloc: Global,
        grammar: &AugmentedGrammar,
        items: &[Item],
        from: StateNumber,
    ) -> Result<Vec<Option<StateNumber>>, AllocError>
        requires states { AreStates grammar.now self.old }
        requires from { from < length self.old.kernels }
        requires items { IsSetOf grammar.now (kernel_at self.old.kernels from) items.now }
        ensures states { OnOk result (AreStates grammar.now self.new) }
        ensures goes_on { OnOk result (GoesOn self.old.kernels self.new.kernels) }
        ensures row { IfOk result (λ to. IsRow grammar.now self.new.kernels from to.items) }
    {
        let kernels = kernels_after(alloc, grammar, items)?;
        let mut to = Vec::new(alloc);
        for kernel in &kernels {
            let symbol = symbol_at(grammar, to.len());
            to.push(self.goto(alloc, grammar, kernel.items(), from, symbol)?)?;
        }
        Ok(to)
    }

    /// The symbols by which the state was first reached. Where the states are taken in order to be
    /// followed, no fewer symbols lead there, which no contract says.
    pub fn prefix(
        &self,
        alloc: Global,
        grammar: &AugmentedGrammar,
        state: StateNumber,
    ) -> Result<Vec<Symbol>, AllocError>
        requires states { AreStates grammar.now self.now }
        requires state { state < length self.now.kernels }
        ensures { IfOk result (λ prefix. HasKernel grammar.now.grammar (kernel_at self.now.kernels
            state) prefix.items) }
    {
        let mut symbols = Vec::new(alloc);
        let mut at = state.index;
        while at > 0 {
            let origin = self.origins[at];
            symbols.push(origin.symbol)?;
            at = origin.from.index;
        }
        symbols.reverse();
        Ok(symbols)
    }
}
