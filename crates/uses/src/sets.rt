//! Examples of what tables are made of.

use definitions::Symbol;
use item_sets::{StateNumber, States, close};
use productions::{AugmentedGrammar, Productions};
use std::alloc::{AllocError, Global};

/// The example of `productions`.
pub fn use_productions(rt: &HostRuntime, alloc: Global) -> Option<()> {
    let (list, number) = (Symbol::Nonterminal(0), Symbol::Rule(0));
    let mut productions = Productions::new(alloc, 1, 1, 0);
    productions.push(0, Vec::new(alloc)).ok()?;
    let longer = Vec::from_slice(alloc, &[list, number]).ok()?;
    productions.push(0, longer).ok()?;
    let grammar = AugmentedGrammar::of(alloc, productions).ok()?;
    let begins = grammar.may_follow(&[list], None, Some(0));
    println!(rt; "a list can begin with a number: {begins}").ok()
    // a list can begin with a number: true
}

/// The grammar of the example of `productions`.
pub fn lists(alloc: Global) -> Result<AugmentedGrammar, AllocError> {
    let mut productions = Productions::new(alloc, 1, 1, 0);
    productions.push(0, Vec::new(alloc))?;
    let longer = [Symbol::Nonterminal(0), Symbol::Rule(0)];
    productions.push(0, Vec::from_slice(alloc, &longer)?)?;
    AugmentedGrammar::of(alloc, productions)
}

/// The example of `item_sets`.
pub fn use_item_sets(rt: &HostRuntime, alloc: Global, augmented: &AugmentedGrammar) -> Option<()> {
    let mut states = States::new(alloc, augmented).ok()?;
    let start = StateNumber { index: 0 };
    let items = close(alloc, augmented, states.kernel(start)).ok()?;
    let gotos = states.gotos(alloc, augmented, &items, start).ok()?;
    println!(rt; "{} symbols, {} states", gotos.len(), states.len()).ok()
    // 2 symbols, 2 states
}
