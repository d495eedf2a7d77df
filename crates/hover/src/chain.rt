//! The nodes around a token, as a hover names them.

use crate::markup::Page;
use forests::Forest;
use grammar::Grammar;
use std::alloc::{AllocError, Global};

/// So many runs are named at most.
const MOST_RUNS: usize = 12;

/// Nodes of one nonterminal, each in the one before it.
#[derive(Clone, Copy)]
struct Run {
    nonterminal: usize,
    count: usize,
}

/// The nodes around a token, from outer to inner.
#[derive(Drop)]
pub(crate) struct Chain {
    runs: Vec<Run>,
}

impl Chain {
    /// No nodes.
    pub(crate) fn empty(alloc: Global) -> Chain {
        Chain {
            runs: Vec::new(alloc),
        }
    }

    /// The nodes of these trees around the token at this place.
    pub(crate) fn around(
        alloc: Global,
        grammar: &Grammar,
        forest: Forest<'_>,
        place: usize,
    ) -> Result<Chain, AllocError> {
        let mut chain = Chain::empty(alloc);
        let mut next = forest.below(None, place);
        'down: for _ in 0..forest.count() {
            let Some(branch) = next else {
                return Ok(chain);
            };
            if let Some(production) = forest.production(branch) {
                chain.add(grammar, production)?;
            }
            next = forest.below(next, place);
        }
        Ok(chain)
    }

    /// Adds a node of this production, which lies in the others.
    fn add(&mut self, grammar: &Grammar, production: usize) -> Result<(), AllocError> {
        if production >= grammar.productions() {
            return Ok(());
        }
        let nonterminal = grammar.left(production);
        let count = match self.runs.last() {
            Some(run) if run.nonterminal == nonterminal => run.count.saturating_add(1),
            _ => 1,
        };
        if count > 1 {
            self.runs.pop();
        }
        self.runs.push(Run { nonterminal, count })?;
        Ok(())
    }

    /// Says the runs, from inner to outer.
    pub(crate) fn say(
        &self,
        alloc: Global,
        grammar: &Grammar,
        page: &mut Page,
    ) -> Result<(), AllocError> {
        for (number, run) in self.runs.iter().rev().enumerate() {
            page.add(" in ")?;
            if number == MOST_RUNS {
                let more = self.runs.len().saturating_sub(number);
                return page.add(&format!(in alloc; ".. {more} more")?);
            }
            run.say(alloc, grammar, page)?;
        }
        Ok(())
    }
}

impl Run {
    /// Says the name of the nodes, and how many they are.
    fn say(self, alloc: Global, grammar: &Grammar, page: &mut Page) -> Result<(), AllocError> {
        if self.nonterminal < grammar.nonterminals() {
            page.say(grammar.nonterminal_name(self.nonterminal))?;
        }
        if self.count == 1 {
            return Ok(());
        }
        page.add(&format!(in alloc; " ({} times)", self.count)?)
    }
}
