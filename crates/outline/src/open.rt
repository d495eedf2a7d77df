//! The nodes that are open at a fault.

ghost use Rattle.std.specs.Prelude.{◌<◌, IfOk, IfSome, List, length};
ghost use Rattle.definitions.specs.declared.Symbol.{Symbol};
ghost use Rattle.tables.specs.Tables.{IsStateOf};
ghost use Rattle.outline.specs.Stacks.{AreStates};

use crate::nodes::Nodes;
use definitions::{Kind, Symbol};
use docs::Language;
use grammar::Grammar;
use std::alloc::{AllocError, Global};
use tables::{Move, Tables};
use trees::Child;

/// A node that isn't closed before a fault: where its parts begin on the parser's stack, its
/// production and nonterminal, and how many of its parts stand there, at least one.
#[derive(Clone, Copy)]
pub(crate) struct OpenNode {
    pub(crate) at: usize,
    pub(crate) production: usize,
    nonterminal: usize,
    pub(crate) parts: usize,
}

/// The nodes that are open at the end of these trees, which are those of a parser's stack, from
/// inner to outer. Where some sentences go on with one node and some with another, it is that of
/// the first production that fits.
pub(crate) fn open_nodes(
    alloc: Global,
    language: &Language,
    nodes: Nodes<'_>,
    roots: &[Child],
) -> Result<Vec<OpenNode>, AllocError> {
    let symbols = symbols_of(alloc, nodes, roots)?;
    let states = states_of(alloc, language.tables(), &symbols)?;
    let stack = Stack {
        alloc,
        grammar: language.grammar(),
        tables: language.tables(),
        symbols: &symbols,
        states: &states,
    };
    stack.open_nodes()
}

/// The symbols at the roots of these trees, up to the first that has none.
fn symbols_of(alloc: Global, nodes: Nodes<'_>, roots: &[Child]) -> Result<Vec<Symbol>, AllocError> {
    let mut symbols = Vec::with_capacity(alloc, roots.len())?;
    for root in roots {
        let Some(symbol) = nodes.symbol(*root) else {
            return Ok(symbols);
        };
        symbols.push(symbol)?;
    }
    Ok(symbols)
}

/// The state of the empty prefix, and those after each of these symbols.
fn states_of(alloc: Global, tables: &Tables, symbols: &[Symbol]) -> Result<Vec<usize>, AllocError>
    ensures { IfOk result (λ states. AreStates tables.now states.items) }
{
    let mut states = Vec::new(alloc);
    let mut state = tables.start();
    states.push(state)?;
    for symbol in symbols {
        let Some(next) = follower(tables, state, *symbol) else {
            return Ok(states);
        };
        state = next;
        states.push(state)?;
    }
    Ok(states)
}

/// The state that a symbol leads to.
fn follower(tables: &Tables, state: usize, symbol: Symbol) -> Option<usize>
    requires { (prefix : List Symbol) × IsStateOf tables.now prefix state }
    ensures { IfSome result (λ to. (prefix : List Symbol) × IsStateOf tables.now prefix to) }
{
    match symbol {
        Symbol::Rule(rule) => match tables.action(state, Some(Kind::Rule(rule))) {
            Some(Move::Shift(to)) => Some(to),
            _ => None,
        },
        Symbol::Nonterminal(nonterminal) => tables.goto(state, nonterminal),
    }
}

/// The stack of a parser.
#[derive(Clone, Copy)]
struct Stack<'a> {
    alloc: Global,
    grammar: &'a Grammar,
    tables: &'a Tables,
    symbols: &'a [Symbol],
    /// The states below the symbols, and above the last one.
    states: &'a [usize],
}

impl Stack<'_> {
    /// Whether a node of this nonterminal may begin at this place.
    fn begins(self, nonterminal: usize, at: usize) -> bool
        requires { AreStates self.tables.now self.states.now }
    {
        match self.states.get(at) {
            Some(state) => {
                at == 0 && nonterminal == self.grammar.start()
                    || self.tables.goto(*state, nonterminal).is_some()
            }
            None => false,
        }
    }

    /// Whether the first parts of a production stand before this place, where a node of it may
    /// begin.
    fn stands(self, production: usize, parts: usize, at: usize) -> bool
        requires states { AreStates self.tables.now self.states.now }
        requires production { production < length self.grammar.now.grammar.productions }
    {
        let right = self.grammar.right(production);
        match (self.symbols.get(..at), right.get(..parts)) {
            (Some(before), Some(first)) => {
                before.ends_with(first)
                    && self.begins(self.grammar.left(production), at.saturating_sub(parts))
            }
            _ => false,
        }
    }

    /// How many parts of a node of this production stand before this place, where the next one is
    /// this symbol, if one is given.
    fn parts_before(self, production: usize, next: Option<Symbol>, at: usize) -> Option<usize>
        requires states { AreStates self.tables.now self.states.now }
        requires production { production < length self.grammar.now.grammar.productions }
    {
        let right = self.grammar.right(production);
        for (before, _) in right.iter().enumerate() {
            let parts = before.saturating_add(1);
            let fits = next.is_none() || right.get(parts).copied() == next;
            if fits && self.stands(production, parts, at) {
                return Some(parts);
            }
        }
        None
    }

    /// An open node of which some parts stand before this place, and the next one is this symbol,
    /// if one is given.
    fn node_before(self, next: Option<Symbol>, at: usize) -> Option<OpenNode>
        requires { AreStates self.tables.now self.states.now }
    {
        for production in 0..self.grammar.productions() {
            if let Some(parts) = self.parts_before(production, next, at) {
                return Some(OpenNode {
                    at: at.saturating_sub(parts),
                    production,
                    nonterminal: self.grammar.left(production),
                    parts,
                });
            }
        }
        None
    }

    /// Adds the nonterminals of nodes that may begin at this place with one of this nonterminal.
    fn add_outer(
        self,
        nonterminals: &mut Vec<usize>,
        inner: usize,
        at: usize,
    ) -> Result<(), AllocError>
        requires { AreStates self.tables.now self.states.now }
    {
        for production in 0..self.grammar.productions() {
            let first = self.grammar.right(production).first().copied();
            let left = self.grammar.left(production);
            if first == Some(Symbol::Nonterminal(inner))
                && !nonterminals.contains(&left)
                && self.begins(left, at)
            {
                nonterminals.push(left)?;
            }
        }
        Ok(())
    }

    /// The next open node around an open node that begins before it.
    fn around(self, node: OpenNode) -> Result<Option<OpenNode>, AllocError>
        requires { AreStates self.tables.now self.states.now }
    {
        let mut nonterminals = Vec::new(self.alloc);
        nonterminals.push(node.nonterminal)?;
        for k in 0..self.grammar.nonterminals() {
            let Some(inner) = nonterminals.get(k).copied() else {
                return Ok(None);
            };
            let outer = self.node_before(Some(Symbol::Nonterminal(inner)), node.at);
            if outer.is_some() {
                return Ok(outer);
            }
            self.add_outer(&mut nonterminals, inner, node.at)?;
        }
        Ok(None)
    }

    /// The open nodes, from inner to outer.
    fn open_nodes(self) -> Result<Vec<OpenNode>, AllocError>
        requires { AreStates self.tables.now self.states.now }
    {
        let mut nodes = Vec::new(self.alloc);
        let mut next = self.node_before(None, self.symbols.len());
        for _ in 0..self.symbols.len() {
            let Some(node) = next else {
                return Ok(nodes);
            };
            nodes.push(node)?;
            next = self.around(node)?;
        }
        Ok(nodes)
    }
}
