//! The trees of a document, with the places of their tokens among the significant ones, or among
//! the kinds of its mended copy.

use definitions::{Kind, Symbol};
use docs::Language;
use grammar::Grammar;
use std::alloc::{AllocError, Global};
use trees::{Child, Children, NodeId, Store};

/// The nodes of a store, by the grammar of their language. What the store doesn't have is a tree
/// of no tokens.
#[derive(Clone, Copy)]
pub(crate) struct Nodes<'a> {
    grammar: &'a Grammar,
    store: &'a Store,
}

/// A tree, and the places of its first token and of the one after its last.
#[derive(Clone, Copy)]
pub(crate) struct Placed {
    pub(crate) child: Child,
    pub(crate) places: Places,
}

/// The places from the first up to the second.
#[derive(Clone, Copy)]
pub(crate) struct Places {
    pub(crate) from: usize,
    pub(crate) to: usize,
}

impl Places {
    /// Whether no token stands there.
    pub(crate) fn is_empty(self) -> bool {
        self.from >= self.to
    }
}

impl<'a> Nodes<'a> {
    /// The nodes of a store.
    pub(crate) fn of(language: &'a Language, store: &'a Store) -> Nodes<'a> {
        Nodes {
            grammar: language.grammar(),
            store,
        }
    }

    /// The production of a node.
    pub(crate) fn production(self, id: NodeId) -> Option<usize> {
        if id.index >= self.store.len() {
            return None;
        }
        let production = self.store.production(id);
        if production < self.grammar.productions() {
            Some(production)
        } else {
            None
        }
    }

    /// The nonterminal of a production.
    pub(crate) fn nonterminal(self, production: usize) -> Option<usize> {
        if production < self.grammar.productions() {
            Some(self.grammar.left(production))
        } else {
            None
        }
    }

    /// Whether nodes of this nonterminal fold.
    pub(crate) fn is_fold(self, nonterminal: usize) -> bool {
        self.grammar.is_fold(nonterminal)
    }

    /// How many nodes there are.
    pub(crate) fn count(self) -> usize {
        self.store.len()
    }

    /// The symbols of a production's right side.
    pub(crate) fn right(self, production: usize) -> &'a [Symbol] {
        if production < self.grammar.productions() {
            self.grammar.right(production)
        } else {
            &[]
        }
    }

    /// The symbol at the root of a tree; none of what matches no rule.
    pub(crate) fn symbol(self, child: Child) -> Option<Symbol> {
        match child {
            Child::Token(Kind::Rule(rule)) => Some(Symbol::Rule(rule)),
            Child::Token(Kind::Invalid) => None,
            Child::Node(id) => {
                let nonterminal = self.nonterminal(self.production(id)?)?;
                Some(Symbol::Nonterminal(nonterminal))
            }
        }
    }

    /// The children of a node.
    pub(crate) fn children(self, id: NodeId) -> Children<'a> {
        if id.index < self.store.len() {
            self.store.children(id)
        } else {
            Children::of(&[])
        }
    }

    /// The children of a node as a list.
    pub(crate) fn parts(self, alloc: Global, id: NodeId) -> Result<Vec<Child>, AllocError> {
        let mut parts = Vec::new(alloc);
        for child in self.children(id) {
            parts.push(child)?;
        }
        Ok(parts)
    }

    /// How many tokens a tree has.
    fn tokens(self, child: Child) -> usize {
        match child {
            Child::Token(_) => 1,
            Child::Node(id) if id.index < self.store.len() => self.store.tokens(id) as usize,
            Child::Node(_) => 0,
        }
    }

    /// How many tokens and nodes a tree has.
    pub(crate) fn trees(self, child: Child) -> usize {
        let nodes = match child {
            Child::Node(id) if id.index < self.store.len() => self.store.size(id) as usize,
            _ => 0,
        };
        self.tokens(child).saturating_add(nodes)
    }

    /// The tree whose first token has this place.
    pub(crate) fn placed(self, child: Child, from: usize) -> Placed {
        let to = from.saturating_add(self.tokens(child));
        Placed {
            child,
            places: Places { from, to },
        }
    }

    /// The tree that ends before the token at this place.
    pub(crate) fn placed_before(self, child: Child, to: usize) -> Placed {
        let from = to.saturating_sub(self.tokens(child));
        Placed {
            child,
            places: Places { from, to },
        }
    }
}
