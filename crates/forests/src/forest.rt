//! Trees, and the way down them to one of their tokens.

ghost use Rattle.std.specs.Prelude.{◌≡◌, ◌<◌, None, Some, length, min};
ghost use Rattle.definitions.specs.Trees.{yield};
ghost use Rattle.definitions.specs.TreeEdits.{plain};
ghost use Rattle.trees.specs.Cells.{IsBelow, cell_of, most, tree};

use docs::Doc;
use mending::Mending;
use trees::{Child, Children, NodeId, Store};

/// Trees side by side, as they stand on a parser's stack. What their store doesn't have is a tree
/// of no tokens.
#[derive(Clone, Copy)]
pub struct Forest<'a> {
    pub store: &'a Store,
    pub roots: &'a [Child],
}

/// A node, and the place of its first token.
#[derive(Clone, Copy)]
pub struct Branch {
    pub id: NodeId,
    pub from: usize,
}

impl<'a> Forest<'a> {
    /// The trees of a document, of which the significant tokens have their numbers as places.
    pub fn of_document(doc: &'a Doc) -> Forest<'a>
        ensures { result.store.now ≡ doc.now.store }
    {
        Forest {
            store: doc.nodes(),
            roots: doc.parse().stack(),
        }
    }

    /// The trees of a mended copy, of which the kinds have their numbers in it as places.
    pub fn of_copy(mending: &'a Mending) -> Forest<'a>
        ensures { result.store.now ≡ mending.now.store }
    {
        Forest {
            store: mending.nodes(),
            roots: mending.parse().stack(),
        }
    }

    /// How many nodes the store has: those of the trees, or more.
    pub fn count(self) -> usize
        ensures { result ≡ length self.entry.store.now }
    {
        self.store.len()
    }

    /// How many tokens a tree has, or 18,446,744,073,709,551,615 where it has more.
    pub fn tokens(self, child: Child) -> usize
        ensures { let store = self.entry.store.now in IsBelow (length store) child
            → result ≡ min most (length (yield (plain (tree store child)))) }
    {
        match child {
            Child::Token(_) => 1,
            Child::Node(id) if id.index < self.store.len() => self.store.tokens(id) as usize,
            Child::Node(_) => 0,
        }
    }

    /// The production of a node; none where the store doesn't have it.
    pub fn production(self, branch: Branch) -> Option<usize>
        ensures { let store = self.entry.store.now in branch.id.index < length store
            → result ≡ Some (cell_of store branch.id).production }
    {
        if branch.id.index < self.store.len() {
            Some(self.store.production(branch.id))
        } else {
            None
        }
    }

    /// The children of a node; the trees themselves where none is given.
    pub fn siblings(self, branch: Option<Branch>) -> Children<'a>
        ensures { branch ≡ None → result ≡ self.entry.roots.now }
    {
        match branch {
            Some(branch) if branch.id.index < self.store.len() => self.store.children(branch.id),
            Some(_) => Children::of(&[]),
            None => Children::of(self.roots),
        }
    }

    /// The node of this tree, whose first token has the place `from`; none of a token.
    pub fn branch(self, child: Child, from: usize) -> Option<Branch> {
        match child {
            Child::Node(id) => Some(Branch { id, from }),
            Child::Token(_) => None,
        }
    }

    /// The node that has the token at this place, among the children of a node or the trees
    /// themselves; none where the token is itself one of these.
    pub fn below(self, branch: Option<Branch>, place: usize) -> Option<Branch> {
        let mut from = match branch {
            Some(branch) => branch.from,
            None => 0,
        };
        for child in self.siblings(branch) {
            let end = from.saturating_add(self.tokens(child));
            if place < end {
                return self.branch(child, from);
            }
            from = end;
        }
        None
    }

    /// The innermost node that has the token at this place.
    pub fn innermost(self, place: usize) -> Option<Branch> {
        let mut inner = None;
        'down: for _ in 0..self.store.len() {
            let Some(next) = self.below(inner, place) else {
                return inner;
            };
            inner = Some(next);
        }
        inner
    }
}
