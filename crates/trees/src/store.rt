//! The store of nodes.

ghost use Rattle.std.specs.Prelude.{◌≡◌, ℕ, ◌+◌, ◌<◌, [], List, length, take, min, slice_get, IfOk, IfSome, OnOk, OnErr};
ghost use Rattle.definitions.specs.Trees.{yield};
ghost use Rattle.definitions.specs.Nodes.{branches};
ghost use Rattle.definitions.specs.TreeEdits.{plain, StampedBranch, StampedForest};
ghost use Rattle.trees.specs.declared.store.Child.{Child};
ghost use Rattle.trees.specs.Cells.{cell_of, most, tree, forest_in, trees_from, forest_of, IsBelow, AreBelow, IsStore, IsGrown, KeepsTrees, tokens_below, branches_below};

use crate::children::Children;
use crate::node::{Label, Node};
use definitions::Kind;
use std::alloc::{AllocError, Global};
use std::marker::Model;

/// The number of a node in its store.
#[derive(Clone, Copy, Debug, PartialEq, Eq)]
pub struct NodeId {
    pub index: usize,
}

/// A child of a node.
#[derive(Clone, Copy, Debug, PartialEq, Eq)]
pub enum Child {
    /// A token, of this kind.
    Token(Kind),
    /// An earlier node of the same store.
    Node(NodeId),
}

impl Default for Child {
    ghost use Rattle.definitions.specs.declared.Kind.{Kind as KindOf};

    ghost is_default = { λ child. child ≡ Child.Token KindOf.Invalid };

    /// An invalid token.
    fn default() -> Child {
        Child::Token(Kind::Invalid)
    }
}

/// The nodes of trees, each after those of its children.
///
/// A [`NodeId`] means one tree until the store is cut at or below it, or compacted. No calls but
/// [`with_capacity`](Store::with_capacity), [`branch`](Store::branch) and
/// [`compact`](Store::compact) take memory.
#[derive(Drop)]
pub struct Store {
    pub(crate) nodes: Vec<Node>,
}

impl Model for Store {
    ghost use Rattle.std.specs.Prelude.{List};
    ghost use Rattle.trees.specs.Cells.{Cell, IsStore};

    ghost Value = { List Cell };

    ghost view = { λ s. s.nodes.items };

    ghost invariant = { λ s. IsStore s.nodes.items };
}

impl Store {
    /// A store of no nodes.
    pub fn new(alloc: Global) -> Store
        ensures { result ≡ [] }
    {
        Store {
            nodes: Vec::new(alloc),
        }
    }

    /// A store of no nodes, with room for so many.
    pub fn with_capacity(alloc: Global, nodes: usize) -> Result<Store, AllocError>
        ensures { IfOk result (λ store. store ≡ []) }
    {
        let nodes = Vec::with_capacity(alloc, nodes)?;
        Ok(Store { nodes })
    }

    /// How many nodes there are. Each id below it names one.
    pub fn len(&self) -> usize
        ensures is { result ≡ length self.now }
        ensures store { IsStore self.now }
    {
        self.nodes.len()
    }

    /// The number of the production of a node.
    pub fn production(&self, id: NodeId) -> usize
        requires { id.index < length self.now }
        ensures is { result ≡ (cell_of self.now id).production }
        ensures tree { (born : ℕ) × (below : StampedForest) ×
            (tree self.now (Child.Node id) ≡ StampedBranch result born below) }
    {
        self.nodes[id.index].label().production
    }

    /// The number of the edit that made a node.
    pub fn born(&self, id: NodeId) -> u64
        requires { id.index < length self.now }
        ensures is { result ≡ (cell_of self.now id).born }
        ensures tree { (production : ℕ) × (below : StampedForest) ×
            (tree self.now (Child.Node id) ≡ StampedBranch production result below) }
    {
        self.nodes[id.index].label().born
    }

    /// How many tokens the tree of a node has, or 18,446,744,073,709,551,615 where it has more.
    pub fn tokens(&self, id: NodeId) -> u64
        requires { id.index < length self.now }
        ensures is { result ≡ min most (length (yield (plain (tree self.now (Child.Node id))))) }
        ensures tree { (production born : ℕ) × (below : StampedForest) ×
            (tree self.now (Child.Node id) ≡ StampedBranch production born below) }
    {
        self.nodes[id.index].label().tokens
    }

    /// How many branches the tree of a node has, itself among them, or 18,446,744,073,709,551,615
    /// where it has more.
    pub fn size(&self, id: NodeId) -> u64
        requires { id.index < length self.now }
        ensures { result ≡ min most (branches (plain (tree self.now (Child.Node id)))) }
    {
        self.nodes[id.index].label().size
    }

    /// Child number `k` of a node, counted from 0; none past the last one.
    pub fn child(&self, id: NodeId, k: usize) -> Option<Child>
        requires { id.index < length self.now }
        ensures is { result ≡ slice_get (cell_of self.now id).children k }
        ensures below { IfSome result (IsBelow id.index) }
        ensures tree { (production born : ℕ) × (children : List Child) ×
            (tree self.now (Child.Node id)
            ≡ StampedBranch production born (forest_in self.now children)) ×
            (result ≡ slice_get children k) }
        ensures store { IsStore self.now }
    {
        self.nodes[id.index].children().get(k)
    }

    /// The children of a node, in order.
    pub fn children(&self, id: NodeId) -> Children<'_>
        requires { id.index < length self.now }
        ensures is { result ≡ (cell_of self.now id).children }
        ensures below { AreBelow id.index result }
        ensures tree { (production born : ℕ) ×
            (tree self.now (Child.Node id)
            ≡ StampedBranch production born (forest_of (trees_from [] self.now) result)) }
    {
        self.nodes[id.index].children()
    }

    /// How many tokens the tree of a child has, or 18,446,744,073,709,551,615 where it has more.
    pub fn tokens_of(&self, child: Child) -> u64
        requires { IsBelow (length self.now) child }
        ensures { result ≡ min most (length (yield (plain (tree self.now child)))) }
    {
        match child {
            Child::Token(_) => 1,
            Child::Node(id) => self.tokens(id),
        }
    }

    /// How many branches the tree of a child has, or 18,446,744,073,709,551,615 where it has more.
    pub fn size_of(&self, child: Child) -> u64
        requires { IsBelow (length self.now) child }
        ensures { result ≡ min most (branches (plain (tree self.now child))) }
    {
        match child {
            Child::Token(_) => 0,
            Child::Node(id) => self.size(id),
        }
    }

    /// How many tokens and branches a node over these children has.
    fn counts(&self, children: &[Child]) -> (u64, u64)
        requires { AreBelow (length self.now) children.now }
        ensures tokens { result.0 ≡ min most (tokens_below self.now children.now) }
        ensures size { result.1 ≡ min most (1 + branches_below self.now children.now) }
    {
        let mut tokens = 0u64;
        let mut size = 1u64;
        for child in children {
            tokens = tokens.saturating_add(self.tokens_of(*child));
            size = size.saturating_add(self.size_of(*child));
        }
        (tokens, size)
    }

    /// Adds the node of a production over these children, made by edit number `born`, and returns
    /// its id.
    ///
    /// After a refusal the store is as before.
    pub fn branch(
        &mut self,
        alloc: Global,
        production: usize,
        children: &[Child],
        born: u64,
    ) -> Result<NodeId, AllocError>
        requires { AreBelow (length self.old) children.now }
        ensures ok { IfOk result (λ id. IsGrown self.old production children.now born self.new id) }
        ensures tree { IfOk result (λ id.
            tree self.new (Child.Node id)
            ≡ StampedBranch production born (forest_in self.old children.now)) }
        ensures kept { OnOk result (KeepsTrees (length self.old) self.old self.new) }
        ensures count { OnOk result (length self.new ≡ length self.old + 1) }
        ensures err { OnErr result (self.new ≡ self.old) }
    {
        let (tokens, size) = self.counts(children);
        let label = Label {
            production,
            born,
            tokens,
            size,
        };
        let node = Node::new(alloc, label, children)?;
        let index = self.len();
        self.nodes.push(node)?;
        Ok(NodeId { index })
    }

    /// Keeps the first `n` nodes, or all where there are no more, and forgets the others.
    pub fn truncate(&mut self, n: usize)
        ensures cells { self.new ≡ take n self.old }
        ensures kept { KeepsTrees n self.old self.new }
        ensures count { length self.new ≡ min n (length self.old) }
    {
        self.nodes.truncate(n);
    }
}
