//! Trees: `trees`.

ghost use Rattle.std.specs.Prelude.{◌≡◌, [], ◌+◌, length, IfOk, OnOk, OnErr, ℕ, min, ◌<◌, List, slice_get, IfSome, take, ◌≤◌, ◌↔◌, IsTrue};
ghost use Rattle.definitions.specs.TreeEdits.{StampedBranch, plain, StampedForest};
ghost use Rattle.trees.specs.declared.store.Child.{Child};
ghost use Rattle.trees.specs.Cells.{tree, forest_in, IsGrown, KeepsTrees, AreBelow, most, cell_of, IsBelow, IsStore, all_trees};
ghost use Rattle.definitions.specs.Trees.{yield};
ghost use Rattle.definitions.specs.Nodes.{branches};
ghost use Rattle.trees.specs.Compaction.{nodes, sizes};
ghost use Rattle.trees.specs.declared.store.NodeId.{NodeId};
ghost use Rattle.std.specs.Prelude.{⊤};

use std::alloc::{AllocError, Global};
use trees::{Child, Kind as TokenKind, Kinds, NodeId, Store};

/// `Child`.
pub fn child(child: Child) -> Option<NodeId> {
    match child {
        Child::Token(_) => None,
        Child::Node(id) => Some(id),
    }
}

/// `Store::new`.
pub fn new(alloc: Global) -> Store
    ensures { result ≡ [] }
{
    Store::new(alloc)
}

/// `Store::branch`.
pub fn branch(
    store: &mut Store,
    alloc: Global,
    production: usize,
    children: &[Child],
    born: u64,
) -> Result<NodeId, AllocError>
    requires { AreBelow (length store.old) children.now }
    ensures ok { IfOk result (λ id. IsGrown store.old production children.now born store.new id) }
    ensures tree { IfOk result (λ id.
        tree store.new (Child.Node id)
        ≡ StampedBranch production born (forest_in store.old children.now)) }
    ensures kept { OnOk result (KeepsTrees (length store.old) store.old store.new) }
    ensures count { OnOk result (length store.new ≡ length store.old + 1) }
    ensures err { OnErr result (store.new ≡ store.old) }
{
    store.branch(alloc, production, children, born)
}

/// `Store::tokens`.
pub fn tokens(store: &Store, id: NodeId) -> u64
    requires { id.index < length store.now }
    ensures is { result ≡ min most (length (yield (plain (tree store.now (Child.Node id))))) }
    ensures tree { (production born : ℕ) × (below : StampedForest) ×
        (tree store.now (Child.Node id) ≡ StampedBranch production born below) }
{
    store.tokens(id)
}

/// `Store::size`.
pub fn size(store: &Store, id: NodeId) -> u64
    requires { id.index < length store.now }
    ensures { result ≡ min most (branches (plain (tree store.now (Child.Node id)))) }
{
    store.size(id)
}

/// `Store::child`.
pub fn child_at(store: &Store, id: NodeId, k: usize) -> Option<Child>
    requires { id.index < length store.now }
    ensures is { result ≡ slice_get (cell_of store.now id).children k }
    ensures below { IfSome result (IsBelow id.index) }
    ensures tree { (production born : ℕ) × (children : List Child) ×
        (tree store.now (Child.Node id)
        ≡ StampedBranch production born (forest_in store.now children)) ×
        (result ≡ slice_get children k) }
    ensures store { IsStore store.now }
{
    store.child(id, k)
}

/// `Store::production`.
pub fn production(store: &Store, id: NodeId) -> usize
    requires { id.index < length store.now }
    ensures is { result ≡ (cell_of store.now id).production }
    ensures tree { (born : ℕ) × (below : StampedForest) ×
        (tree store.now (Child.Node id) ≡ StampedBranch result born below) }
{
    store.production(id)
}

/// `Store::born`.
pub fn born(store: &Store, id: NodeId) -> u64
    requires { id.index < length store.now }
    ensures is { result ≡ (cell_of store.now id).born }
    ensures tree { (production : ℕ) × (below : StampedForest) ×
        (tree store.now (Child.Node id) ≡ StampedBranch production result below) }
{
    store.born(id)
}

/// `Store::len`.
pub fn len(store: &Store) -> usize
    ensures is { result ≡ length store.now }
    ensures store { IsStore store.now }
{
    store.len()
}

/// `Store::truncate`.
pub fn truncate(store: &mut Store, n: usize)
    ensures cells { store.new ≡ take n store.old }
    ensures kept { KeepsTrees n store.old store.new }
    ensures count { length store.new ≡ min n (length store.old) }
{
    store.truncate(n);
}

/// `Store::compact`.
pub fn compact(store: &mut Store, alloc: Global, roots: &mut [NodeId]) -> Result<(), AllocError>
    requires { AreBelow (length store.old) (nodes roots.old) }
    ensures trees { OnOk result
        (all_trees store.new (nodes roots.new) ≡ all_trees store.old (nodes roots.old)) }
    ensures below { OnOk result (AreBelow (length store.new) (nodes roots.new)) }
    ensures shorter { OnOk result (length store.new ≤ length store.old) }
    ensures sizes { OnOk result (length store.new ≤ sizes store.old (nodes roots.old)) }
    ensures err { OnErr result ((store.new ≡ store.old) × (roots.new ≡ roots.old)) }
{
    store.compact(alloc, roots)
}

/// `Kinds::len`.
pub fn kinds_len<K: Kinds>(kinds: &K) -> usize
    ensures { result ≡ length (K.kinds kinds.now) }
{
    kinds.len()
}

/// `Kinds::kind`.
pub fn kind_at<K: Kinds>(kinds: &K, k: usize) -> Option<TokenKind>
    ensures { result ≡ slice_get (K.kinds kinds.now) k }
{
    kinds.kind(k)
}

/// Kinds in memory.
struct Listed<'a>(&'a [TokenKind]);

impl<'a> Kinds for Listed<'a> {
    type Ahead = ();

    ghost kinds = { λ s. s.0.now };

    ghost is_before = { λ s k ahead. ⊤ };

    fn len(&self) -> usize {
        self.0.len()
    }

    fn kind(&self, k: usize) -> Option<TokenKind> {
        self.0.get(k).copied()
    }

    fn ahead(&self, _k: usize) {}

    fn next(&self, _ahead: &mut (), k: usize) -> Option<TokenKind> {
        self.kind(k)
    }
}

/// `Kinds::ahead`.
pub fn kinds_ahead<K: Kinds>(kinds: &K, k: usize) -> K::Ahead
    ensures { K.is_before kinds.now k result }
{
    kinds.ahead(k)
}

/// `Kinds::next`.
pub fn next_kind<K: Kinds>(kinds: &K, ahead: &mut K::Ahead, k: usize) -> Option<TokenKind>
    requires { K.is_before kinds.now k ahead.old }
    ensures is { result ≡ slice_get (K.kinds kinds.now) k }
    ensures moved { K.is_before kinds.now (k + 1) ahead.new }
{
    kinds.next(ahead, k)
}

/// `equal_children_are_the_same`.
pub fn equal_children_are_the_same()
    ensures ids { (a b : NodeId) → IsTrue (⟦<trees::NodeId as PartialEq>⟧.eq a b) ↔ (a ≡ b) }
    ensures children { (a b : Child) → IsTrue (⟦<trees::Child as PartialEq>⟧.eq a b) ↔ (a ≡ b) }
{
    trees::laws::equal_children_are_the_same();
}
