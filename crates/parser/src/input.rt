//! The trees that are still to be read.

ghost use Rattle.std.specs.Prelude.{◌≡◌, ◌-◌, ◌≤◌, ◌<◌, List, [], ◌∷◌, ◌++◌, length, drop, IfOk, IfSome, MatchOption};
ghost use Rattle.definitions.specs.declared.Kind.{Kind as TokenKind};
ghost use Rattle.definitions.specs.Trees.{all_kinds};
ghost use Rattle.trees.specs.declared.store.Child.{Child};
ghost use Rattle.trees.specs.Cells.{AreBelow};
ghost use Rattle.parser.specs.Input.{BeginsWith, IsFull, IsOpened, Skips};
ghost use Rattle.parser.specs.Machine.{plain_of};

use definitions::Kind;
use std::alloc::{AllocError, Global};
use std::marker::Model;
use trees::{Child, Children, Store};

/// How many trees are looked at for a kind, from the first one on and from the root of one down.
const NEARBY: usize = 32;

/// A list of trees of a store. The first one stands last in the vector.
#[derive(Drop)]
pub struct Input {
    items: Vec<Child>,
}

impl Model for Input {
    ghost use Rattle.std.specs.Prelude.{List};
    ghost use Rattle.trees.specs.declared.store.Child.{Child};
    ghost use Rattle.parser.specs.Input.{backwards};

    ghost Value = { List Child };

    ghost view = { λ a. backwards a.items.items };
}

impl Input {
    /// The list of no trees.
    pub fn new(alloc: Global) -> Input
        ensures { result ≡ [] }
    {
        Input {
            items: Vec::new(alloc),
        }
    }

    /// How many trees there are.
    pub fn len(&self) -> usize
        ensures { result ≡ length self.now }
    {
        self.items.len()
    }

    /// The first tree, where there is one.
    pub fn first(&self) -> Option<Child>
        ensures { BeginsWith self.now result }
    {
        let n = self.items.len();
        if n == 0 {
            None
        } else {
            Some(self.items[n - 1])
        }
    }

    /// The kind with which the trees after the first one begin, where it is found nearby.
    pub fn second_kind(&self, store: &Store) -> Option<Kind>
        requires { AreBelow (length store.now) self.now }
        ensures { IfSome result
            (λ k. (first : Child) × (rest : List Child) × (more : List TokenKind)
            × (self.now ≡ first ∷ rest) × (all_kinds (plain_of store.now rest) ≡ k ∷ more)) }
    {
        let (_, mut after) = self.items.split_last()?;
        'empty: for _ in 0..NEARBY {
            let (next, rest) = after.split_last()?;
            match *next {
                Child::Token(kind) => return Some(kind),
                Child::Node(id) if store.tokens(id) > 0 => {
                    return first_kind(store, store.children(id));
                }
                Child::Node(_) => after = rest,
            }
        }
        None
    }

    /// Takes the first tree away.
    pub fn take(&mut self) -> Option<Child>
        ensures { MatchOption result ((self.old ≡ []) × (self.new ≡ []))
            (λ c. self.old ≡ c ∷ self.new) }
    {
        self.items.pop()
    }

    /// Puts a tree at the start.
    pub fn put(&mut self, child: Child) -> Result<(), AllocError>
        ensures { IfOk result (λ _. self.new ≡ child ∷ self.old) }
    {
        self.items.push(child)?;
        Ok(())
    }

    /// Puts a list at the start.
    pub fn put_all(&mut self, children: Children<'_>) -> Result<(), AllocError>
        ensures { IfOk result (λ _. self.new ≡ children.entry ++ self.old) }
    {
        for child in children.rev() {
            self.put(child)?;
        }
        Ok(())
    }

    /// Keeps the last `n` trees.
    pub fn keep(&mut self, n: usize)
        requires { n ≤ length self.old }
        ensures { self.new ≡ drop (length self.old - n) self.old }
    {
        self.items.truncate(n);
    }

    /// Takes the trees of no tokens away from the start.
    pub fn skip_empty(&mut self, store: &Store)
        requires { AreBelow (length store.now) self.old }
        ensures skips { Skips store.now self.old self.new }
        ensures full { IsFull store.now self.new }
    {
        'empty: while let Some(child) = self.first() {
            if store.tokens_of(child) > 0 {
                break;
            }
            self.take();
        }
    }

    /// Puts the list back of which the first tree was opened: that tree, where there was one, and
    /// the list's length are given.
    pub fn close(&mut self, first: Option<Child>, len: usize) -> Result<(), AllocError>
        requires { (before : List Child) × IsOpened before self.old × (len ≡ length before)
            × BeginsWith before first }
        ensures { (before : List Child) → IsOpened before self.old → len ≡ length before
            → BeginsWith before first → IfOk result (λ _. self.new ≡ before) }
    {
        if let Some(child) = first {
            self.keep(len - 1);
            self.put(child)?;
        }
        Ok(())
    }
}

/// The kind with which these trees begin, where it is found nearby.
fn first_kind<'a>(store: &'a Store, mut trees: Children<'a>) -> Option<Kind>
    requires { AreBelow (length store.now) trees }
    ensures { IfSome result (λ k. (more : List TokenKind)
        × (all_kinds (plain_of store.now trees.entry) ≡ k ∷ more)) }
{
    'edge: for _ in 0..NEARBY {
        match trees.next()? {
            Child::Token(kind) => return Some(kind),
            Child::Node(id) if store.tokens(id) > 0 => trees = store.children(id),
            Child::Node(_) => {}
        }
    }
    None
}
