//! The parse of a list of kinds.

ghost use Rattle.std.specs.Prelude.{◌≡◌, ℕ, ◌+◌, ◌≤◌, List, [], length, min, take, IfOk, OnErr};
ghost use Rattle.definitions.specs.declared.Kind.{Kind};
ghost use Rattle.definitions.specs.Nodes.{all_branches};
ghost use Rattle.definitions.specs.TokenEdits.{IsSpliced, plain_splice};
ghost use Rattle.trees.specs.declared.store.Child.{Child as PlainChild};
ghost use Rattle.trees.specs.Cells.{AreBelow, Cell, KeepsTrees, all_trees, forest_in, most};
ghost use Rattle.tables.specs.Tables.{IsAccepted, Sets};
ghost use Rattle.theory.specs.Reuse.{IsPrepared};
ghost use Rattle.parser.specs.Machine.{plain_of, AreMadeBy};
ghost use Rattle.parser.specs.Input.{input_of, IsInput};
ghost use Rattle.parser.specs.Run.{CameFrom, IsMadeByRun, MoveFrom};
ghost use Rattle.parser.specs.Stamps.{AddsNumbered, AreOlder};
ghost use Rattle.parser.specs.Changes.{IsParseAfter};
ghost use Rattle.parser.specs.Compact.{IsSameParse, bound};
ghost use Rattle.parser.specs.Parses.{AreExpectedAt, IsParseOf, verdict_in};

use crate::compact::compact;
use crate::input::Input;
use crate::machine::{Halt, Machine};
use crate::older::are_older;
use crate::prepare::prepare;
use crate::reader::Reader;
use definitions::KindSplice;
use std::alloc::{AllocError, Global};
use std::marker::Model;
use tables::{Expected, Tables};
use trees::{Child, Kinds, NodeId, Store};

/// What the kinds of a document's significant tokens mean.
#[derive(Clone, Copy, Debug, PartialEq, Eq)]
pub enum Verdict {
    /// The tree of all tokens.
    Tree(NodeId),
    /// The first token with which no sentence goes on, counted from 0.
    FaultAt(usize),
    /// All tokens begin some sentence, and they are none.
    FaultAtEnd,
}

/// The verdict on a list of kinds, and what the parser has made of it. It means something only
/// beside its tables, its kinds and the store that has its nodes.
#[derive(Drop)]
pub struct Parse {
    /// How the machine stopped.
    halt: Halt,
    /// The trees with which it stopped.
    stack: Vec<Child>,
    /// The state above the stack.
    state: usize,
    /// How many branches the trees of the stack have.
    branches: usize,
    /// How many of these branches the last edit made.
    built: usize,
    /// The number of that edit.
    number: u64,
}

impl Model for Parse {
    ghost use Rattle.parser.specs.Parses.{Stop, verdict_of};

    ghost Value = { Stop };

    ghost view = { λ p. record {
      verdict = verdict_of p.halt p.stack.items;
      stack = p.stack.items;
      state = p.state;
      branches = p.branches;
      built = p.built;
      number = p.number;
    } };
}

/// How many branches the trees of the children have. Memory is refused where they have
/// 18,446,744,073,709,551,615 or more, since the store's counts stop there.
fn branches_of(store: &Store, children: &[Child]) -> Result<usize, AllocError>
    requires { AreBelow (length store.now) children.now }
    ensures { IfOk result (λ n. n ≡ all_branches (plain_of store.now children.now)) }
{
    let mut branches = 0u64;
    for child in children {
        branches = branches.saturating_add(store.size_of(*child));
    }
    if branches == u64::MAX {
        return Err(AllocError);
    }
    Ok(branches as usize)
}

/// How many nodes a store may have for a parse of so many branches.
fn bound(branches: usize) -> usize
    ensures { result ≡ min most (bound branches) }
{
    branches.saturating_mul(2).saturating_add(1024)
}

/// The parse of the kinds, over trees that begin at the first of them. Its new nodes have this
/// number. After a refusal some nodes may stay.
fn parse_from<K: Kinds>(
    alloc: Global,
    tables: &Tables,
    store: &mut Store,
    kinds: &K,
    input: Input,
    number: u64,
) -> Result<Parse, AllocError>
    requires input { IsInput tables.now.grammar store.old input (K.kinds kinds.now) 0 }
    requires older { AreOlder number (all_trees store.old input) }
    ensures accepted { IsAccepted tables.now.grammar }
    ensures parse { IfOk result (λ p. IsParseOf tables.now (K.kinds kinds.now) store.new p) }
    ensures run { IfOk result
        (λ p. IsMadeByRun tables.now (input_of store.old input (K.kinds kinds.now) 0)
        (K.kinds kinds.now) (length store.old) number store.new p.stack) }
    ensures came { let whole = all_trees store.old input in IfOk result
        (λ p. (read : ℕ) × (rest : List PlainChild)
        × CameFrom whole (length store.old) number store.new p.stack read rest) }
    ensures grown { take (length store.old) store.new ≡ store.old }
    ensures number { IfOk result (λ p. p.number ≡ number) }
    ensures count { IfOk result (λ p. length store.new ≡ length store.old + p.built) }
{
    let before = store.len();
    let mut machine = Machine::new(alloc, tables)?;
    let mut reader = Reader::new(kinds);
    let halt = machine.run(alloc, tables, store, &mut reader, input, number)?;
    let state = machine.state();
    let branches = branches_of(store, &machine.stack)?;
    Ok(Parse {
        halt,
        stack: machine.stack,
        state,
        branches,
        built: store.len() - before,
        number,
    })
}

impl Parse {
    /// The parse of the kinds. Its nodes are made by edit 0, and stand after all others of the
    /// store; no others are added.
    ///
    /// After a refusal the store is as before.
    pub fn whole<K: Kinds>(
        alloc: Global,
        tables: &Tables,
        store: &mut Store,
        kinds: &K,
    ) -> Result<Parse, AllocError>
        ensures parse { IfOk result (λ p. IsParseOf tables.now (K.kinds kinds.now) store.new p) }
        ensures stamps { IfOk result (λ p. AreMadeBy 0 (forest_in store.new p.stack)) }
        ensures grown { take (length store.old) store.new ≡ store.old }
        ensures count { IfOk result
            (λ p. length store.new ≡ length store.old + all_branches (plain_of store.new p.stack)) }
        ensures added { IfOk result
            (λ p. AddsNumbered 0 store.old store.new (all_trees store.new p.stack)) }
        ensures built { IfOk result (λ p. p.built ≡ all_branches (plain_of store.new p.stack)) }
        ensures number { IfOk result (λ p. p.number ≡ 0) }
        ensures kept { KeepsTrees (length store.old) store.old store.new }
        ensures refused { OnErr result (store.new ≡ store.old) }
    {
        let before = store.len();
        match parse_from(alloc, tables, store, kinds, Input::new(alloc), 0) {
            Ok(parse) => Ok(parse),
            Err(refusal) => {
                store.truncate(before);
                Err(refusal)
            }
        }
    }

    /// The parse after a splice of the kinds, as edit `number`. It takes over each old node that
    /// the splice leaves as it was, where it can stand as it is among the new ones, with the
    /// stamps that it has. New nodes carry the number, and stand after all others of the store; no
    /// others are added. Where the number is not above every stamp of the old nodes, everything is
    /// built anew.
    ///
    /// The store holds this parse alone: where it would have too many nodes, those of no tree of
    /// the stack are given up, and the others get other names. After a refusal parse and store are
    /// as before.
    pub fn change<K: Kinds>(
        &mut self,
        alloc: Global,
        tables: &Tables,
        store: &mut Store,
        kinds: &K,
        splice: KindSplice,
        number: u64,
    ) -> Result<(), AllocError>
        requires { (old : List Kind) × IsParseOf tables.now old store.old self.old
            × IsSpliced (plain_splice splice) old (K.kinds kinds.now) }
        ensures changed { let change = plain_splice splice in
            let kinds = K.kinds kinds.now in
            let old = self.old in
            IfOk result
            (λ _. IsParseAfter tables.now kinds change number store.old old store.new self.new) }
        ensures refused { OnErr result ((self.new ≡ self.old) × (store.new ≡ store.old)) }
    {
        let before = store.len();
        match self.parse_after(alloc, tables, store, kinds, &splice, number) {
            Ok(parse) => {
                *self = parse;
                Ok(())
            }
            Err(refusal) => {
                store.truncate(before);
                Err(refusal)
            }
        }
    }

    /// The parse after the splice, beside this one. Where memory is refused, some nodes may stay.
    fn parse_after<K: Kinds>(
        &self,
        alloc: Global,
        tables: &Tables,
        store: &mut Store,
        kinds: &K,
        splice: &KindSplice,
        number: u64,
    ) -> Result<Parse, AllocError>
        requires { (old : List Kind) × IsParseOf tables.now old store.old self.now
            × IsSpliced (plain_splice splice.now) old (K.kinds kinds.now) }
        ensures changed { let change = plain_splice splice.now in
            let kinds = K.kinds kinds.now in
            let old = self.now in
            IfOk result (IsParseAfter tables.now kinds change number store.old old store.new) }
        ensures refused { OnErr result (take (length store.old) store.new ≡ store.old) }
    {
        let input = self.remaining_input(alloc, store, splice, number)?;
        let parse = parse_from(alloc, tables, store, kinds, input, number)?;
        parse.within_bound(alloc, store)
    }

    /// This parse, in a store within the bound: where there are more nodes, those of no tree of
    /// the stack are given up.
    ///
    /// After a refusal the store is as before.
    fn within_bound(mut self, alloc: Global, store: &mut Store) -> Result<Parse, AllocError>
        requires below { AreBelow (length store.old) self.stack }
        requires branches { self.branches ≡ all_branches (plain_of store.old self.stack) }
        ensures same { IfOk result (IsSameParse store.old self store.new) }
        ensures bound { IfOk result (λ p. length store.new ≤ bound p.branches) }
        ensures kept { length store.old ≤ bound self.branches → store.new ≡ store.old }
        ensures refused { OnErr result (store.new ≡ store.old) }
    {
        if store.len() <= bound(self.branches) {
            return Ok(self);
        }
        compact(alloc, store, &mut self.stack)?;
        Ok(self)
    }

    /// What the splice leaves of the trees of the stack, with the new kinds between. It is nothing
    /// where the number is not above every stamp of theirs.
    fn remaining_input(
        &self,
        alloc: Global,
        store: &Store,
        splice: &KindSplice,
        number: u64,
    ) -> Result<Input, AllocError>
        requires { (t : Sets) × (old : List Kind) × (new : List Kind)
            × IsParseOf t old store.now self.now × IsSpliced (plain_splice splice.now) old new }
        ensures input { (t : Sets) (old new : List Kind) → IsParseOf t old store.now self.now
            → IsSpliced (plain_splice splice.now) old new
            → IfOk result (λ input. IsInput t.grammar store.now input new 0) }
        ensures older { IfOk result (λ input. AreOlder number (all_trees store.now input)) }
        ensures moved { let change = plain_splice splice.now in
            let trees = all_trees store.now self.now.stack in
            IfOk result (λ input. MoveFrom change trees (all_trees store.now input)) }
        ensures anew { ¬ AreOlder number (all_trees store.now self.now.stack)
            → IfOk result (λ input. input ≡ []) }
        ensures prepared { let change = plain_splice splice.now in
            let trees = plain_of store.now self.now.stack in
            AreOlder number (all_trees store.now self.now.stack) → (kinds : List Kind)
            → IfOk result (λ input. IsPrepared change trees (input_of store.now input kinds 0)) }
    {
        if number <= self.number && !are_older(alloc, store, &self.stack, number)? {
            return Ok(Input::new(alloc));
        }
        prepare(alloc, store, &self.stack, splice)
    }

    /// The tree, or the fault.
    pub fn verdict(&self) -> Verdict
        ensures { result ≡ self.now.verdict }
    {
        match (self.halt, self.stack.first()) {
            (Halt::Accepted, Some(Child::Node(id))) => Verdict::Tree(*id),
            (Halt::FaultAt(k), _) => Verdict::FaultAt(k),
            _ => Verdict::FaultAtEnd,
        }
    }

    /// The tree alone; or at a fault the settled trees of the tokens before it, and after them the
    /// last of these tokens, if there is any.
    pub fn stack(&self) -> &[Child]
        ensures { result.now ≡ self.now.stack }
    {
        &self.stack
    }

    /// How many branches the trees of the stack have, and how many of these the last edit built. A
    /// whole parse builds all of them.
    pub fn counts(&self) -> (usize, usize)
        ensures branches { result.0 ≡ self.now.branches }
        ensures built { result.1 ≡ self.now.built }
    {
        (self.branches, self.built)
    }

    /// The number of the last edit. A whole parse is edit 0.
    pub fn number(&self) -> u64
        ensures { result ≡ self.now.number }
    {
        self.number
    }

    /// What may stand at the fault, after the tokens before it: the token rules in file order, and
    /// then the end. Where there is a tree, nothing may. The tables are those of the parse. It
    /// takes no memory.
    pub fn expected<'a>(&self, tables: &'a Tables) -> Expected<'a>
        requires { (kinds : List Kind) × (cells : List Cell)
            × IsParseOf tables.now kinds cells self.now }
        ensures { (kinds : List Kind) (cells : List Cell)
            → IsParseOf tables.now kinds cells self.now
            → AreExpectedAt tables.now.grammar kinds (verdict_in cells self.now.verdict) result }
    {
        match self.verdict() {
            Verdict::Tree(_) => Expected::nothing(),
            Verdict::FaultAt(_) | Verdict::FaultAtEnd => tables.expects(self.state),
        }
    }
}
