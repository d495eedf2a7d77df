//! The LR(1) machine, which makes trees of what it reads, and takes over whole trees of its input
//! where it can.

ghost use Rattle.std.specs.Prelude.{◌≡◌, ℕ, ◌+◌, ◌-◌, ◌^◌, ◌<◌, ◌≤◌, List, [], ◌∷◌, ◌++◌, length, take, drop, slice_get, slice_index_or, Option, IfOk, MatchOption};
ghost use Rattle.definitions.specs.declared.Kind.{Kind as TokenKind};
ghost use Rattle.definitions.specs.declared.Symbol.{Symbol};
ghost use Rattle.definitions.specs.declared.Symbol.TheVariants.{Nonterminal};
ghost use Rattle.definitions.specs.Trees.{Tree, HaveRoots, IsTree, all_kinds, yield};
ghost use Rattle.definitions.specs.TreeEdits.{plain};
ghost use Rattle.definitions.specs.Items.{HasMove, Reduce as ReduceMove};
ghost use Rattle.trees.specs.declared.store.Child.{Child};
ghost use Rattle.trees.specs.Cells.{AreBelow, all_trees, tree};
ghost use Rattle.theory.specs.Machine.{Reduces};
ghost use Rattle.theory.specs.Reuse.{CanReuse};
ghost use Rattle.tables.specs.Tables.{IsAccepted, IsStateOf};
ghost use Rattle.parser.specs.Machine.{plain_of, HasMade, StandsOn};
ghost use Rattle.parser.specs.Input.{input_of, IsFull, IsInput, IsOpened};
ghost use Rattle.parser.specs.FirstInput.{Offers, IsReusable, IsOffer};
ghost use Rattle.parser.specs.Run.{CameFrom, ComeFrom, IsEdge, SoFar};
ghost use Rattle.parser.specs.Parses.{IsStoppedAt, verdict_of};

use crate::input::Input;
use crate::reader::Reader;
use definitions::Kind;
use std::alloc::{AllocError, Global};
use tables::{Move, Tables};
use trees::{Child, Kinds, NodeId, Store};

/// What stands at the start of the input.
#[derive(Clone, Copy)]
pub enum FirstInput {
    /// A tree to take over, and the state after it.
    Tree(NodeId, usize),
    /// A token of this kind, or the end.
    Next(Option<Kind>),
}

/// What stands at the start of the input, and what the input was before its left edge was opened.
#[derive(Clone, Copy)]
pub struct Edge {
    /// What is offered now.
    pub offer: FirstInput,
    /// The first tree before, where there was one.
    pub first: Option<Child>,
    /// How many trees there were.
    pub len: usize,
}

/// How the machine stopped.
#[derive(Clone, Copy)]
pub enum Halt {
    /// It has accepted: the tree of all tokens is on the stack.
    Accepted,
    /// The first token with which no sentence goes on, counted from 0.
    FaultAt(usize),
    /// All tokens begin some sentence, and they are none.
    FaultAtEnd,
}

/// The trees on the stack, the states below and above them, and the count of tokens read.
#[derive(Drop)]
pub struct Machine {
    pub stack: Vec<Child>,
    pub states: Vec<usize>,
    pub read: usize,
}

impl Machine {
    /// A machine that has read nothing.
    pub fn new(alloc: Global, tables: &Tables) -> Result<Machine, AllocError>
        ensures accepted { IsAccepted tables.now.grammar }
        ensures stack { IfOk result (λ m. m.stack.items ≡ []) }
        ensures states { IfOk result (λ m. (start : ℕ) × IsStateOf tables.now [] start
            × (m.states.items ≡ start ∷ [])) }
        ensures read { IfOk result (λ m. m.read ≡ 0) }
    {
        let start = tables.start();
        let mut states = Vec::new(alloc);
        states.push(start)?;
        Ok(Machine {
            stack: Vec::new(alloc),
            states,
            read: 0,
        })
    }

    /// The state above the stack.
    pub fn state(&self) -> usize
        requires { 0 < length self.now.states.items }
        ensures { result ≡ slice_index_or self.now.states.items (length self.now.states.items - 1)
            0 }
    {
        self.states[self.states.len() - 1]
    }

    fn push(&mut self, child: Child, state: usize) -> Result<(), AllocError>
        ensures stack { IfOk result
            (λ _. self.new.stack.items ≡ self.old.stack.items ++ child ∷ []) }
        ensures states { IfOk result
            (λ _. self.new.states.items ≡ self.old.states.items ++ state ∷ []) }
        ensures read { self.new.read ≡ self.old.read }
    {
        self.stack.push(child)?;
        self.states.push(state)?;
        Ok(())
    }

    /// The kind of the token after the first tree of the input. It is read from the next trees,
    /// where one of them begins with it not far down.
    fn kind_after<K: Kinds>(
        &self,
        store: &Store,
        kinds: &mut Reader<'_, K>,
        input: &Input,
        id: NodeId,
    ) -> Option<Kind>
        requires first { (rest : List Child) × (input.now ≡ Child.Node id ∷ rest) }
        requires below { AreBelow (length store.now) input.now }
        requires covers { all_kinds (input_of store.now input.now kinds.old self.now.read)
            ≡ drop self.now.read kinds.old }
        requires fits { self.now.read + length (yield (plain (tree store.now (Child.Node id))))
            ≤ length kinds.old }
        ensures is { result ≡ slice_get kinds.old
            (self.now.read + length (yield (plain (tree store.now (Child.Node id))))) }
        ensures same { kinds.new ≡ kinds.old }
    {
        // The read opens what the trait says of the kinds.
        let _count = kinds.len();
        if let Some(kind) = input.second_kind(store) {
            return Some(kind);
        }
        kinds.kind(self.read + store.tokens(id) as usize)
    }

    /// The state after the first tree of the input, where the tables have a move there on what
    /// follows it.
    fn passes<K: Kinds>(
        &self,
        tables: &Tables,
        store: &Store,
        kinds: &mut Reader<'_, K>,
        input: &Input,
        id: NodeId,
    ) -> Option<usize>
        requires states { StandsOn tables.now store.now self.now }
        requires first { (rest : List Child) × (input.now ≡ Child.Node id ∷ rest) }
        requires input { IsInput tables.now.grammar store.now input.now kinds.old self.now.read }
        requires root { let meant = plain (tree store.now (Child.Node id)) in
            (left : ℕ) × IsTree tables.now.grammar meant (Nonterminal left) }
        requires not_empty { 0 < length (yield (plain (tree store.now (Child.Node id)))) }
        requires fits { self.now.read + length (yield (plain (tree store.now (Child.Node id))))
            ≤ length kinds.old }
        ensures is { let stack = plain_of store.now self.now.stack.items in
            let meant = plain (tree store.now (Child.Node id)) in
            let after = drop (self.now.read + length (yield meant)) kinds.old in
            MatchOption result (CanReuse tables.now.grammar stack meant after → ⊥)
            (λ next. IsReusable tables.now store.now stack kinds.old self.now.read id next) }
        ensures same { kinds.new ≡ kinds.old }
    {
        let (root, _) = tables.production(store.production(id));
        let Some(next) = tables.goto(self.state(), root) else {
            return None;
        };
        let look = self.kind_after(store, kinds, input, id);
        if tables.action(next, look).is_some() {
            Some(next)
        } else {
            None
        }
    }

    /// Tries the nodes on the left edge of the input, from the top down. Those that fail are
    /// opened.
    fn first_input<K: Kinds>(
        &self,
        tables: &Tables,
        store: &Store,
        kinds: &mut Reader<'_, K>,
        input: &mut Input,
    ) -> Result<FirstInput, AllocError>
        requires states { StandsOn tables.now store.now self.now }
        requires input { IsInput tables.now.grammar store.now input.old kinds.old self.now.read }
        requires full { IsFull store.now input.old }
        ensures input { IfOk result (λ _. IsInput tables.now.grammar store.now input.new kinds.old
            self.now.read) }
        ensures opened { IfOk result (λ _. IsOpened input.old input.new) }
        ensures offers { let stack = plain_of store.now self.now.stack.items in
            let all = kinds.old in
            IfOk result (λ _. Offers tables.now.grammar stack
            (input_of store.now input.new all self.now.read)
            (input_of store.now input.old all self.now.read)) }
        ensures came { IfOk result
            (λ _. ComeFrom (all_trees store.now input.old) 0 (all_trees store.now input.new)) }
        ensures offer { let stack = plain_of store.now self.now.stack.items in
            let all = kinds.old in
            IfOk result (λ f. IsOffer tables.now store.now stack all self.now.read input.new f) }
        ensures same { kinds.new ≡ kinds.old }
    {
        'edge: while let Some(child) = input.first() {
            match child {
                Child::Token(kind) => return Ok(FirstInput::Next(Some(kind))),
                Child::Node(id) => {
                    if store.tokens(id) > 0 {
                        if let Some(next) = self.passes(tables, store, kinds, input, id) {
                            return Ok(FirstInput::Tree(id, next));
                        }
                        input.take();
                        input.put_all(store.children(id))?;
                    } else {
                        input.take();
                    }
                }
            }
        }
        Ok(FirstInput::Next(kinds.kind(self.read)))
    }

    /// Passes over the trees of no tokens, and tries the next one.
    fn edge<K: Kinds>(
        &self,
        tables: &Tables,
        store: &Store,
        kinds: &mut Reader<'_, K>,
        input: &mut Input,
    ) -> Result<Edge, AllocError>
        requires states { StandsOn tables.now store.now self.now }
        requires input { IsInput tables.now.grammar store.now input.old kinds.old self.now.read }
        ensures edge { let stack = plain_of store.now self.now.stack.items in IfOk result
            (IsEdge tables.now store.now stack kinds.old self.now.read input.old input.new) }
        ensures same { kinds.new ≡ kinds.old }
    {
        if input.len() == 0 {
            return Ok(Edge {
                offer: FirstInput::Next(kinds.kind(self.read)),
                first: None,
                len: 0,
            });
        }
        input.skip_empty(store);
        let first = input.first();
        let len = input.len();
        let offer = self.first_input(tables, store, kinds, input)?;
        Ok(Edge { offer, first, len })
    }

    /// Puts a branch in the place of the last trees, as many as its production's right side has
    /// symbols.
    fn reduce(
        &mut self,
        alloc: Global,
        tables: &Tables,
        store: &mut Store,
        production: usize,
        number: u64,
    ) -> Result<(), AllocError>
        requires states { StandsOn tables.now store.old self.old }
        requires below { AreBelow (length store.old) self.old.stack.items }
        requires called { (look : Option TokenKind) × (symbols : List Symbol)
            × HaveRoots tables.now.grammar (plain_of store.old self.old.stack.items) symbols
            × HasMove tables.now.grammar symbols look (ReduceMove production) }
        ensures reduced { let stack = plain_of store.old self.old.stack.items in
            (look : Option TokenKind) (symbols : List Symbol)
            → HaveRoots tables.now.grammar stack symbols
            → HasMove tables.now.grammar symbols look (ReduceMove production)
            → IfOk result (λ _. Reduces tables.now.grammar stack look
            (plain_of store.new self.new.stack.items)) }
        ensures states { IfOk result (λ _. StandsOn tables.now store.new self.new) }
        ensures read { self.new.read ≡ self.old.read }
        ensures grown { take (length store.old) store.new ≡ store.old }
        ensures room { IfOk result (λ _. length store.old < 2 ^ 64) }
        ensures made { IfOk result (λ _. HasMade store.old self.old.stack.items production number
            store.new self.new.stack.items) }
    {
        let (left, size) = tables.production(production);
        let below = self.stack.len() - size;
        let id = store.branch(alloc, production, &self.stack[below..], number)?;
        self.stack.truncate(below);
        self.states.truncate(below + 1);
        let Some(next) = tables.goto(self.state(), left) else {
            unreachable!();
        };
        self.push(Child::Node(id), next)?;
        Ok(())
    }

    /// Runs over the trees of the input, and the kinds that they don't cover, to the tree or to
    /// the fault. It stamps what it makes with the number.
    pub fn run<K: Kinds>(
        &mut self,
        alloc: Global,
        tables: &Tables,
        store: &mut Store,
        kinds: &mut Reader<'_, K>,
        mut input: Input,
        number: u64,
    ) -> Result<Halt, AllocError>
        requires accepted { IsAccepted tables.now.grammar }
        requires so_far { SoFar tables.now (input_of store.old input kinds.old 0)
            kinds.old (length store.old) number store.old self.old.stack.items
            self.old.states.items self.old.read input }
        requires came { let whole = all_trees store.old input in
            CameFrom whole (length store.old) number store.old self.old.stack.items
            self.old.read input }
        ensures stops { IfOk result
            (λ halt. IsStoppedAt tables.now kinds.old store.new
            (verdict_of halt self.new.stack.items) self.new.stack.items self.new.states.items) }
        ensures so_far { IfOk result (λ _. (rest : List Child)
            × SoFar tables.now (input_of store.old input kinds.old 0) kinds.old
            (length store.old) number store.new self.new.stack.items self.new.states.items
            self.new.read rest) }
        ensures came { let whole = all_trees store.old input in
            IfOk result (λ _. (rest : List Child)
            × CameFrom whole (length store.old) number store.new self.new.stack.items
            self.new.read rest) }
        ensures countable { IfOk result (λ _. length kinds.old < 2 ^ 64) }
        ensures grown { take (length store.old) store.new ≡ store.old }
    {
        let count = kinds.len();
        'moves: loop {
            let edge = self.edge(tables, store, kinds, &mut input)?;
            let look = match edge.offer {
                FirstInput::Tree(id, next) => {
                    input.take();
                    self.push(Child::Node(id), next)?;
                    self.read += store.tokens(id) as usize;
                    continue 'moves;
                }
                FirstInput::Next(look) => look,
            };
            match tables.action(self.state(), look) {
                Some(Move::Shift(next)) => {
                    let Some(kind) = look else {
                        unreachable!();
                    };
                    input.take();
                    self.push(Child::Token(kind), next)?;
                    self.read += 1;
                }
                Some(Move::Reduce(production)) => {
                    // a node that fails the test on this stack may pass it on the next one
                    input.close(edge.first, edge.len)?;
                    self.reduce(alloc, tables, store, production, number)?;
                }
                Some(Move::Accept) => return Ok(Halt::Accepted),
                None => {
                    return Ok(if self.read < count {
                        Halt::FaultAt(self.read)
                    } else {
                        Halt::FaultAtEnd
                    });
                }
            }
        }
    }
}
