//! The stack of the machine after a token of a parsed text: the trees that stand before it, which
//! are found on the way from the parser's stack down to the token.

ghost use Rattle.std.specs.Prelude.{◌≡◌, ◌+◌, ◌-◌, ◌<◌, ◌^◌, ◌∷◌, ◌++◌, [], ℕ, List, IfOk, IfSome, length, take, true};
ghost use Rattle.definitions.specs.Trees.{AreTrees, IsTree, Tree, all_kinds, yield};
ghost use Rattle.definitions.specs.TreeEdits.{plain, plain_all};
ghost use Rattle.definitions.specs.declared.Kind.{Kind as TokenKind};
ghost use Rattle.definitions.specs.declared.Symbol.{Symbol};
ghost use Rattle.parser.specs.Machine.{HasStates, plain_of};
ghost use Rattle.parser.specs.Parses.{IsParseOf};
ghost use Rattle.tables.specs.Tables.{IsStateOf};
ghost use Rattle.trees.specs.Cells.{AreBelow, IsBelow, forest_in, tree};
ghost use Rattle.states.specs.Descents.{AreWays, IsEntered};
ghost use Rattle.states.specs.Piles.{AreStatesAfter};

use crate::pile::Pile;
use definitions::Kind;
use parser::Parse;
use std::alloc::{AllocError, Global};
use tables::{Move, Tables};
use trees::{Child, Children, Store};

/// A tree, and the place of a token among its own.
#[derive(Clone, Copy)]
pub(crate) struct Inside {
    pub(crate) child: Child,
    pub(crate) place: usize,
}

/// The state after a token that is put on the stack, if the tables put it there.
fn shifted(tables: &Tables, state: usize, kind: Kind) -> Option<usize>
    requires { (prefix : List Symbol) × IsStateOf tables.now prefix state }
    ensures { (prefix : List Symbol) (a : ℕ) → IsStateOf tables.now prefix state
        → kind ≡ Kind.Rule a
        → IfSome result (IsStateOf tables.now (prefix ++ Symbol.Rule a ∷ [])) }
{
    match tables.action(state, Some(kind)) {
        Some(Move::Shift(next)) => Some(next),
        _ => None,
    }
}

/// The state after a tree that is put on the stack, if the tables have one.
fn state_after(tables: &Tables, store: &Store, state: usize, child: Child) -> Option<usize>
    requires state { (prefix : List Symbol) × IsStateOf tables.now prefix state }
    requires below { IsBelow (length store.now) child }
    requires tree { (s : Symbol) × IsTree tables.now.grammar (plain (tree store.now child)) s }
    ensures { (prefix : List Symbol) (s : Symbol) → IsStateOf tables.now prefix state
        → IsTree tables.now.grammar (plain (tree store.now child)) s
        → IfSome result (IsStateOf tables.now (prefix ++ s ∷ [])) }
{
    match child {
        Child::Token(kind) => shifted(tables, state, kind),
        Child::Node(id) => {
            let (left, _) = tables.production(store.production(id));
            tables.goto(state, left)
        }
    }
}

impl<'a> Pile<'a> {
    /// Puts a tree on the stack. Whether the tables have a state after it.
    fn push_tree(&mut self, store: &Store, child: Child) -> Result<bool, AllocError>
        requires states { (stack : List Tree)
            × HasStates self.old.tables stack self.old.states }
        requires below { IsBelow (length store.now) child }
        requires tree { (s : Symbol)
            × IsTree self.old.tables.grammar (plain (tree store.now child)) s }
        ensures tables { self.new.tables ≡ self.old.tables }
        ensures pushed { (stack : List Tree) (s : Symbol)
            → HasStates self.old.tables stack self.old.states
            → IsTree self.old.tables.grammar (plain (tree store.now child)) s
            → IfOk result (λ pushed. pushed ≡ true → HasStates self.old.tables
            (stack ++ plain (tree store.now child) ∷ []) self.new.states) }
    {
        let Some(next) = state_after(self.tables, store, self.state(), child) else {
            return Ok(false);
        };
        self.put(next, store.tokens_of(child) as usize)?;
        Ok(true)
    }

    /// Puts the first of these trees on the stack, up to the one that has the token at this place,
    /// and returns that one.
    fn enter(
        &mut self,
        store: &Store,
        children: Children<'_>,
        place: usize,
    ) -> Result<Option<Inside>, AllocError>
        requires states { (stack : List Tree)
            × HasStates self.old.tables stack self.old.states }
        requires below { AreBelow (length store.now) children }
        requires trees { (ss : List Symbol)
            × AreTrees self.old.tables.grammar (plain_all (forest_in store.now children)) ss }
        requires few { place < 2 ^ 64 - 1 }
        ensures tables { self.new.tables ≡ self.old.tables }
        ensures entered { IfOk result (λ found. IfSome found (IsEntered self.old.tables store.now
            children.entry place self.old.states self.new.states)) }
    {
        let mut left = place;
        for child in children {
            let count = store.tokens_of(child);
            if (left as u64) < count {
                return Ok(Some(Inside { child, place: left }));
            }
            if !self.push_tree(store, child)? {
                return Ok(None);
            }
            left -= count as usize;
        }
        Ok(None)
    }
}

/// The stack of the machine that has just read the token at this place of the trees that stand on
/// a parser's stack, if it is there and the tables lead to it.
fn pile_at<'a>(
    alloc: Global,
    tables: &'a Tables,
    store: &Store,
    stack: &[Child],
    place: usize,
) -> Result<Option<Pile<'a>>, AllocError>
    requires below { AreBelow (length store.now) stack.now }
    requires trees { (ss : List Symbol)
        × AreTrees tables.now.grammar (plain_all (forest_in store.now stack.now)) ss }
    requires few { place < 2 ^ 64 - 1 }
    ensures tables { IfOk result (λ found. IfSome found (λ pile. pile.tables ≡ tables.now)) }
    ensures within { IfOk result (λ found. IfSome found (λ pile.
        place < length (all_kinds (plain_of store.now stack.now)))) }
    ensures states { (whole : Tree)
        → IsTree tables.now.grammar whole (Symbol.Nonterminal tables.now.grammar.start)
        → AreWays whole store.now stack.now → IfOk result (λ found. IfSome found (λ pile.
        AreStatesAfter tables.now (take (place + 1) (yield whole)) pile.states)) }
{
    let mut pile = Pile::new(alloc, tables)?;
    let found = pile.enter(store, Children::of(stack), place)?;
    let Some(mut inside) = found else {
        return Ok(None);
    };
    'down: for _ in 0..store.len().saturating_add(1) {
        let id = match inside.child {
            Child::Node(id) => id,
            Child::Token(_) => {
                if pile.push_tree(store, inside.child)? {
                    return Ok(Some(pile));
                }
                return Ok(None);
            }
        };
        let children = store.children(id);
        let found = pile.enter(store, children, inside.place)?;
        let Some(next) = found else {
            return Ok(None);
        };
        inside = next;
    }
    Ok(None)
}

impl<'a> Pile<'a> {
    /// The stack of the machine that has read the first `count` kinds of a parse, if its trees
    /// have them. It costs the way from the parser's stack down to the last of them. Refuses for
    /// memory alone.
    pub fn at(
        alloc: Global,
        tables: &'a Tables,
        store: &Store,
        parse: &Parse,
        count: usize,
    ) -> Result<Option<Pile<'a>>, AllocError>
        requires { (kinds : List TokenKind) × IsParseOf tables.now kinds store.now parse.now }
        ensures tables { IfOk result (λ found. IfSome found (λ pile. pile.tables ≡ tables.now)) }
        ensures after { (kinds : List TokenKind) → IsParseOf tables.now kinds store.now parse.now
            → IfOk result (λ found. IfSome found (λ pile.
            AreStatesAfter tables.now (take count kinds) pile.states)) }
    {
        let Some(place) = count.checked_sub(1) else {
            return Ok(Some(Pile::new(alloc, tables)?));
        };
        pile_at(alloc, tables, store, parse.stack(), place)
    }
}
