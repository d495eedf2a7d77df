//! The stack of the machine that has read some kinds.

ghost use Rattle.std.specs.Prelude.{◌≡◌, ◌-◌, ◌<◌, ◌≤◌, ◌∷◌, ◌++◌, All, List, Option, [], Some, IfOk, MatchBool, MatchOption, OnOk, false, length, slice_index_or, take, true};
ghost use Rattle.definitions.specs.Items.{HasMove, Reduce as ReduceMove};
ghost use Rattle.definitions.specs.Sentences.{IsViable};
ghost use Rattle.definitions.specs.declared.Kind.{Kind as TokenKind};
ghost use Rattle.definitions.specs.declared.Symbol.{Symbol};
ghost use Rattle.tables.specs.Expected.{AreExpected};
ghost use Rattle.states.specs.Piles.{AreStatesAfter, AreStatesOn};
ghost use Rattle.states.specs.Stacks.{IsReached};

use definitions::Kind;
use std::alloc::{AllocError, Global};
use std::marker::Model;
use tables::{Expected, Move, Tables};

/// How many moves are made at most before a kind is read; past them memory is refused. No grammar
/// calls for so many.
const MOST_MOVES: usize = usize::MAX;

/// The states below and above the trees on the stack of a machine, and how many kinds each tree
/// has.
#[derive(Drop)]
pub struct Pile<'a> {
    pub(crate) tables: &'a Tables,
    states: Vec<usize>,
    sizes: Vec<usize>,
}

impl<'a> Model for Pile<'a> {
    ghost use Rattle.std.specs.Prelude.{◌<◌, All, length};
    ghost use Rattle.tables.specs.Tables.{IsAccepted};
    ghost use Rattle.states.specs.Piles.{Standing};
    ghost use Rattle.states.specs.Stacks.{IsReached};

    ghost Value = { Standing };

    ghost view = { λ p. record {
      tables = p.tables.now;
      states = p.states.items;
    } };

    ghost invariant = { λ p. IsAccepted p.tables.now.grammar × (0 < length p.states.items)
        × All (IsReached p.tables.now) p.states.items };
}

/// Takes so many of the last numbers away, and returns their sum.
fn take_last(numbers: &mut Vec<usize>, count: usize) -> usize {
    let mut sum = 0usize;
    for _ in 0..count {
        sum = sum.saturating_add(numbers.pop().unwrap_or(0));
    }
    sum
}

impl<'a> Pile<'a> {
    /// The stack before any kind.
    pub fn new(alloc: Global, tables: &'a Tables) -> Result<Pile<'a>, AllocError>
        ensures tables { IfOk result (λ p. p.tables ≡ tables.now) }
        ensures after { IfOk result (λ p. AreStatesAfter tables.now [] p.states) }
    {
        let mut states = Vec::new(alloc);
        states.push(tables.start())?;
        Ok(Pile {
            tables,
            states,
            sizes: Vec::new(alloc),
        })
    }

    /// The state above the stack.
    pub(crate) fn state(&self) -> usize
        ensures is { result ≡ slice_index_or self.now.states (length self.now.states - 1) 0 }
        ensures reached { IsReached self.now.tables result }
    {
        self.states[self.states.len() - 1]
    }

    /// Puts a tree of so many kinds on the stack, with this state above it.
    pub(crate) fn put(&mut self, state: usize, kinds: usize) -> Result<(), AllocError>
        requires { IsReached self.old.tables state }
        ensures tables { self.new.tables ≡ self.old.tables }
        ensures states { OnOk result (self.new.states ≡ self.old.states ++ state ∷ []) }
    {
        self.sizes.push(kinds)?;
        self.states.push(state)?;
        Ok(())
    }

    /// Takes so many trees off the stack, and returns how many kinds they have; none where it
    /// doesn't have as many.
    fn take(&mut self, count: usize) -> Option<usize>
        ensures tables { self.new.tables ≡ self.old.tables }
        ensures states { MatchOption result (length self.old.states ≤ count)
            (λ _. self.new.states ≡ take (length self.old.states - count) self.old.states) }
    {
        let left = self.states.len().checked_sub(count)?;
        if left == 0 {
            return None;
        }
        self.states.truncate(left);
        Some(take_last(&mut self.sizes, count))
    }

    /// Puts the left side of a production in the place of its right side. Whether it stands there.
    fn reduce(&mut self, production: usize) -> Result<bool, AllocError>
        requires { (look : Option TokenKind) × (symbols : List Symbol)
            × HasMove self.old.tables.grammar symbols look (ReduceMove production) }
        ensures tables { self.new.tables ≡ self.old.tables }
        ensures reduced { (x : List TokenKind) (k : TokenKind)
            (on : AreStatesOn self.old.tables x k self.old.states)
            → HasMove self.old.tables.grammar on.has.symbols (Some k) (ReduceMove production)
            → IfOk result (λ done. (done ≡ true)
            × AreStatesOn self.old.tables x k self.new.states) }
    {
        let (symbol, size) = self.tables.production(production);
        let Some(kinds) = self.take(size) else {
            return Ok(false);
        };
        let Some(next) = self.tables.goto(self.state(), symbol) else {
            return Ok(false);
        };
        self.put(next, kinds)?;
        Ok(true)
    }

    /// Reads one kind more. Whether some sentence goes on with it: where none does, the stack
    /// stays as it is.
    pub fn read(&mut self, kind: Kind) -> Result<bool, AllocError>
        ensures tables { self.new.tables ≡ self.old.tables }
        ensures after { (x : List TokenKind) → AreStatesAfter self.old.tables x self.old.states
            → IfOk result (λ goes_on. goes_on ≡ true
            → AreStatesAfter self.old.tables (x ++ kind ∷ []) self.new.states) }
        ensures goes_on { (x : List TokenKind)
            → AreStatesAfter self.old.tables x self.old.states
            → let g = self.old.tables.grammar in let more = x ++ kind ∷ [] in
            IfOk result (λ goes_on. MatchBool goes_on (IsViable g more) (¬ IsViable g more)) }
        ensures stays { (x : List TokenKind) → AreStatesAfter self.old.tables x self.old.states
            → IfOk result (λ goes_on. goes_on ≡ false → self.new.states ≡ self.old.states) }
    {
        for _ in 0..MOST_MOVES {
            match self.tables.action(self.state(), Some(kind)) {
                Some(Move::Shift(next)) => {
                    self.put(next, 1)?;
                    return Ok(true);
                }
                Some(Move::Reduce(production)) => {
                    if !self.reduce(production)? {
                        return Ok(false);
                    }
                }
                // The end alone is accepted.
                Some(Move::Accept) => return Ok(false),
                None => return Ok(false),
            }
        }
        Err(AllocError)
    }

    /// Reads kinds, one after the other, up to the first with which no sentence goes on. Whether
    /// there is none.
    pub fn read_all(&mut self, kinds: &[Kind]) -> Result<bool, AllocError>
        ensures tables { self.new.tables ≡ self.old.tables }
        ensures after { (x : List TokenKind) → AreStatesAfter self.old.tables x self.old.states
            → IfOk result (λ go_on. go_on ≡ true
            → AreStatesAfter self.old.tables (x ++ kinds.now) self.new.states) }
        ensures go_on { (x : List TokenKind) → AreStatesAfter self.old.tables x self.old.states
            → let g = self.old.tables.grammar in let all = x ++ kinds.now in
            IfOk result (λ go_on. MatchBool go_on (IsViable g all) (¬ IsViable g all)) }
    {
        // The read opens the invariant.
        let _tables = self.tables;
        for kind in kinds {
            if !self.read(*kind)? {
                return Ok(false);
            }
        }
        Ok(true)
    }

    /// What may follow, in file order, and then the end.
    pub fn expected(&self) -> Expected<'a>
        ensures { (x : List TokenKind) → AreStatesAfter self.now.tables x self.now.states
            → AreExpected self.now.tables.grammar x result }
    {
        self.tables.expects(self.state())
    }

    /// The tables.
    pub fn tables(&self) -> &'a Tables
        ensures { result.now ≡ self.now.tables }
    {
        self.tables
    }

    /// The states, from the one before any tree on.
    pub fn states(&self) -> &[usize]
        ensures is { result.now ≡ self.now.states }
        ensures reached { All (IsReached self.now.tables) result.now }
    {
        &self.states
    }

    /// How many kinds each tree has, the lowest first.
    pub fn sizes(&self) -> &[usize] {
        &self.sizes
    }

    /// Another one that is the same.
    pub fn copy(&self, alloc: Global) -> Result<Pile<'a>, AllocError>
        ensures { IfOk result (λ p. p ≡ self.now) }
    {
        Ok(Pile {
            tables: self.tables,
            states: Vec::from_slice(alloc, &self.states)?,
            sizes: Vec::from_slice(alloc, &self.sizes)?,
        })
    }
}
