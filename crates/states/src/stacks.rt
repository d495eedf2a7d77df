//! Stacks by number, which share what lies below.

ghost use Rattle.std.specs.Prelude.{◌≡◌, List, Option, IfOk};
ghost use Rattle.definitions.specs.declared.Kind.{Kind as TokenKind};
ghost use Rattle.definitions.specs.declared.Symbol.{Symbol};
ghost use Rattle.definitions.specs.Items.{HasMove, Reduce as ReduceMove};
ghost use Rattle.states.specs.Stacks.{IsReached};

use definitions::Kind;
use indexmap::IndexMap;
use std::alloc::{AllocError, Global};
use std::marker::Model;
use tables::{Expected, Move, Tables};

/// A state, and the number of the stack below it.
#[derive(Clone, Copy)]
struct Level {
    state: usize,
    below: usize,
}

/// Through how many of the stacks right on a stack one is looked for; behind these, by its hash.
const MOST_LINKS: usize = 16;

/// Which stacks lie right on a stack, by number. There is none with number 0.
#[derive(Clone, Copy)]
struct Links {
    /// The last one that came.
    last: usize,
    /// The one that came before this stack on the same one.
    before: usize,
}

/// Stacks by number. Equal ones have one number, and the one of no kinds has 0.
#[derive(Drop)]
pub struct Stacks<'a> {
    tables: &'a Tables,
    /// The topmost state of each stack.
    levels: Vec<Level>,
    links: Vec<Links>,
    /// The number of each stack but the first, by what lies below it and its state.
    known: IndexMap<(usize, usize), usize>,
    /// How many moves may be made yet.
    left: usize,
}

/// Adds the links of a stack of this number right on another one.
fn link(links: &mut Vec<Links>, below: usize, number: usize) -> Result<(), AllocError> {
    let before = match links.get(below) {
        Some(links) => links.last,
        None => 0,
    };
    links.push(Links { last: 0, before })?;
    if let Some(links) = links.get_mut(below) {
        links.last = number;
    }
    Ok(())
}

impl<'a> Model for Stacks<'a> {
    ghost use Rattle.tables.specs.Tables.{Sets};
    ghost use Rattle.states.specs.Stacks.{AreReached};

    ghost Value = { Sets };

    ghost view = { λ s. s.tables.now };

    ghost invariant = { λ s. AreReached s.tables.now s.levels.items };
}

impl<'a> Stacks<'a> {
    /// The stack of no kinds alone. No moves may be made yet.
    pub fn new(alloc: Global, tables: &'a Tables) -> Result<Stacks<'a>, AllocError>
        ensures { IfOk result (λ s. s ≡ tables.now) }
    {
        let mut levels = Vec::new(alloc);
        levels.push(Level {
            state: tables.start(),
            below: 0,
        })?;
        let mut links = Vec::new(alloc);
        links.push(Links { last: 0, before: 0 })?;
        Ok(Stacks {
            tables,
            levels,
            links,
            known: IndexMap::new(alloc),
            left: 0,
        })
    }

    /// Lets so many moves be made from now on. Where there are no more, nothing goes on.
    pub fn allow(&mut self, moves: usize)
        ensures { self.new ≡ self.old }
    {
        self.left = moves;
    }

    /// Whether no moves may be made any more.
    pub fn is_spent(&self) -> bool {
        self.left == 0
    }

    /// The topmost level of a stack; that of no kinds where no stack has the number.
    fn level(&self, stack: usize) -> Level
        ensures { IsReached self.now result.state }
    {
        match self.levels.get(stack) {
            Some(level) => *level,
            None => Level {
                state: self.tables.start(),
                below: 0,
            },
        }
    }

    /// The links of a stack.
    fn links(&self, stack: usize) -> Links {
        match self.links.get(stack) {
            Some(links) => *links,
            None => Links { last: 0, before: 0 },
        }
    }

    /// The number of the stack with one state more, if there is one.
    fn find(&self, below: usize, state: usize) -> Option<usize> {
        let mut at = self.links(below).last;
        for _ in 0..MOST_LINKS {
            if at == 0 {
                return None;
            }
            if self.level(at).state == state {
                return Some(at);
            }
            at = self.links(at).before;
        }
        self.known.get(&(below, state)).copied()
    }

    /// The number of the stack with one state more.
    pub fn push(&mut self, below: usize, state: usize) -> Result<usize, AllocError>
        requires { IsReached self.old state }
        ensures { self.new ≡ self.old }
    {
        if let Some(found) = self.find(below, state) {
            return Ok(found);
        }
        let number = self.levels.len();
        self.known.insert((below, state), number)?;
        link(&mut self.links, below, number)?;
        self.levels.push(Level { state, below })?;
        Ok(number)
    }

    /// The stack below so many states.
    fn below(&self, stack: usize, count: usize) -> usize {
        let mut below = stack;
        for _ in 0..count {
            below = self.level(below).below;
        }
        below
    }

    /// The stack with the left side of a production in the place of its right side.
    fn reduce(&mut self, stack: usize, production: usize) -> Result<Option<usize>, AllocError>
        requires { (look : Option TokenKind) × (symbols : List Symbol)
            × HasMove self.old.grammar symbols look (ReduceMove production) }
        ensures { self.new ≡ self.old }
    {
        let (symbol, size) = self.tables.production(production);
        let below = self.below(stack, size);
        match self.tables.goto(self.level(below).state, symbol) {
            Some(next) => Ok(Some(self.push(below, next)?)),
            None => Ok(None),
        }
    }

    /// The stack after one kind more, or before the end where there is none, if the grammar goes
    /// on with it.
    fn after(&mut self, stack: usize, look: Option<Kind>) -> Result<Option<usize>, AllocError>
        ensures { self.new ≡ self.old }
    {
        let mut at = stack;
        for _ in 0..self.left {
            self.left = self.left.saturating_sub(1);
            match self.tables.action(self.level(at).state, look) {
                Some(Move::Shift(next)) => return Ok(Some(self.push(at, next)?)),
                Some(Move::Reduce(production)) => match self.reduce(at, production)? {
                    Some(reduced) => at = reduced,
                    None => return Ok(None),
                },
                Some(Move::Accept) => return Ok(Some(at)),
                None => return Ok(None),
            }
        }
        Ok(None)
    }

    /// The stack after one kind more, if the grammar goes on with it.
    pub fn read(&mut self, stack: usize, kind: Kind) -> Result<Option<usize>, AllocError>
        ensures { self.new ≡ self.old }
    {
        self.after(stack, Some(kind))
    }

    /// Whether the end may follow.
    pub fn may_end(&mut self, stack: usize) -> Result<bool, AllocError>
        ensures { self.new ≡ self.old }
    {
        Ok(self.after(stack, None)?.is_some())
    }

    /// What may follow.
    pub fn expected(&self, stack: usize) -> Expected<'a> {
        self.tables.expects(self.level(stack).state)
    }
}
