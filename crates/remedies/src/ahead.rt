//! The kinds from a fault on, and how far they go on with a stack.

ghost use Rattle.std.specs.Prelude.{◌≡◌, IfOk};

use definitions::Kind;
use indexmap::IndexMap;
use states::Stacks;
use std::alloc::{AllocError, Global};
use tables::Tables;

/// How many kinds have to go on after the last change.
pub const ENOUGH: usize = 3;

/// How many kinds from a fault on are looked at.
pub const LOOK: usize = 256;

/// Of how many kinds it is remembered for one how far the kinds from it on go on.
const STEP: usize = 16;

/// The kinds from a fault on, as many as are looked at, and the stacks with which they are read.
#[derive(Drop)]
pub struct Ahead<'a> {
    alloc: Global,
    pub stacks: Stacks<'a>,
    pub kinds: &'a [Kind],
    /// Whether there are no others.
    all: bool,
    /// How far the kinds from a number on go on with a stack, where it is known.
    reaches: IndexMap<(usize, usize), usize>,
}

/// How far kinds go on.
#[derive(Clone, Copy)]
struct Walk {
    /// The number of the kind before which it stopped.
    number: usize,
    /// The stack there.
    stack: usize,
    /// How far it goes on from there, if that is known.
    reach: Option<usize>,
}

impl<'a> Ahead<'a> {
    /// The first of these kinds, and the stack of no kinds.
    pub fn new(
        alloc: Global,
        tables: &'a Tables,
        kinds: &'a [Kind],
    ) -> Result<Ahead<'a>, AllocError>
        ensures { IfOk result (λ a. a.stacks ≡ tables.now) }
    {
        let all = kinds.len() <= LOOK;
        Ok(Ahead {
            alloc,
            stacks: Stacks::new(alloc, tables)?,
            kinds: kinds.get(..LOOK).unwrap_or(kinds),
            all,
            reaches: IndexMap::new(alloc),
        })
    }

    /// The stack after the kind of a number, if there is one and it goes on.
    pub fn read(&mut self, stack: usize, number: usize) -> Result<Option<usize>, AllocError> {
        match self.kinds.get(number) {
            Some(kind) => self.stacks.read(stack, *kind),
            None => Ok(None),
        }
    }

    /// Reads kinds up to a place whose reach is known, to a fault, or to the last of them. What is
    /// passed is added.
    fn walk(&mut self, from: Walk, passed: &mut Vec<(usize, usize)>) -> Result<Walk, AllocError> {
        let mut at = from;
        for number in from.number..self.kinds.len() {
            if number % STEP == 0 {
                let place = (at.stack, number);
                if let Some(known) = self.reaches.get(&place) {
                    at.reach = Some(*known);
                    return Ok(at);
                }
                passed.push(place)?;
            }
            let Some(next) = self.read(at.stack, number)? else {
                at.reach = Some(number);
                return Ok(at);
            };
            at.stack = next;
            at.number = number.saturating_add(1);
        }
        Ok(at)
    }

    /// How far the kinds from number `from` on go on with a stack: the number of the first with
    /// which they don't, that of the end, where it may not come, or a greater one.
    pub fn reach(&mut self, stack: usize, from: usize) -> Result<usize, AllocError> {
        let mut passed = Vec::new(self.alloc);
        let first = Walk {
            number: from,
            stack,
            reach: None,
        };
        let last = self.walk(first, &mut passed)?;
        let reach = match last.reach {
            Some(reach) => reach,
            None if !self.all || self.stacks.may_end(last.stack)? => usize::MAX,
            None => self.kinds.len(),
        };
        for place in &passed {
            self.reaches.insert(*place, reach)?;
        }
        Ok(reach)
    }

    /// Whether kinds from number `from` on that go on so far are enough.
    pub fn is_enough(&self, from: usize, reach: usize) -> bool {
        from.saturating_add(ENOUGH) <= reach
    }
}
