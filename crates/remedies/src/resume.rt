//! Where something of the grammar begins anew, behind a fault that no few changes mend.

ghost use Rattle.std.specs.Prelude.{◌≡◌};

use crate::ahead::Ahead;
use states::{Pile, Stacks};
use std::alloc::{AllocError, Global};

/// Below how many trees a stack is looked at.
const MOST_TREES: usize = 64;

/// How many kinds have to go on behind a gap so that a fault behind them is another one.
const NEAR: usize = 32;

/// As how many kinds more a fault counts that comes sooner.
const SOON: usize = 24;

/// As how many kinds more another fault counts.
const LATER: usize = 4;

/// What is left out at a fault.
#[derive(Clone, Copy)]
pub struct Gap {
    /// How many kinds before it.
    pub before: usize,
    /// How many from it on.
    pub behind: usize,
}

/// A tree on the stack.
#[derive(Clone, Copy)]
pub struct Tree {
    /// The stack below it.
    stack: usize,
    /// How many kinds it has.
    kinds: usize,
}

/// A stack with which the kinds may go on.
#[derive(Clone, Copy)]
pub struct Base {
    stack: usize,
    /// How many kinds before the fault are left out.
    before: usize,
}

/// The number of the stack that is a pile. Adds its trees.
pub fn stack_of(
    stacks: &mut Stacks<'_>,
    pile: &Pile<'_>,
    trees: &mut Vec<Tree>,
) -> Result<usize, AllocError>
    requires { stacks.old ≡ pile.now.tables }
    ensures { stacks.new ≡ stacks.old }
{
    let (states, sizes) = (pile.states(), pile.sizes());
    let mut stack = 0;
    for number in 1..states.len() {
        let kinds = match sizes.get(number - 1) {
            Some(size) => *size,
            None => 0,
        };
        trees.push(Tree { stack, kinds })?;
        stack = stacks.push(stack, states[number])?;
    }
    Ok(stack)
}

/// The stack itself, and those below its last trees, the highest first. No more kinds than `most`
/// are left out.
pub fn bases(
    alloc: Global,
    stack: usize,
    trees: &[Tree],
    most: usize,
) -> Result<Vec<Base>, AllocError> {
    let mut bases = Vec::new(alloc);
    let mut before = 0usize;
    bases.push(Base { stack, before })?;
    for tree in trees.iter().rev() {
        before = before.saturating_add(tree.kinds);
        if most < before || MOST_TREES < bases.len() {
            break;
        }
        bases.push(Base {
            stack: tree.stack,
            before,
        })?;
    }
    Ok(bases)
}

/// A gap, and what it costs.
#[derive(Clone, Copy)]
struct Priced {
    gap: Gap,
    cost: usize,
}

/// What a gap costs: its kinds, and more where a fault comes behind it. None where not enough
/// kinds go on.
fn cost(ahead: &mut Ahead<'_>, base: Base, behind: usize) -> Result<Option<usize>, AllocError> {
    let reach = ahead.reach(base.stack, behind)?;
    if !ahead.is_enough(behind, reach) {
        return Ok(None);
    }
    let more = if reach == usize::MAX {
        0
    } else if behind.saturating_add(NEAR) <= reach {
        LATER
    } else {
        SOON
    };
    Ok(Some(base.before.saturating_add(behind).saturating_add(more)))
}

/// The cheaper one of the cheapest gap with so many kinds behind the fault, and of this one.
fn gap_behind(
    ahead: &mut Ahead<'_>,
    bases: &[Base],
    behind: usize,
    least: Priced,
) -> Result<Priced, AllocError> {
    let mut least = least;
    for base in bases {
        let before = base.before;
        if least.cost <= before.saturating_add(behind) {
            break;
        }
        if let Some(cost) = cost(ahead, *base, behind)?
            && cost < least.cost
        {
            let gap = Gap { before, behind };
            least = Priced { gap, cost };
        }
    }
    Ok(least)
}

/// The cheapest gap after which enough kinds go on; all kinds that are looked at where there is
/// none. A fault behind it costs as much as a few kinds, and more where it comes soon.
pub fn least_gap(ahead: &mut Ahead<'_>, bases: &[Base]) -> Result<Gap, AllocError> {
    let mut least = Priced {
        gap: Gap {
            before: 0,
            behind: ahead.kinds.len(),
        },
        cost: usize::MAX,
    };
    for behind in 0..=ahead.kinds.len() {
        if least.cost <= behind {
            break;
        }
        least = gap_behind(ahead, bases, behind, least)?;
    }
    Ok(least.gap)
}
