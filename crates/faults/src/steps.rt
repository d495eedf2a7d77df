//! What changes of kinds do at each place of a text.

use mending::Change;
use std::alloc::{AllocError, Global};

/// What is done at one place of a text.
#[derive(Debug, Drop)]
pub(crate) struct Step {
    /// The number of the significant token before which it is done.
    pub(crate) at: usize,
    /// The rules whose tokens are put in.
    pub(crate) put_in: Vec<usize>,
    /// How many tokens are left out, from that number on.
    pub(crate) left_out: usize,
}

/// What these changes do, from the significant token of this number on, in the order of the text.
pub(crate) fn steps(
    alloc: Global,
    from: usize,
    changes: &[Change],
) -> Result<Vec<Step>, AllocError> {
    let mut steps = Vec::new(alloc);
    let mut here = nothing(alloc, from);
    for change in changes {
        match change {
            Change::PutIn(rule) => here.put_in.push(*rule)?,
            Change::LeaveOut => here.left_out = here.left_out.saturating_add(1),
            Change::Keep => {
                let next = here.at.saturating_add(here.left_out).saturating_add(1);
                add(&mut steps, here)?;
                here = nothing(alloc, next);
            }
        }
    }
    add(&mut steps, here)?;
    Ok(steps)
}

/// Nothing, at this place.
fn nothing(alloc: Global, at: usize) -> Step {
    Step {
        at,
        put_in: Vec::new(alloc),
        left_out: 0,
    }
}

/// Adds a step in which something is done.
fn add(steps: &mut Vec<Step>, step: Step) -> Result<(), AllocError> {
    if step.put_in.is_empty() && step.left_out == 0 {
        return Ok(());
    }
    steps.push(step)?;
    Ok(())
}
