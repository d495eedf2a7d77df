//! Whether an edit's number is above every stamp of some trees.

ghost use Rattle.std.specs.Prelude.{◌↔◌, length, IsTrue, IfOk};
ghost use Rattle.trees.specs.Cells.{AreBelow, all_trees};
ghost use Rattle.parser.specs.Stamps.{AreOlder};

use crate::input::Input;
use std::alloc::{AllocError, Global};
use trees::{Child, Children, Store};

/// Whether each branch of the trees of the children was made by an edit of a lower number. All of
/// them are looked at.
pub fn are_older(
    alloc: Global,
    store: &Store,
    children: &[Child],
    number: u64,
) -> Result<bool, AllocError>
    requires { AreBelow (length store.now) children.now }
    ensures { IfOk result
        (λ older. IsTrue older ↔ AreOlder number (all_trees store.now children.now)) }
{
    let mut rest = Input::new(alloc);
    rest.put_all(Children::of(children))?;
    'trees: while let Some(child) = rest.take() {
        if let Child::Node(id) = child {
            if store.born(id) >= number {
                return Ok(false);
            }
            rest.put_all(store.children(id))?;
        }
    }
    Ok(true)
}
