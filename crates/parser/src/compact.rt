//! The nodes of a parse, when its store has too many others.

ghost use Rattle.std.specs.Prelude.{◌≡◌, ◌*◌, ◌≤◌, List, length, IfOk, OnOk, OnErr};
ghost use Rattle.trees.specs.declared.store.NodeId.{NodeId};
ghost use Rattle.trees.specs.Cells.{AreBelow, all_trees};
ghost use Rattle.trees.specs.Compaction.{sizes};
ghost use Rattle.parser.specs.Compact.{node_ids, renamed};

use std::alloc::{AllocError, Global};
use trees::{Child, NodeId, Store};

/// The nodes among these children.
fn nodes_of(alloc: Global, children: &[Child]) -> Result<Vec<NodeId>, AllocError>
    ensures { IfOk result (λ ids. ids.items ≡ node_ids children.now) }
{
    let mut ids = Vec::new(alloc);
    for child in children {
        if let Child::Node(id) = *child {
            ids.push(id)?;
        }
    }
    Ok(ids)
}

/// Puts these names in the place of the nodes among the children, one after another.
fn rename(children: &mut [Child], names: &[NodeId])
    requires { length (node_ids children.old) ≤ length names.now }
    ensures { children.new ≡ renamed children.old names.now }
{
    let mut left = names;
    for child in children.iter_mut() {
        if let Child::Node(_) = *child {
            let Some((name, rest)) = left.split_first() else {
                unreachable!();
            };
            *child = Child::Node(*name);
            left = rest;
        }
    }
}

/// Keeps the nodes of the trees of these children alone in the store, and renames the children.
///
/// After a refusal the store and the children are as before.
pub fn compact(alloc: Global, store: &mut Store, children: &mut [Child]) -> Result<(), AllocError>
    requires { AreBelow (length store.old) children.old }
    ensures trees { OnOk result
        (all_trees store.new children.new ≡ all_trees store.old children.old) }
    ensures below { OnOk result (AreBelow (length store.new) children.new) }
    ensures sizes { OnOk result (length store.new ≤ sizes store.old children.old) }
    ensures names { OnOk result ((names : List NodeId)
        × (children.new ≡ renamed children.old names)) }
    ensures err { OnErr result ((store.new ≡ store.old) × (children.new ≡ children.old)) }
{
    let mut ids = nodes_of(alloc, children)?;
    keep(alloc, store, &mut ids, children)?;
    Ok(())
}

/// The same of children whose nodes these are.
fn keep(
    alloc: Global,
    store: &mut Store,
    ids: &mut [NodeId],
    children: &mut [Child],
) -> Result<(), AllocError>
    requires below { AreBelow (length store.old) children.old }
    requires ids { ids.old ≡ node_ids children.old }
    ensures trees { OnOk result
        (all_trees store.new children.new ≡ all_trees store.old children.old) }
    ensures below { OnOk result (AreBelow (length store.new) children.new) }
    ensures sizes { OnOk result (length store.new ≤ sizes store.old children.old) }
    ensures names { OnOk result (children.new ≡ renamed children.old ids.new) }
    ensures err { OnErr result ((store.new ≡ store.old) × (children.new ≡ children.old)) }
{
    store.compact(alloc, ids)?;
    rename(children, ids);
    Ok(())
}
