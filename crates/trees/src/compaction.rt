//! Compaction: a store keeps the nodes of some trees alone.

ghost use Rattle.std.specs.Prelude.{◌≡◌, ◌≤◌, length, OnOk, OnErr};
ghost use Rattle.trees.specs.Cells.{AreBelow, all_trees};
ghost use Rattle.trees.specs.Compaction.{nodes, sizes};

use crate::slide::{marked, ranks, rename_roots, slide};
use crate::store::{NodeId, Store};
use std::alloc::{AllocError, Global};

impl Store {
    /// Keeps the nodes of the trees of these roots alone, in their order, and renames the roots.
    /// No other id means anything then. A node that stands in several places stays one node.
    ///
    /// After a refusal the store and the roots are as before.
    pub fn compact(&mut self, alloc: Global, roots: &mut [NodeId]) -> Result<(), AllocError>
        requires { AreBelow (length self.old) (nodes roots.old) }
        ensures trees { OnOk result
            (all_trees self.new (nodes roots.new) ≡ all_trees self.old (nodes roots.old)) }
        ensures below { OnOk result (AreBelow (length self.new) (nodes roots.new)) }
        ensures shorter { OnOk result (length self.new ≤ length self.old) }
        ensures sizes { OnOk result (length self.new ≤ sizes self.old (nodes roots.old)) }
        ensures err { OnErr result ((self.new ≡ self.old) × (roots.new ≡ roots.old)) }
    {
        let marks = marked(alloc, &self.nodes, roots)?;
        let ranks = ranks(alloc, &marks)?;
        slide(&mut self.nodes, &marks, &ranks);
        rename_roots(roots, &ranks);
        Ok(())
    }
}
