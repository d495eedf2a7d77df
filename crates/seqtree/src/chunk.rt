//! What is needed of a type of chunks.

ghost use Rattle.std.specs.Prelude.{◌≡◌, ◌*◌, ◌<◌, ◌≤◌, ◌++◌, ℕ, List, IfOk};
ghost use Rattle.seqtree.specs.Chunks.{IsCutOff, IsMeasure};

use crate::Measured;
use std::alloc::{AllocError, Global};

/// Some items of a list, which lie together. Contracts see those of a chunk as `items`, those that
/// lie in no chunk as `list`, and the size of either as `size`.
pub trait Chunk: Measured {
    /// An item.
    type Item;
    /// Items that lie in no chunk.
    type Items: Drop;

    /// The least size of a chunk where items are cut into several.
    const SHORTEST: usize;
    /// The greatest size of a chunk.
    const LONGEST: usize;

    ghost SHORTEST: { ℕ };

    ghost LONGEST: { ℕ };

    ghost items: { Self → List Self.Item };

    ghost list: { Self.Items → List Self.Item };

    ghost size: { List Self.Item → ℕ };

    /// The size of items.
    fn size(whole: &Self::Items) -> usize
        ensures { result ≡ size (list whole.now) };

    /// Its items and, after them, those of `back`. Refuses for memory alone.
    fn before(&self, alloc: Global, back: Self::Items) -> Result<Self::Items, AllocError>
        ensures { IfOk result (λ both. list both ≡ items self.now ++ list back) };

    /// Those of `prefix` and, after them, its items. Refuses for memory alone.
    fn after(&self, alloc: Global, prefix: Self::Items) -> Result<Self::Items, AllocError>
        ensures { IfOk result (λ both. list both ≡ list prefix ++ items self.now) };

    /// Takes the last items off, and returns them in a chunk: at most the size `most`, at least
    /// `SHORTEST` where there is more than `most`, and otherwise all. Where there is more, `most`
    /// must be at least half of `LONGEST`. Refuses for memory alone.
    fn cut_off(whole: &mut Self::Items, most: usize) -> Result<Self, AllocError>
        requires some { 1 ≤ most }
        requires fits { most ≤ LONGEST }
        requires within { most ≤ size (list whole.old) }
        requires half { most < size (list whole.old) → LONGEST ≤ 2 * most }
        ensures { IfOk result (λ chunk.
            IsCutOff items size SHORTEST most (list whole.old) (list whole.new) chunk) };

    ghost laws: { IsMeasure size SHORTEST LONGEST };
}
