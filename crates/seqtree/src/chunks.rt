//! A list in chunks.

ghost use Rattle.std.specs.Prelude.{◌≡◌, ◌+◌, ◌*◌, ◌^◌, ◌<◌, ◌≤◌, ◌++◌, List, [], length, take, drop, IfOk, OnOk, OnErr};
ghost use Rattle.seqtree.specs.Chunks.{joined, AreCut, AreFew, IsGap, HasRoom};

use crate::chunk::Chunk;
use crate::seq::{Seq, Slots};
use std::alloc::{AllocError, Global};
use std::marker::Model;

/// Chunks, one after another, of which at most one is small.
#[derive(Drop)]
pub struct Chunks<C: Chunk> {
    chunks: Seq<C>,
}

impl<C: Chunk> Model for Chunks<C> {
    ghost use Rattle.std.specs.Prelude.{List};
    ghost use Rattle.seqtree.specs.Chunks.{AreFew};

    ghost Value = { List C };

    ghost view = { λ c. c.chunks };

    ghost invariant = { λ c. AreFew C.items C.size C.SHORTEST C.LONGEST c.chunks };
}

impl<C: Chunk> Chunks<C> {
    /// The list with no chunk. Takes no memory.
    pub fn new() -> Self
        ensures { result ≡ [] }
    {
        Chunks { chunks: Seq::new() }
    }

    /// The chunks: few, but enough to hold their items.
    pub fn seq(&self) -> &Seq<C>
        ensures same { result.now ≡ self.now }
        ensures few { C.SHORTEST * length self.now ≤ C.size (joined C.items self.now) + C.SHORTEST }
        ensures enough { C.size (joined C.items self.now) ≤ C.LONGEST * length self.now }
    {
        &self.chunks
    }

    /// Puts items in the place of the chunks from `from` up to `to`, or to the end. Takes all
    /// memory before it changes anything, and refuses for memory alone; after a refusal the list
    /// is as before.
    pub fn replace(
        &mut self,
        alloc: Global,
        from: usize,
        to: usize,
        items: C::Items,
    ) -> Result<(), AllocError>
        requires ordered { from ≤ to }
        requires in_range { from ≤ length self.old }
        requires fits { C.size (joined C.items (take from self.old) ++ C.list items
            ++ joined C.items (drop to self.old)) < 2 ^ 64 }
        ensures list { OnOk result (joined C.items self.new
            ≡ joined C.items (take from self.old) ++ C.list items
            ++ joined C.items (drop to self.old)) }
        ensures unchanged { OnErr result (self.new ≡ self.old) }
    {
        let to = to.min(self.chunks.len());
        let gap = widen(alloc, &self.chunks, Gap { from, to, items })?;
        let cut = Slots::make(alloc, cut_up(alloc, gap.items)?)?;
        self.chunks.replace(gap.from, gap.to, cut);
        Ok(())
    }
}

/// The chunks `from..to` of a list, and the items that are to stand in their place.
#[derive(Drop)]
struct Gap<C: Chunk> {
    from: usize,
    to: usize,
    items: C::Items,
}

/// The gap with the chunk before it, or else the one after it, where its items are too few for one
/// of several chunks.
fn widen<C: Chunk>(alloc: Global, chunks: &Seq<C>, gap: Gap<C>) -> Result<Gap<C>, AllocError>
    requires ordered { gap.from ≤ gap.to }
    requires in_range { gap.to ≤ length chunks.now }
    ensures same { (list : List C.Item) →
        IsGap C.items chunks.now list gap.from gap.to (C.list gap.items) →
        IfOk result (λ g. IsGap C.items chunks.now list g.from g.to (C.list g.items)) }
    ensures room { AreFew C.items C.size C.SHORTEST C.LONGEST chunks.now → IfOk result (λ g.
        HasRoom C.items C.size C.SHORTEST chunks.now g.from g.to (C.list g.items)) }
{
    let Gap { from, to, items } = gap;
    if C::size(&items) >= C::SHORTEST {
        return Ok(Gap { from, to, items });
    }
    if from > 0 {
        let Some(chunk) = chunks.get(from - 1) else {
            unreachable!()
        };
        let items = chunk.before(alloc, items)?;
        return Ok(Gap {
            from: from - 1,
            to,
            items,
        });
    }
    if to < chunks.len() {
        let Some(chunk) = chunks.get(to) else {
            unreachable!()
        };
        let items = chunk.after(alloc, items)?;
        return Ok(Gap {
            from,
            to: to + 1,
            items,
        });
    }
    Ok(Gap { from, to, items })
}

/// Chunks with these items, none where there is no item. Each has at least `SHORTEST` where the
/// items have so much, and at most `LONGEST`; items of at most `LONGEST` are one chunk. Refuses
/// for memory alone.
pub fn cut_up<C: Chunk>(alloc: Global, items: C::Items) -> Result<Vec<C>, AllocError>
    ensures { IfOk result (λ chunks.
        AreCut C.items C.size C.SHORTEST C.LONGEST (C.list items) chunks.items) }
{
    let mut left = items;
    let mut chunks = Vec::new(alloc);
    while C::size(&left) > 0 {
        let most = last_size::<C>(C::size(&left));
        chunks.push(C::cut_off(&mut left, most)?)?;
    }
    chunks.reverse();
    Ok(chunks)
}

/// The greatest size of the last chunk of items of this size: all of it where they fit into one
/// chunk, and half of it where a full chunk would leave few.
fn last_size<C: Chunk>(size: usize) -> usize
    requires { 1 ≤ size }
    ensures some { 1 ≤ result }
    ensures fits { result ≤ C.LONGEST }
    ensures within { result ≤ size }
    ensures all { size ≤ C.LONGEST → result ≡ size }
    ensures half { result < size → C.LONGEST ≤ 2 * result }
    ensures left { result < size → result + C.SHORTEST ≤ size }
{
    if size <= C::LONGEST {
        size
    } else if size - C::LONGEST >= C::SHORTEST {
        C::LONGEST
    } else {
        size / 2
    }
}
