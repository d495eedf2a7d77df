//! A list in a balanced tree that knows the sum of each of its parts: a place is found by a sum,
//! and a part replaced, in a number of steps that grows with the logarithm of the length.
//!
//! `Seq::new` is an empty list; `replace` puts items in the place of others, and returns those
//! that were there. `Slots::make` allocates the memory that new items need beforehand, so
//! `replace` takes none and can't fail. `total` is the sum of all, and `locate` finds the least
//! place where a sum from the left reaches a `Goal`; `find` returns the item there too. `Chunks`
//! is a list whose items lie in chunks, so that a node of a `Seq` holds many: its `replace` puts
//! items in the place of some chunks, and cuts them into chunks with their neighbour's where they
//! alone would be too few. `cut_up` is the chunks of items.
//!
//! Words: the items are `Measured`, by a sum that is a `Monoid`: here the pieces of a text, by
//! their characters and breaks. A *chunk* is some items that lie together, by the trait `Chunk`;
//! its *size* is a number that adds up as items are joined, and it is *small* where that is less
//! than `SHORTEST`.
//!
//! Limits: as many items as `usize` counts. `replace`, `get`, `locate` and `find` take steps
//! logarithmic in the length, and `replace` also one for each new item. Of chunks at most one is
//! small, and none has more than `LONGEST`.
//!
//! ```
//! let mut pieces: Seq<Piece> = Seq::new();
//! let text = String::from_str(alloc, "1+2").ok()?;
//! let slots = Slots::make(alloc, cut_up(alloc, text).ok()?).ok()?;
//! let _gone = pieces.replace(0, 0, slots);
//! println!(rt; "{} piece", pieces.len()).ok()?;
//! // 1 piece
//! ```
#![tactic(auto)]

ghost use Rattle.std.specs.Prelude.{◌≡◌, Bool};
ghost use Rattle.seqtree.specs.Monoid.{MonoidLaws};
ghost use Rattle.seqtree.specs.Goal.{StaysReached};

mod chunk;
mod chunks;
mod found;
mod iter;
mod seq;
mod stack;
mod tree;

pub use chunk::Chunk;
pub use chunks::{Chunks, cut_up};
pub use found::Found;
pub use iter::Iter;
pub use seq::{Seq, Slots};

/// A type with an associative operation and its unit.
pub trait Monoid: Drop {
    ghost empty: { Self };

    ghost op: { Self → Self → Self };

    /// The unit.
    fn zero() -> Self
        ensures { result ≡ empty };

    /// The operation on both.
    fn join(&self, other: &Self) -> Self
        ensures { result ≡ op self.now other.now };

    ghost laws: { MonoidLaws empty op };
}

/// An item that has a measure.
pub trait Measured: Drop {
    type Sum: Monoid;

    ghost measure: { Self → Self.Sum };

    /// Its measure.
    fn sum(&self) -> Self::Sum
        ensures { result ≡ measure self.now };
}

/// What a sum may reach. It stays reached as more items are joined on.
pub trait Goal<S: Monoid> {
    ghost reaches: { Self → S → Bool };

    /// Whether the sum reaches it.
    fn reached(&self, sum: &S) -> bool
        ensures { result ≡ reaches self.now sum.now };

    ghost stays: { StaysReached S.op reaches };
}
