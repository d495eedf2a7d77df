//! Buckets of items. A bucket is a type of its own, since a contract sees a vector of buckets as a
//! list of lists.
ghost use Rattle.std.specs.Prelude.{◌≡◌, ◌∷◌, ◌++◌, ℕ, [], IfOk, OnOk, length, slice_index_or};

use std::alloc::{AllocError, Global};
use std::marker::Model;

/// Items in order.
#[derive(Drop)]
pub struct Bucket<T> {
    items: Vec<T>,
}

impl<T> Model for Bucket<T> {
    ghost use Rattle.std.specs.Prelude.{List};

    ghost Value = { List T };

    ghost view = { λ r. r.items.items };
}

impl<T: Drop> Bucket<T> {
    /// No item.
    fn new(alloc: Global) -> Bucket<T>
        ensures { result ≡ [] }
    {
        Bucket {
            items: Vec::new(alloc),
        }
    }

    /// Adds an item.
    pub fn add(&mut self, item: T) -> Result<(), AllocError>
        ensures { OnOk result (self.new ≡ self.old ++ item ∷ []) }
    {
        self.items.push(item)?;
        Ok(())
    }

    /// The items.
    pub fn items(&self) -> &[T]
        ensures { result.now ≡ self.now }
    {
        &self.items
    }
}

/// `count` empty buckets.
pub fn empty_buckets<T: Drop>(alloc: Global, count: usize) -> Result<Vec<Bucket<T>>, AllocError>
    ensures count { IfOk result (λ buckets. length buckets.items ≡ count) }
    ensures empty { IfOk result (λ buckets. (n : ℕ) → slice_index_or buckets.items n [] ≡ []) }
{
    let mut buckets = Vec::new(alloc);
    for _n in 0..count {
        buckets.push(Bucket::new(alloc))?;
    }
    Ok(buckets)
}
