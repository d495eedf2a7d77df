//! The kernels of the sets of items.
ghost use Rattle.std.specs.Prelude.{◌≡◌, ◌<◌, ◌⊎◌, ◌∷◌, ◌++◌, [], length, slice_index_or, IfOk, OnOk};
ghost use Rattle.item_sets.specs.Collection.{IsAbsent};

use crate::item::Item;
use crate::state_number::StateNumber;
use indexmap::IndexSet;
use std::alloc::{AllocError, Global};
use std::marker::Model;

/// The kernels of the sets found so far, each once, in the order in which they came up.
#[derive(Drop)]
pub struct Kernels {
    /// The kernels, each found by its hash.
    set: IndexSet<Vec<Item>>,
}

impl Model for Kernels {
    ghost use Rattle.std.specs.Prelude.{List, map};
    ghost use Rattle.item_sets.specs.declared.item.Item.{Item};

    ghost Value = { List (List Item) };

    ghost view = { λ a. map (λ v. v.items) a.set.keys };
}

impl Kernels {
    /// No kernel.
    pub fn new(alloc: Global) -> Kernels
        ensures { result ≡ [] }
    {
        Kernels {
            set: IndexSet::new(alloc),
        }
    }

    /// How many kernels there are.
    pub fn len(&self) -> usize
        ensures { result ≡ length self.now }
    {
        self.set.len()
    }

    /// The kernel with this number.
    pub fn kernel(&self, state: StateNumber) -> &[Item]
        requires { state < length self.now }
        ensures { result.now ≡ slice_index_or self.now state [] }
    {
        self.set.as_slice()[state.index].as_slice()
    }

    /// The place of a kernel, which is added at the end where it is new.
    fn add(&mut self, kernel: Vec<Item>) -> Result<StateNumber, AllocError>
        ensures place { IfOk result (λ s. (s < length self.new)
            × (slice_index_or self.new s [] ≡ kernel.items)) }
        ensures list { OnOk result ((self.new ≡ self.old)
            ⊎ ((self.new ≡ self.old ++ kernel.items ∷ []) × IsAbsent self.old kernel.items)) }
    {
        match self.set.insert_full(kernel) {
            Ok((index, _)) => Ok(StateNumber { index }),
            Err(_) => Err(AllocError),
        }
    }

    /// The place of a kernel, a copy of which is added at the end where it is new.
    pub fn place(&mut self, alloc: Global, kernel: &[Item]) -> Result<StateNumber, AllocError>
        ensures place { IfOk result (λ s. (s < length self.new)
            × (slice_index_or self.new s [] ≡ kernel.now)) }
        ensures list { OnOk result ((self.new ≡ self.old)
            ⊎ ((self.new ≡ self.old ++ kernel.now ∷ []) × IsAbsent self.old kernel.now)) }
    {
        if let Some(index) = self.set.get_index_of(kernel) {
            return Ok(StateNumber { index });
        }
        self.add(Vec::from_slice(alloc, kernel)?)
    }
}
