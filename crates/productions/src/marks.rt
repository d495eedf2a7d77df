//! Marks on numbers.
ghost use Rattle.std.specs.Prelude.{◌≡◌, ◌↔◌, ◌<◌, ℕ, Bool, true, false, length, IfOk, IsTrue, slice_index_or, slice_set};

use std::alloc::{AllocError, Global};
use std::marker::Model;

/// A truth value for each of some numbers.
#[derive(Drop)]
pub struct Marks {
    /// Whether each number is marked.
    bits: Vec<bool>,
    /// Whether some number is marked.
    some: bool,
}

impl Model for Marks {
    ghost use Rattle.std.specs.Prelude.{List, Bool, ℕ, false, ◌≡◌, ◌↔◌, slice_index_or};

    ghost Value = { List Bool };

    ghost view = { λ a. a.bits.items };

    ghost invariant = { λ a. (a.some ≡ false)
        ↔ ((i : ℕ) → slice_index_or a.bits.items i false ≡ false) };
}

impl Marks {
    /// So many numbers, none of which is marked.
    pub fn blank(alloc: Global, n: usize) -> Result<Marks, AllocError>
        ensures length { IfOk result (λ m. length m ≡ n) }
        ensures blank { IfOk result (λ m. (i : ℕ) → slice_index_or m i false ≡ false) }
    {
        let bits = vec![in alloc; false; n]?;
        Ok(Marks { bits, some: false })
    }

    /// Whether no number is marked.
    pub fn is_blank(&self) -> bool
        ensures { IsTrue result ↔ ((i : ℕ) → slice_index_or self.now i false ≡ false) }
    {
        !self.some
    }

    /// Whether the number is marked.
    pub fn has(&self, i: usize) -> bool
        requires { i < length self.now }
        ensures { result ≡ slice_index_or self.now i false }
    {
        self.bits[i]
    }

    /// Marks the number.
    pub fn mark(&mut self, i: usize)
        requires { i < length self.old }
        ensures { self.new ≡ slice_set self.old i true }
    {
        self.bits[i] = true;
        self.some = true;
    }
}
