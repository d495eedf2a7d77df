//! The numbers of productions, of a type of their own, so that none is taken for another number.

use std::marker::Model;

/// The number of a production: its place in the order in which they are pushed, from 0.
#[derive(Clone, Copy)]
pub struct ProductionNumber {
    /// The place.
    pub index: usize,
}

impl Model for ProductionNumber {
    ghost use Rattle.std.specs.Prelude.{ℕ};

    ghost Value = { ℕ };

    ghost view = { λ a. a.index };

    ghost inverse = { λ n. record { index = n } };
}
