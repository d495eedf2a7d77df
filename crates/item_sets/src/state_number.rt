//! The numbers of states, of a type of their own, so that none is taken for another number.

use std::marker::Model;

/// The number of a state: its set's place in the order in which the sets are met, from 0.
#[derive(Clone, Copy)]
pub struct StateNumber {
    /// The place.
    pub index: usize,
}

impl Model for StateNumber {
    ghost use Rattle.std.specs.Prelude.{ℕ};

    ghost Value = { ℕ };

    ghost view = { λ a. a.index };

    ghost inverse = { λ n. record { index = n } };
}
