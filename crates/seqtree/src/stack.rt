//! A stack that lies in the value itself.
ghost use Rattle.std.specs.Prelude.{◌≡◌, ◌<◌, ◌++◌, ◌∷◌, [], length, IfSome, IfNone};

use std::marker::Model;

/// Up to 128 elements, the last one on top: as many as the nodes on the longest way down a tree.
/// Takes no memory.
#[derive(Drop)]
pub struct Stack<E: Copy> {
    /// The elements, from the lowest up, and after them free places.
    places: [E; 128],
    /// How many places are taken.
    len: usize,
}

impl<E: Copy> Model for Stack<E> {
    ghost use Rattle.std.specs.Prelude.{List, ◌≤◌, take};

    ghost Value = { List E };

    ghost view = { λ s. take s.len s.places };

    ghost invariant = { λ s. s.len ≤ 128 };
}

impl<E: Copy> Stack<E> {
    /// The stack with no element. `any` stands in the places that are free.
    pub fn new(any: E) -> Self
        ensures { result ≡ [] }
    {
        Stack {
            places: [any; 128],
            len: 0,
        }
    }

    /// Puts an element on top. There must be room.
    pub fn push(&mut self, element: E)
        requires { length self.old < 128 }
        ensures { self.new ≡ self.old ++ element ∷ [] }
    {
        self.places[self.len] = element;
        self.len += 1;
    }

    /// Takes the top element off, if there is one.
    pub fn pop(&mut self) -> Option<E>
        ensures some { IfSome result (λ e. self.old ≡ self.new ++ e ∷ []) }
        ensures none { IfNone result (self.old ≡ []) }
        ensures stays { IfNone result (self.new ≡ []) }
    {
        if self.len == 0 {
            return None;
        }
        self.len -= 1;
        Some(self.places[self.len])
    }
}
