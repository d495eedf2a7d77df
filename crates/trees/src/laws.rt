//! What is proved of ids and children, as a contract of a function that does nothing.

ghost use Rattle.std.specs.Prelude.{◌≡◌, ◌↔◌, IsTrue};
ghost use Rattle.trees.specs.declared.store.Child.{Child};
ghost use Rattle.trees.specs.declared.store.NodeId.{NodeId};

/// Ids and children are equal by `==` exactly where they are the same: no part of them is left
/// out.
pub fn equal_children_are_the_same()
    ensures ids { (a b : NodeId) → IsTrue (⟦<crate::NodeId as PartialEq>⟧.eq a b) ↔ (a ≡ b) }
    ensures children { (a b : Child) → IsTrue (⟦<crate::Child as PartialEq>⟧.eq a b) ↔ (a ≡ b) }
{}
