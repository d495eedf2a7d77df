//! What is proved of what is sent, as a contract of a function that does nothing.

ghost use Rattle.std.specs.Prelude.{◌≡◌, ◌↔◌, IsTrue};
ghost use Rattle.replies.specs.declared.reply.Log.{Log as Event};
ghost use Rattle.replies.specs.declared.reply.Loss.{Loss as Cause};
ghost use Rattle.replies.specs.declared.reply.Refusal.{Refusal as Refused};

/// Losses, log messages and refusals are equal by `==` exactly where they are the same: no part of
/// them is left out.
pub fn equal_refusals_are_the_same()
    ensures losses { (a b : Cause) → IsTrue (⟦<crate::Loss as PartialEq>⟧.eq a b) ↔ (a ≡ b) }
    ensures logs { (a b : Event) → IsTrue (⟦<crate::Log as PartialEq>⟧.eq a b) ↔ (a ≡ b) }
    ensures refusals { (a b : Refused) → IsTrue (⟦<crate::Refusal as PartialEq>⟧.eq a b) ↔ (a ≡ b) }
{}
