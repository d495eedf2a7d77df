//! Laws of the definitions.

ghost use Rattle.std.specs.Prelude.{◌≡◌, ◌↔◌, ℕ, List, Some, None, Result, take, IsTrue};
ghost use Rattle.frames.specs.declared.fault.DeviceFault.{DeviceFault as Device};
ghost use Rattle.frames.specs.declared.fault.FrameFault.{FrameFault as Fault};
ghost use Rattle.frames.specs.Frames.{Tail, Splits, HasSplit, Continues, GoesOn};
ghost use Rattle.frames.specs.Header.{header_size, header_length, IsWhole, IsHeaderPart, IsHeaderLength};

use crate::fault::FrameFault;

/// Each stream is whole frames and a tail in exactly one way.
pub fn one_split()
    ensures some { (bytes : List ℕ) → HasSplit bytes }
    ensures at_most_one { (bytes : List ℕ) (cs ds : List (List ℕ)) (t u : Tail) →
        Splits bytes cs t → Splits bytes ds u → (cs ≡ ds) × (t ≡ u) }
{}

/// Whole frames stay as they are when their stream goes on: what the tail and the piece after it
/// make comes after them.
pub fn streams_go_on()
    ensures { (old : Tail) (piece : List ℕ) (contents : List (List ℕ)) (new : Tail) →
        Continues old piece contents new → GoesOn old piece contents new }
{}

/// `header_size` is the size of the header part, where there is one, and none where no prefix is a
/// whole header part.
pub fn shortest_header_part()
    ensures found { (bytes : List ℕ) (size : ℕ) →
        (header_size bytes ≡ Some size) ↔ IsHeaderPart bytes size }
    ensures none { (bytes : List ℕ) (n : ℕ) → header_size bytes ≡ None → ¬ IsWhole (take n bytes) }
{}

/// Of a whole header part, `header_length` computes what its field lines give: the first fault, or
/// the one length.
pub fn first_fault_decides()
    ensures { (part : List ℕ) (result : Result ℕ FrameFault) → IsWhole part →
        (header_length part ≡ result) ↔ IsHeaderLength part result }
{}

/// Faults are equal by `==` exactly where they are the same: no part of them is left out.
pub fn equal_faults_are_the_same()
    ensures devices { (a b : Device) →
        IsTrue (⟦<crate::DeviceFault as PartialEq>⟧.eq a b) ↔ (a ≡ b) }
    ensures frames { (a b : Fault) → IsTrue (⟦<crate::FrameFault as PartialEq>⟧.eq a b) ↔ (a ≡ b) }
{}
