//! Why a text was not read to its end.

ghost use Rattle.std.specs.Prelude.{◌≡◌};
ghost use Rattle.patterns.specs.Reading.{fault_at};

use crate::characters::Character;
use definitions::{PatternCause, PatternFault};
use std::alloc::{AllocError, AllocFailed};

/// A fault of the text, or that memory was refused.
#[derive(Clone, Copy)]
pub enum Refusal {
    /// The text is no pattern's.
    Fault(PatternFault),
    /// Memory was refused.
    Memory,
}

/// What was read, and the characters that are left.
pub type Read<'a, T> = Result<(T, &'a [Character]), Refusal>;

impl From<AllocError> for Refusal {
    ghost use Rattle.patterns.specs.declared.refusals.Refusal.TheVariants.{Memory};

    ghost from_gives = { λ _ e. e ≡ Memory };

    fn from(_: AllocError) -> Refusal {
        Refusal::Memory
    }
}

impl<T: Drop> From<AllocFailed<T>> for Refusal {
    ghost use Rattle.patterns.specs.declared.refusals.Refusal.TheVariants.{Memory};

    ghost from_gives = { λ _ e. e ≡ Memory };

    fn from(_: AllocFailed<T>) -> Refusal {
        Refusal::Memory
    }
}

/// The fault of this cause at this place.
pub fn fault(at: usize, cause: PatternCause) -> Refusal
    ensures { result ≡ fault_at at cause }
{
    Refusal::Fault(PatternFault { at, cause })
}
