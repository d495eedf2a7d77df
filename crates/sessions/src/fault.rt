//! Why a session ends without a status.

ghost use Rattle.std.specs.Prelude.{◌≡◌};
ghost use Rattle.sessions.specs.declared.fault.RunFault.TheVariants.{Memory};

use frames::FrameFault;
use std::alloc::AllocError;
use thiserror::Error;

/// Why a session over two devices ended without a status.
#[derive(Clone, Copy, Debug, PartialEq, Eq, Error)]
pub enum RunFault {
    /// The stream is no sequence of frames, or ends within one.
    #[error(transparent)]
    Frame(FrameFault),
    /// The input failed.
    #[error("the input failed")]
    Read,
    /// The output failed.
    #[error("the output failed")]
    Write,
    /// Memory was refused.
    #[error("memory was refused")]
    Memory,
}

impl From<AllocError> for RunFault {
    ghost from_gives = { λ _ e. e ≡ Memory };

    fn from(_e: AllocError) -> RunFault {
        RunFault::Memory
    }
}
