//! Why the program ends with a fault.

ghost use Rattle.std.specs.Prelude.{◌≡◌, Some};
ghost use Rattle.commands.specs.Status.{status_of, fault_of};
ghost use Rattle.commands.specs.Texts.{text_of};
ghost use Rattle.commands.specs.declared.fault.Fault.TheVariants.{Memory};

use crate::status::{FAILURE, REFUSAL};
use crate::texts::frame_code;
use frames::FrameFault;
use grammar::GrammarFault;
use sessions::RunFault;
use std::alloc::AllocError;
use std::fmt;
use thiserror::Error;

/// A fault that the program prints on standard error.
#[derive(Debug, Drop, Error)]
pub enum Fault {
    CommandLine,
    /// The first fault of the grammar's file.
    Grammar(GrammarFault),
    TooManyStates,
    TooManySets,
    NotUtf8,
    TextNotUtf8,
    /// The text has more than 1,048,576 bytes.
    TextTooLarge,
    /// The file of this path can't be read.
    CannotRead(String),
    Memory,
    Frame(FrameFault),
    Read,
    Write,
}

impl fmt::Display for Fault {
    ghost output = { λ fault. Some (text_of fault) };

    fn fmt<W: fmt::Write>(&self, f: &mut fmt::Formatter<W>) -> fmt::Result {
        match self {
            Fault::CommandLine => {
                write!(
                    f,
                    "usage: lrls check GRAMMAR | parse GRAMMAR TEXT | serve GRAMMAR"
                )
            }
            Fault::Grammar(fault) => write!(f, "lrls: {fault}"),
            Fault::TooManyStates => write!(f, "lrls: over 4096 automaton states"),
            Fault::TooManySets => write!(f, "lrls: over 8192 table states"),
            Fault::NotUtf8 => write!(f, "lrls: grammar is not UTF-8"),
            Fault::TextNotUtf8 => write!(f, "lrls: text is not UTF-8"),
            Fault::TextTooLarge => write!(f, "lrls: text too large"),
            Fault::CannotRead(path) => write!(f, "lrls: cannot read {path}"),
            Fault::Memory => write!(f, "lrls: no memory"),
            Fault::Frame(fault) => write!(f, "lrls: frame fault {}", frame_code(*fault)),
            Fault::Read => write!(f, "lrls: read fault"),
            Fault::Write => write!(f, "lrls: write fault"),
        }
    }
}

impl Fault {
    /// The exit status: 2 where the command line or the grammar was refused, else 1.
    pub fn status(&self) -> u8
        ensures { result ≡ status_of self.now }
    {
        match self {
            Fault::CommandLine
            | Fault::Grammar(_)
            | Fault::TooManyStates
            | Fault::TooManySets
            | Fault::NotUtf8 => REFUSAL,
            Fault::TextNotUtf8
            | Fault::TextTooLarge
            | Fault::CannotRead(_)
            | Fault::Memory
            | Fault::Frame(_)
            | Fault::Read
            | Fault::Write => FAILURE,
        }
    }
}

impl From<AllocError> for Fault {
    ghost from_gives = { λ _ e. e ≡ Memory };

    fn from(_: AllocError) -> Fault {
        Fault::Memory
    }
}

impl From<RunFault> for Fault {
    ghost from_gives = { λ fault e. e ≡ fault_of fault };

    fn from(fault: RunFault) -> Fault {
        match fault {
            RunFault::Frame(fault) => Fault::Frame(fault),
            RunFault::Read => Fault::Read,
            RunFault::Write => Fault::Write,
            RunFault::Memory => Fault::Memory,
        }
    }
}
