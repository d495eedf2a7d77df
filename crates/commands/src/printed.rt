//! What is printed of a fault or a conflict.

ghost use Rattle.std.specs.Prelude.{◌≡◌, [], IfOk, string_bytes};
ghost use Rattle.tables.specs.Reports.{IsReport};
ghost use Rattle.commands.specs.Conflicts.{conflict_text};
ghost use Rattle.commands.specs.Texts.{PrintsFault};

use crate::conflicts::conflict_text;
use crate::fault::Fault;
use crate::status::REFUSAL;
use grammar::Grammar;
use std::alloc::{AllocError, Global};
use tables::Conflict;

/// What a command prints on standard output and standard error, and the exit status.
#[derive(Debug, Drop)]
pub struct Printed {
    pub out: Vec<u8>,
    pub err: Vec<u8>,
    pub status: u8,
}

impl Printed {
    /// This text on standard output alone.
    pub fn text(alloc: Global, text: String, status: u8) -> Printed
        ensures out { result.out.items ≡ string_bytes text }
        ensures err { result.err.items ≡ [] }
        ensures status { result.status ≡ status }
    {
        Printed {
            out: text.into_bytes(),
            err: Vec::new(alloc),
            status,
        }
    }

    /// What is printed of a fault: its text on standard error, and its status. Refuses for memory
    /// alone.
    pub fn fault(alloc: Global, fault: &Fault) -> Result<Printed, AllocError>
        ensures { IfOk result (PrintsFault fault.now) }
    {
        Ok(Printed {
            out: Vec::new(alloc),
            err: format!(in alloc; "{fault}\n")?.into_bytes(),
            status: fault.status(),
        })
    }

    /// What is printed of a conflict of a grammar. Refuses for memory alone.
    pub fn conflict(
        alloc: Global,
        grammar: &Grammar,
        conflict: &Conflict,
    ) -> Result<Printed, AllocError>
        requires { IsReport grammar.now.grammar conflict.now }
        ensures out { IfOk result (λ printed. printed.out.items ≡ []) }
        ensures status { IfOk result (λ printed. printed.status ≡ 2) }
        ensures conflict { IfOk result (λ printed.
            printed.err.items ≡ conflict_text grammar.now conflict.now) }
    {
        Ok(Printed {
            out: Vec::new(alloc),
            err: conflict_text(alloc, grammar, conflict)?.into_bytes(),
            status: REFUSAL,
        })
    }
}
