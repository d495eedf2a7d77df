//! The command, over the bytes of its file and of both streams.

ghost use Rattle.std.specs.Prelude.{◌≡◌, ◌↔◌, IfOk, OnErr};
ghost use Rattle.serving.specs.Serving.{IsServed, failed_reading, failed_writing};

use commands::{Printed, load};
use frames::{Input, Output};
use server::{RunFault, run};
use std::alloc::{AllocError, Global};

/// What came of serving the language of a grammar file.
#[derive(Debug, Drop)]
pub enum Served {
    /// The session ended with this exit status, or by this fault.
    Ended(Result<u8, RunFault>),
    /// The file defines no language. Nothing was read or written; this is to be printed.
    Refused(Printed),
}

/// Serves the language that the bytes of a grammar file define, from the first byte of the input
/// to `exit`, to its end, or to a fault. Refuses only for memory while the file is loaded; nothing
/// is read or written then.
pub fn serve<R: Input, W: Output>(
    alloc: Global,
    grammar: &[u8],
    input: &mut R,
    output: &mut W,
) -> Result<Served, AllocError>
    requires input { R.failures input.old ≡ 0 }
    requires output { W.failures output.old ≡ 0 }
    ensures served { let old = W.contents output.old in
        let new = W.contents output.new in
        IfOk result
        (IsServed grammar.now (R.remaining input.old) (R.remaining input.new) old new) }
    ensures nothing { OnErr result ((R.remaining input.new ≡ R.remaining input.old)
        × (W.contents output.new ≡ W.contents output.old)) }
    // A device fault is told exactly where the device failed.
    ensures read { IfOk result (λ s. failed_reading s ↔ (R.failures input.new ≡ 1)) }
    ensures write { IfOk result (λ s. failed_writing s ↔ (W.failures output.new ≡ 1)) }
{
    match load(alloc, grammar)? {
        Ok(language) => Ok(Served::Ended(run(alloc, language, input, output))),
        Err(printed) => Ok(Served::Refused(printed)),
    }
}
