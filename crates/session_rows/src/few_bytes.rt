//! Sessions of a few bytes.

ghost use Rattle.std.specs.Prelude.{Ok, Err, []};
ghost use Rattle.frames.specs.declared.fault.FrameFault.TheVariants.{BadField, SecondLength, Truncated};
ghost use Rattle.sessions.specs.declared.fault.RunFault.TheVariants.{Frame};
ghost use Rattle.session_rows.specs.Known.{Came};
ghost use Rattle.session_rows.specs.Written.{parse_error};

use crate::memory::{Ran, over};
use docs::Language;
use std::alloc::Global;

/// One byte that is no JSON, and the end of the input: a parse error, and status 1.
pub fn no_json(alloc: Global, language: Language) -> Ran
    ensures { Came (Ok 1) parse_error result.result result.written.items }
{
    over(alloc, language, b"Content-Length: 1\r\n\r\n{")
}

/// A second length: nothing is written.
pub fn two_lengths(alloc: Global, language: Language) -> Ran
    ensures { Came (Err (Frame SecondLength)) [] result.result result.written.items }
{
    over(
        alloc,
        language,
        b"Content-Length: 2\r\nContent-Length: 2\r\n\r\n{}",
    )
}

/// A frame that the end of the input cuts short: nothing is written.
pub fn cut_short(alloc: Global, language: Language) -> Ran
    ensures { Came (Err (Frame Truncated)) [] result.result result.written.items }
{
    over(alloc, language, b"Content-Length: 5\r\n\r\n{}")
}

/// One byte that is no JSON, and then no frame: a parse error, and the fault of the header part.
pub fn then_no_frame(alloc: Global, language: Language) -> Ran
    ensures { Came (Err (Frame BadField)) parse_error result.result result.written.items }
{
    over(alloc, language, b"Content-Length: 1\r\n\r\n{X\r\n\r\n")
}
