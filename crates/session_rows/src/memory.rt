//! A session over bytes that lie in memory.

ghost use Rattle.std.specs.Prelude.{◌≡◌, ℕ, List, Some, if◌then◌else◌};
ghost use Rattle.frames.specs.Frames.{Tail, Splits};
ghost use Rattle.session_rows.specs.Known.{ComesTo};
ghost use Rattle.session_rows.specs.Uses.{Promises};

use docs::Language;
use frames::{DeviceFault, Input, Output, ReadInput, one_split, streams_go_on};
use server::{RunFault, run};
use std::alloc::Global;

/// Bytes in memory that are written to.
#[derive(Drop)]
struct Page {
    bytes: Vec<u8>,
    has_failed: bool,
}

impl Output for Page {
    ghost contents = { λ s. Some s.bytes.items };

    ghost failures = { λ s. if s.has_failed then 1 else 0 };

    fn write(&mut self, bytes: &[u8]) -> Result<usize, DeviceFault> {
        if self.bytes.extend_from_slice(bytes).is_err() {
            self.has_failed = true;
            return Err(DeviceFault);
        }
        Ok(bytes.len())
    }

    fn flush(&mut self) -> Result<(), DeviceFault> {
        Ok(())
    }
}

/// What a session came to.
#[derive(Drop)]
pub struct Ran {
    /// The exit status, or why it ended without one.
    pub result: Result<u8, RunFault>,
    /// The bytes that were written.
    pub written: Vec<u8>,
}

/// Runs a session over an input that has these bytes, in whatever pieces they come.
pub fn over_input<R: Input>(alloc: Global, language: Language, input: &mut R) -> Ran
    requires { R.failures input.old ≡ 0 }
    ensures session { (bytes : List ℕ) → R.remaining input.old ≡ Some bytes →
        (contents : List (List ℕ)) (tail : Tail) → Splits bytes contents tail →
        ComesTo language.file contents tail result.written.items result.result }
    ensures promises { Promises language.file }
{
    one_split();
    streams_go_on();
    let mut output = Page {
        bytes: Vec::new(alloc),
        has_failed: false,
    };
    let result = run(alloc, language, input, &mut output);
    Ran {
        result,
        written: output.bytes,
    }
}

/// Runs a session over these bytes, after which the input ends.
pub fn over(alloc: Global, language: Language, bytes: &[u8]) -> Ran
    ensures session { (contents : List (List ℕ)) (tail : Tail) → Splits bytes.now contents tail →
        ComesTo language.file contents tail result.written.items result.result }
    ensures promises { Promises language.file }
{
    let mut input = ReadInput::new(bytes);
    over_input(alloc, language, &mut input)
}
