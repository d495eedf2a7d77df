//! Where bytes come from.

ghost use Rattle.std.specs.Prelude.{◌≡◌, ℕ, ◌^◌, ◌+◌, ◌-◌, ◌≤◌, List, Option, length, IfOk, OnOk, MatchResult, if◌then◌else◌};
ghost use Rattle.std.specs.Io.KnownBytes.{ReadConsumes};

use crate::fault::DeviceFault;
use std::io::Read;

/// A stream of bytes that is read. Once it has failed, it isn't called again.
pub trait Input {
    /// The bytes that are still to come, where they are known.
    ghost remaining: { Self → Option (List ℕ) };

    /// How many reads can still be made.
    ghost reads_left: { Self → ℕ };

    /// How often the device has failed: once at most.
    ghost failures: { Self → ℕ };

    /// Reads some bytes to the start of `buf`, and returns how many: none only at the end of the
    /// stream, or where `buf` is empty. It takes one of the reads that are left, and fails where
    /// none is.
    fn read(&mut self, buf: &mut [u8]) -> Result<usize, DeviceFault>
        requires { failures self.old ≡ 0 }
        ensures bound { IfOk result (λ n. n ≤ length buf.new) }
        ensures bytes { ReadConsumes (remaining self.old) (remaining self.new) result buf.new }
        ensures reads { OnOk result (reads_left self.old ≡ reads_left self.new + 1) }
        ensures cause { MatchResult result
            (λ _. failures self.new ≡ 0) (λ _. failures self.new ≡ 1) };
}

/// Rust's `Read` as an input. Every error is a fault, also one that says to try again.
#[derive(Drop)]
pub struct ReadInput<R> {
    inner: R,
    reads_left: u64,
    has_failed: bool,
}

impl<R: Read> ReadInput<R> {
    /// The input that gives the bytes of `inner`. It hasn't failed, and can be read
    /// 18,446,744,073,709,551,615 times.
    pub fn new(inner: R) -> ReadInput<R>
        ensures bytes { ⟦<ReadInput<R> as Input>⟧.remaining result ≡ R.remaining inner }
        ensures reads { ⟦<ReadInput<R> as Input>⟧.reads_left result ≡ 2 ^ 64 - 1 }
        ensures works { ⟦<ReadInput<R> as Input>⟧.failures result ≡ 0 }
    {
        ReadInput {
            inner,
            reads_left: u64::MAX,
            has_failed: false,
        }
    }
}

impl<R: Read> Input for ReadInput<R> {
    ghost remaining = { λ s. R.remaining s.inner };

    ghost reads_left = { λ s. s.reads_left };

    ghost failures = { λ s. if s.has_failed then 1 else 0 };

    fn read(&mut self, buf: &mut [u8]) -> Result<usize, DeviceFault> {
        if self.reads_left == 0 {
            self.has_failed = true;
            return Err(DeviceFault);
        }
        self.reads_left -= 1;
        match self.inner.read(buf) {
            Ok(count) => Ok(count),
            Err(_) => {
                self.has_failed = true;
                Err(DeviceFault)
            }
        }
    }
}
