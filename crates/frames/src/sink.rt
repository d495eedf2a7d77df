//! Where bytes go to.

ghost use Rattle.std.specs.Prelude.{◌≡◌, ℕ, ◌<◌, ◌≤◌, List, Option, length, IfOk, MatchResult, if◌then◌else◌};
ghost use Rattle.std.specs.Io.KnownBytes.{WriteAppends, Keeps};

use crate::fault::DeviceFault;
use std::io::Write;

/// A stream of bytes that is written. Once it has failed, it isn't called again.
pub trait Output {
    /// The bytes that were taken, where they are known.
    ghost contents: { Self → Option (List ℕ) };

    /// How often the device has failed: once at most.
    ghost failures: { Self → ℕ };

    /// Takes a prefix of the bytes, and returns how many: none only where there are none.
    fn write(&mut self, bytes: &[u8]) -> Result<usize, DeviceFault>
        requires { failures self.old ≡ 0 }
        ensures bound { IfOk result (λ n. n ≤ length bytes.now) }
        ensures some { IfOk result (λ n. 0 < length bytes.now → 0 < n) }
        ensures bytes { WriteAppends (contents self.old) (contents self.new) result bytes.now }
        ensures cause { MatchResult result
            (λ _. failures self.new ≡ 0) (λ _. failures self.new ≡ 1) };

    /// Passes on what was taken.
    fn flush(&mut self) -> Result<(), DeviceFault>
        requires { failures self.old ≡ 0 }
        ensures bytes { Keeps (contents self.old) (contents self.new) }
        ensures cause { MatchResult result
            (λ _. failures self.new ≡ 0) (λ _. failures self.new ≡ 1) };
}

/// Rust's `Write` as an output. Every error is a fault, also one that says to try again, and so is
/// a write that takes nothing.
#[derive(Drop)]
pub struct WriteOutput<W> {
    inner: W,
    has_failed: bool,
}

impl<W: Write> WriteOutput<W> {
    /// The output that writes to `inner`. It hasn't failed.
    pub fn new(inner: W) -> WriteOutput<W>
        ensures bytes { ⟦<WriteOutput<W> as Output>⟧.contents result ≡ W.contents inner }
        ensures works { ⟦<WriteOutput<W> as Output>⟧.failures result ≡ 0 }
    {
        WriteOutput {
            inner,
            has_failed: false,
        }
    }
}

impl<W: Write> Output for WriteOutput<W> {
    ghost contents = { λ s. W.contents s.inner };

    ghost failures = { λ s. if s.has_failed then 1 else 0 };

    fn write(&mut self, bytes: &[u8]) -> Result<usize, DeviceFault> {
        match self.inner.write(bytes) {
            Ok(0) if !bytes.is_empty() => {
                self.has_failed = true;
                Err(DeviceFault)
            }
            Ok(count) => Ok(count),
            Err(_) => {
                self.has_failed = true;
                Err(DeviceFault)
            }
        }
    }

    fn flush(&mut self) -> Result<(), DeviceFault> {
        match self.inner.flush() {
            Ok(()) => Ok(()),
            Err(_) => {
                self.has_failed = true;
                Err(DeviceFault)
            }
        }
    }
}
