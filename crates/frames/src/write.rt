//! Frames as bytes (LSP 3.17, "Base Protocol").

ghost use Rattle.std.specs.Prelude.{◌≡◌, ◌+◌, ◌<◌, ◌≤◌, length, take, decimal, MatchResult};
ghost use Rattle.frames.specs.Write.{frame, Writes};

use crate::fault::DeviceFault;
use crate::sink::Output;

/// Writes all the bytes, or a prefix of them.
fn write_all<W: Output>(output: &mut W, bytes: &[u8]) -> Result<(), DeviceFault>
    requires { W.failures output.old ≡ 0 }
    ensures bytes { Writes (W.contents output.old) (W.contents output.new) result bytes.now }
    ensures cause { MatchResult result
        (λ _. W.failures output.new ≡ 0) (λ _. W.failures output.new ≡ 1) }
{
    let mut at = 0;
    while at < bytes.len() {
        at += output.write(&bytes[at..])?;
    }
    Ok(())
}

/// Puts the digits of a number to the start of the buffer, and returns how many.
fn put_digits(buffer: &mut [u8], n: usize) -> usize
    requires { length (decimal n) ≤ length buffer.old }
    ensures size { result ≡ length (decimal n) }
    ensures digits { take result buffer.new ≡ decimal n }
{
    let prefix = if n < 10 {
        0
    } else {
        put_digits(buffer, n / 10)
    };
    buffer[prefix] = b'0' + (n % 10) as u8;
    prefix + 1
}

/// Writes the content after a header part that gives its length in bytes. After a fault, a prefix
/// of the frame was written. Takes no memory.
pub fn write_frame<W: Output>(output: &mut W, content: &[u8]) -> Result<(), DeviceFault>
    requires { W.failures output.old ≡ 0 }
    ensures bytes { Writes
        (W.contents output.old) (W.contents output.new) result (frame content.now) }
    ensures cause { MatchResult result
        (λ _. W.failures output.new ≡ 0) (λ _. W.failures output.new ≡ 1) }
{
    let mut digits = [0; 20];
    let count = put_digits(&mut digits, content.len());
    write_all(output, b"Content-Length: ")?;
    write_all(output, &digits[..count])?;
    write_all(output, b"\r\n\r\n")?;
    write_all(output, content)
}
