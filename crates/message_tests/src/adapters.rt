//! Readers as inputs, and writers as outputs.

use frames::{DeviceFault, Input, Output, ReadInput, WriteOutput, write_frame};
use std::cell::Cell;
use std::io::{self, ErrorKind, Read, Write};

#[test]
fn readers_are_inputs(rt: HostRuntime) {
    let mut input = ReadInput::new(b"abc".as_slice());
    let mut buffer = [0; 2];
    let first = input.read(&mut buffer);
    assert!(rt; first == Ok(2));
    assert!(rt; &buffer == b"ab");
    if first.is_ok() {
        assert!(rt; input.read(&mut buffer) == Ok(1));
        assert!(rt; buffer[0] == b'c');
    }
    let mut input = ReadInput::new(b"".as_slice());
    assert!(rt; input.read(&mut buffer) == Ok(0));
}

#[test]
fn writers_are_outputs(rt: HostRuntime) {
    let mut taken = Vec::with_capacity(rt.alloc(), 30).expect(&rt, "memory");
    let mut output = WriteOutput::new(&mut taken);
    let outcome = write_frame(&mut output, b"{}");
    assert!(rt; outcome.is_ok());
    assert!(rt; taken.as_slice() == b"Content-Length: 2\r\n\r\n{}".as_slice());
}

#[test]
fn a_full_writer_is_a_fault(rt: HostRuntime) {
    let mut room = [0; 20];
    let mut output = WriteOutput::new(room.as_mut_slice());
    let outcome = write_frame(&mut output, b"{}");
    assert!(rt; outcome.is_err());
    assert!(rt; &room == b"Content-Length: 2\r\n\r");
}

/// Fails at its first call, and works at all others, each of which takes or gives one byte. Its
/// calls are counted.
#[derive(Drop)]
struct FailsFirst<'a> {
    calls: &'a Cell<usize>,
    kind: ErrorKind,
}

impl FailsFirst<'_> {
    fn called(&self) -> io::Result<()> {
        let calls = self.calls.get();
        self.calls.set(calls.saturating_add(1));
        if calls == 0 {
            return Err(io::Error::from(self.kind));
        }
        Ok(())
    }
}

impl Read for FailsFirst<'_> {
    fn read(&mut self, buf: &mut [u8]) -> io::Result<usize> {
        self.called()?;
        Ok(buf.len().min(1))
    }
}

impl Write for FailsFirst<'_> {
    fn write(&mut self, buf: &[u8]) -> io::Result<usize> {
        self.called()?;
        Ok(buf.len().min(1))
    }

    fn flush(&mut self) -> io::Result<()> {
        self.called()
    }
}

/// A device that has not failed yet, whose calls are counted from 0 on.
fn device<'a>(calls: &'a Cell<usize>, kind: ErrorKind) -> FailsFirst<'a> {
    calls.set(0);
    FailsFirst { calls, kind }
}

#[test]
fn a_failed_call_is_not_tried_again(rt: HostRuntime) {
    let calls = Cell::new(0);
    for kind in [
        ErrorKind::Interrupted,
        ErrorKind::WouldBlock,
        ErrorKind::TimedOut,
        ErrorKind::UnexpectedEof,
        ErrorKind::Other,
    ] {
        let read = ReadInput::new(device(&calls, kind)).read(&mut [0]);
        assert!(rt; (read, calls.get()) == (Err(DeviceFault), 1));
        let written = WriteOutput::new(device(&calls, kind)).write(b"{}");
        assert!(rt; (written, calls.get()) == (Err(DeviceFault), 1));
        let flushed = WriteOutput::new(device(&calls, kind)).flush();
        assert!(rt; (flushed, calls.get()) == (Err(DeviceFault), 1));
    }
}
