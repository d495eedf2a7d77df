//! Devices that share a record, give and take bytes in pieces, and may fail.

ghost use Rattle.std.specs.Prelude.{None, if◌then◌else◌};

use frames::{DeviceFault, Input, Output};
use std::alloc::Global;
use std::cell::RefCell;
use std::io::{self, Read};

/// What an output took, how much of it was flushed, whether each reply was flushed before the read
/// after its request, and how many calls of the input and of the output succeeded.
#[derive(Drop)]
pub struct Record {
    pub taken: Vec<u8>,
    pub flushed: usize,
    pub is_prompt: bool,
    pub reads: u64,
    pub calls: u64,
}

impl Record {
    pub fn new(alloc: Global) -> Record {
        Record {
            taken: Vec::new(alloc),
            flushed: 0,
            is_prompt: true,
            reads: 0,
            calls: 0,
        }
    }
}

/// Gives bytes, `first` of them at the first read and then at most `piece` a read; after `reads`
/// reads it fails. Where `due` has (n, m), m bytes are to be flushed once n bytes are given.
#[derive(Drop)]
pub struct Pieces<'a> {
    pub rest: &'a [u8],
    pub first: usize,
    pub piece: usize,
    pub given: usize,
    pub due: &'a [(usize, usize)],
    pub record: &'a RefCell<Record>,
    pub reads: u64,
    pub has_failed: bool,
}

impl Pieces<'_> {
    fn looks_at_record(&self) {
        if let Ok(mut record) = self.record.try_borrow_mut() {
            for (read, written) in self.due {
                if *read <= self.given && record.flushed < *written {
                    record.is_prompt = false;
                }
            }
        }
    }
}

impl Input for Pieces<'_> {
    ghost remaining = { λ _. None };

    ghost reads_left = { λ s. s.reads };

    ghost failures = { λ s. if s.has_failed then 1 else 0 };

    fn read(&mut self, buf: &mut [u8]) -> Result<usize, DeviceFault> {
        if self.reads == 0 {
            self.has_failed = true;
            return Err(DeviceFault);
        }
        self.reads -= 1;
        self.looks_at_record();
        let most = if self.given == 0 {
            self.first
        } else {
            self.piece
        };
        let count = buf.len().min(most).min(self.rest.len());
        for i in 0..count {
            buf[i] = self.rest[i];
        }
        self.rest = &self.rest[count..];
        self.given = self.given.saturating_add(count);
        Ok(count)
    }
}

/// Takes at most `piece` bytes a write; after `calls` writes and flushes it fails.
#[derive(Drop)]
pub struct Taker<'a> {
    pub piece: usize,
    pub record: &'a RefCell<Record>,
    pub calls: u64,
    pub has_failed: bool,
}

impl Taker<'_> {
    fn takes(&self, bytes: &[u8]) -> bool {
        match self.record.try_borrow_mut() {
            Ok(mut record) => record.taken.extend_from_slice(bytes).is_ok(),
            Err(_) => false,
        }
    }
}

impl Output for Taker<'_> {
    ghost contents = { λ _. None };

    ghost failures = { λ s. if s.has_failed then 1 else 0 };

    fn write(&mut self, bytes: &[u8]) -> Result<usize, DeviceFault> {
        let count = bytes.len().min(self.piece).max(1).min(bytes.len());
        if self.calls > 0 && self.takes(&bytes[..count]) {
            self.calls -= 1;
            return Ok(count);
        }
        self.has_failed = true;
        Err(DeviceFault)
    }

    fn flush(&mut self) -> Result<(), DeviceFault> {
        if self.calls > 0 {
            self.calls -= 1;
            if let Ok(mut record) = self.record.try_borrow_mut() {
                record.flushed = record.taken.len();
                return Ok(());
            }
        }
        self.has_failed = true;
        Err(DeviceFault)
    }
}

/// A reader that gives its bytes one by one.
#[derive(Drop)]
pub struct Drops<'a> {
    pub rest: &'a [u8],
}

impl Read for Drops<'_> {
    fn read(&mut self, buf: &mut [u8]) -> io::Result<usize> {
        if let (Some(first), Some(place)) = (self.rest.first(), buf.first_mut()) {
            *place = *first;
            self.rest = &self.rest[1..];
            return Ok(1);
        }
        Ok(0)
    }
}
