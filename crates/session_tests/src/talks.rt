//! Sessions on these devices. A session is written as a transcript: a line that begins with `> `
//! is a content that the server reads, one that begins with `< ` a content that it writes. Other
//! lines say nothing. `tests/program` runs more of them.

use crate::devices::{Pieces, Record, Taker};
use server::{Language, RunFault, run};
use std::alloc::Global;
use std::cell::RefCell;
use std::process::Abort;

/// How the bytes come and go, and which call of a device fails.
#[derive(Clone, Copy)]
pub struct Way {
    pub first: usize,
    pub piece: usize,
    pub written: usize,
    pub reads: u64,
    pub calls: u64,
}

pub const WHOLE: Way = Way {
    first: usize::MAX,
    piece: usize::MAX,
    written: usize::MAX,
    reads: u64::MAX,
    calls: u64::MAX,
};

/// The language of a grammar file.
pub fn language(rt: &impl Abort, alloc: Global, file: &str) -> Language {
    let Ok(language) = Language::load(alloc, file) else {
        panic!(rt; "no language");
    };
    language
}

/// Runs a session, and returns its outcome and its record, with how many calls of each device
/// succeeded.
pub fn run_by(
    alloc: Global,
    language: Language,
    input: &[u8],
    way: Way,
    due: &[(usize, usize)],
) -> (Result<u8, RunFault>, Record) {
    let record = RefCell::new(Record::new(alloc));
    let mut pieces = Pieces {
        rest: input,
        first: way.first,
        piece: way.piece,
        given: 0,
        due,
        record: &record,
        reads: way.reads,
        has_failed: false,
    };
    let mut taker = Taker {
        piece: way.written,
        record: &record,
        calls: way.calls,
        has_failed: false,
    };
    let outcome = run(alloc, language, &mut pieces, &mut taker);
    let (reads, calls) = (pieces.reads, taker.calls);
    let mut record = record.into_inner();
    record.reads = way.reads.saturating_sub(reads);
    record.calls = way.calls.saturating_sub(calls);
    (outcome, record)
}

/// Puts a frame of this content after the bytes.
pub fn push_frame(rt: &impl Abort, alloc: Global, bytes: &mut Vec<u8>, content: &str) {
    let len = content.len();
    let frame = format!(in alloc; "Content-Length: {len}\r\n\r\n{content}").expect(rt, "memory");
    bytes
        .extend_from_slice(frame.as_bytes())
        .expect(rt, "memory");
}

/// The frames of what stands after this mark in a transcript.
pub fn framed(rt: &impl Abort, alloc: Global, talk: &str, mark: &str) -> Vec<u8> {
    let mut bytes = Vec::new(alloc);
    for line in talk.lines() {
        if let Some(content) = line.strip_prefix(mark) {
            push_frame(rt, alloc, &mut bytes, content);
        }
    }
    bytes
}
