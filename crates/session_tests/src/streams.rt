//! The stored session however its bytes come and go, and streams that end or fail.

use crate::devices::{Drops, Pieces, Record, Taker};
use crate::talks::{WHOLE, Way, framed, language, push_frame, run_by};
use frames::{FrameFault, ReadInput, WriteOutput};
use server::{RunFault, run};
use std::alloc::Global;
use std::cell::RefCell;
use std::process::Abort;
use worked::SUMS;

/// A session from its beginning to a clean end.
const SESSION: &str = r#"
> {"jsonrpc":"2.0","id":1,"method":"initialize","params":{}}
< {"id":1,"jsonrpc":"2.0","result":{"capabilities":{"foldingRangeProvider":true,"positionEncoding":"utf-16","selectionRangeProvider":true,"textDocumentSync":{"change":2,"openClose":true}}}}
> {"jsonrpc":"2.0","method":"textDocument/didOpen","params":{"textDocument":{"uri":"a:x","languageId":"g","version":1,"text":""}}}
< {"jsonrpc":"2.0","method":"textDocument/publishDiagnostics","params":{"diagnostics":[{"message":"unexpected end; expected NUM, LP","range":{"end":{"character":0,"line":0},"start":{"character":0,"line":0}},"severity":1,"source":"lrls"}],"uri":"a:x","version":1}}
> {"jsonrpc":"2.0","method":"textDocument/didChange","params":{"textDocument":{"uri":"a:x","version":2},"contentChanges":[{"range":{"start":{"line":0,"character":0},"end":{"line":0,"character":0}},"text":"12"},{"range":{"start":{"line":0,"character":0},"end":{"line":0,"character":1}},"text":""}]}}
< {"jsonrpc":"2.0","method":"textDocument/publishDiagnostics","params":{"diagnostics":[],"uri":"a:x","version":2}}
> {"jsonrpc":"2.0","id":2,"method":"lr/text","params":{"textDocument":{"uri":"a:x"}}}
< {"id":2,"jsonrpc":"2.0","result":{"text":"2","version":2}}
> {"jsonrpc":"2.0","id":3,"method":"shutdown"}
< {"id":3,"jsonrpc":"2.0","result":null}
> {"jsonrpc":"2.0","method":"exit"}
"#;

const INITIALIZE: &str = r#"{"jsonrpc":"2.0","id":1,"method":"initialize","params":{}}"#;

const CAPABILITIES: &str =
    r#"{"id":1,"jsonrpc":"2.0","result":{"capabilities":{"foldingRangeProvider":true,"positionEncoding":"utf-16","selectionRangeProvider":true,"textDocumentSync":{"change":2,"openClose":true}}}}"#;

const PARSE_ERROR: &str =
    r#"{"error":{"code":-32700,"message":"parse error"},"id":null,"jsonrpc":"2.0"}"#;

/// A session by the grammar of sums.
#[derive(Drop)]
struct Stored {
    input: Vec<u8>,
    output: Vec<u8>,
    due: Vec<(usize, usize)>,
}

/// How many bytes of the output are due once so many of the input are given: each line that is
/// written answers the one before it.
fn due(rt: &impl Abort, alloc: Global) -> Vec<(usize, usize)> {
    let mut due = Vec::new(alloc);
    let mut read = Vec::new(alloc);
    let mut written = Vec::new(alloc);
    for line in SESSION.lines() {
        if let Some(content) = line.strip_prefix("> ") {
            push_frame(rt, alloc, &mut read, content);
        }
        if let Some(content) = line.strip_prefix("< ") {
            push_frame(rt, alloc, &mut written, content);
            due.push((read.len(), written.len())).expect(rt, "memory");
        }
    }
    due
}

fn stored_session(rt: &impl Abort, alloc: Global) -> Stored {
    Stored {
        input: framed(rt, alloc, SESSION, "> "),
        output: framed(rt, alloc, SESSION, "< "),
        due: due(rt, alloc),
    }
}

/// The stored session passes in this way, and each reply is out before the next read.
fn passes(rt: &impl Abort, alloc: Global, stored: &Stored, way: Way) {
    let language = language(rt, alloc, SUMS);
    let (outcome, record) = run_by(alloc, language, &stored.input, way, &stored.due);
    assert!(rt; outcome == Ok(0));
    assert!(rt; record.taken.as_slice() == stored.output.as_slice());
    assert!(rt; record.is_prompt);
}

#[test]
fn the_session_passes_however_it_is_cut(rt: HostRuntime) {
    let alloc = rt.alloc();
    let stored = stored_session(&rt, alloc);
    assert!(rt; stored.due.len() == 5);
    for first in 1..stored.input.len() {
        passes(&rt, alloc, &stored, Way { first, ..WHOLE });
    }
    passes(&rt, alloc, &stored, WHOLE);
}

#[test]
fn the_session_passes_in_pieces(rt: HostRuntime) {
    let alloc = rt.alloc();
    let stored = stored_session(&rt, alloc);
    for (piece, written) in [(1, 1), (7, 3), (4096, 4096)] {
        let way = Way {
            first: piece,
            piece,
            written,
            ..WHOLE
        };
        passes(&rt, alloc, &stored, way);
    }
}

/// The stored session in this way ends with this fault, and a prefix of its output is written.
fn fails(rt: &impl Abort, alloc: Global, stored: &Stored, way: Way, fault: RunFault) {
    let (outcome, record) = run_by(alloc, language(rt, alloc, SUMS), &stored.input, way, &[]);
    assert!(rt; outcome == Err(fault));
    assert!(rt; stored.output.starts_with(&record.taken));
}

#[test]
fn a_device_that_fails_leaves_a_prefix_of_the_answers(rt: HostRuntime) {
    let alloc = rt.alloc();
    let stored = stored_session(&rt, alloc);
    let pieces = Way {
        first: 100,
        piece: 100,
        ..WHOLE
    };
    let sums = language(&rt, alloc, SUMS);
    let whole = run_by(alloc, sums, &stored.input, pieces, &[]).1;
    let just_enough = Way {
        reads: whole.reads,
        calls: whole.calls,
        ..pieces
    };
    passes(&rt, alloc, &stored, just_enough);
    for calls in 0..whole.calls {
        let way = Way { calls, ..pieces };
        fails(&rt, alloc, &stored, way, RunFault::Write);
    }
    for reads in 0..whole.reads {
        let way = Way { reads, ..pieces };
        fails(&rt, alloc, &stored, way, RunFault::Read);
    }
}

/// A stream that comes in pieces of 1, 5 and 100 bytes ends so, with this output.
fn ends(
    rt: &impl Abort,
    alloc: Global,
    stream: &[u8],
    wanted: Result<u8, RunFault>,
    output: &[u8],
) {
    for piece in [1, 5, 100] {
        let way = Way {
            first: piece,
            piece,
            ..WHOLE
        };
        let (outcome, record) = run_by(alloc, language(rt, alloc, SUMS), stream, way, &[]);
        assert!(rt; outcome == wanted);
        assert!(rt; record.taken.as_slice() == output);
    }
}

#[test]
fn streams_end_and_fail(rt: HostRuntime) {
    let alloc = rt.alloc();
    let mut parse_error = Vec::new(alloc);
    push_frame(&rt, alloc, &mut parse_error, PARSE_ERROR);
    let truncated = Err(RunFault::Frame(FrameFault::Truncated));
    let bad_field = Err(RunFault::Frame(FrameFault::BadField));
    let second_length = Err(RunFault::Frame(FrameFault::SecondLength));
    let stream = b"Content-Length: 1\r\n\r\n{";
    ends(&rt, alloc, stream, Ok(1), &parse_error);
    ends(&rt, alloc, b"Content-Length: 5\r\n\r\n{}", truncated, &[]);
    let stream = b"Content-Length: 2\r\nContent-Length: 2\r\n\r\n{}";
    ends(&rt, alloc, stream, second_length, &[]);
    let stream = b"Content-Length: 1\r\n\r\n{X\r\n\r\n";
    ends(&rt, alloc, stream, bad_field, &parse_error);
}

/// A stream that comes in pieces, of which the last one that may be read has this frame fault: the
/// read after it would fail, so it must not be made.
fn stops(
    rt: &impl Abort,
    alloc: Global,
    stream: &[u8],
    piece: usize,
    reads: u64,
    fault: FrameFault,
) {
    let record = RefCell::new(Record::new(alloc));
    let mut pieces = Pieces {
        rest: stream,
        first: piece,
        piece,
        given: 0,
        due: &[],
        record: &record,
        reads,
        has_failed: false,
    };
    let mut taker = Taker {
        piece: 100,
        record: &record,
        calls: u64::MAX,
        has_failed: false,
    };
    let outcome = run(alloc, language(rt, alloc, SUMS), &mut pieces, &mut taker);
    assert!(rt; outcome == Err(RunFault::Frame(fault)));
    assert!(rt; !pieces.has_failed);
}

#[test]
fn nothing_is_read_after_a_frame_fault(rt: HostRuntime) {
    let alloc = rt.alloc();
    let after_a_frame = b"Content-Length: 1\r\n\r\n{X\r\n\r\n";
    let too_long = b"Content-Length: 16777217\r\n\r\n";
    let bad_field = FrameFault::BadField;
    let bad_length = FrameFault::BadLength;
    stops(&rt, alloc, b"X\r\n\r\n", 100, 1, bad_field);
    stops(&rt, alloc, b"X\r\n\r\n", 1, 5, bad_field);
    stops(&rt, alloc, after_a_frame, 100, 1, bad_field);
    stops(&rt, alloc, after_a_frame, 1, 27, bad_field);
    stops(&rt, alloc, too_long, 100, 1, bad_length);
    stops(&rt, alloc, too_long, 1, 28, bad_length);
    stops(&rt, alloc, b"\r\n", 100, 1, FrameFault::NoLength);
    stops(&rt, alloc, b"\r\n", 1, 2, FrameFault::NoLength);
}

/// `initialize` in a content of so many bytes, with blanks after it.
fn padded(rt: &impl Abort, alloc: Global, len: usize) -> String {
    let stream = format!(in alloc; "Content-Length: {len}\r\n\r\n{INITIALIZE}");
    let mut stream = stream.expect(rt, "memory");
    for _ in INITIALIZE.len()..len {
        stream.push(' ').expect(rt, "memory");
    }
    stream
}

/// By the adapters of readers and writers, the stream is answered so, and ends with status 1.
fn answers(rt: &impl Abort, alloc: Global, stream: &[u8], wanted: &[u8]) {
    let mut input = ReadInput::new(Drops { rest: stream });
    let mut taken = Vec::new(alloc);
    let mut output = WriteOutput::new(&mut taken);
    let outcome = run(alloc, language(rt, alloc, SUMS), &mut input, &mut output);
    assert!(rt; outcome == Ok(1));
    assert!(rt; taken.as_slice() == wanted);
}

#[test]
fn a_hundred_thousand_reads_of_one_byte(rt: HostRuntime) {
    let alloc = rt.alloc();
    let stream = padded(&rt, alloc, 99_974);
    assert!(rt; stream.len() == 99_999);
    let mut wanted = Vec::new(alloc);
    push_frame(&rt, alloc, &mut wanted, CAPABILITIES);
    answers(&rt, alloc, stream.as_bytes(), &wanted);
}
