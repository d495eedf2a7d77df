//! Streams of frames, whatever the pieces that they come and go in. `tests/program` has more of
//! them, and the longest content.

ghost use Rattle.std.specs.Prelude.{None, ◌<◌, if◌then◌else◌};

use frames::{Decoder, DeviceFault, Frame, FrameFault, Output, WriteOutput, write_frame};
use std::alloc::Global;
use std::process::Abort;

const CUT: Result<(), FrameFault> = Err(FrameFault::Truncated);

const BAD: Result<(), FrameFault> = Err(FrameFault::BadField);

const BAD_LENGTH: Result<(), FrameFault> = Err(FrameFault::BadLength);

fn compare(rt: &impl Abort, frames: &[Frame], contents: &[&str], size: usize) {
    assert!(rt; frames.len() == contents.len(), "in pieces of {size}");
    for (frame, content) in frames.iter().zip(contents) {
        let is_same = frame.content.as_slice() == content.as_bytes();
        assert!(rt; is_same, "in pieces of {size}");
    }
}

/// The fault that ends a stream before its end comes.
fn fault_of(end: Result<(), FrameFault>) -> Option<FrameFault> {
    match end {
        Ok(()) | Err(FrameFault::Truncated) => None,
        Err(fault) => Some(fault),
    }
}

/// Feeds a piece, and feeds it again where memory was refused.
fn feed_again(
    decoder: &mut Decoder,
    alloc: Global,
    piece: &[u8],
) -> Result<Vec<Frame>, FrameFault> {
    match decoder.feed(alloc, piece) {
        Err(FrameFault::Memory) => decoder.feed(alloc, piece),
        outcome => outcome,
    }
}

/// Feeds the stream in pieces of this size, and puts the frames that come of them after the
/// others.
fn feed_pieces(
    rt: &impl Abort,
    alloc: Global,
    decoder: &mut Decoder,
    frames: &mut Vec<Frame>,
    stream: &[u8],
    size: usize,
    wanted: Option<FrameFault>,
)
    requires { 0 < size }
{
    for piece in stream.chunks(size) {
        match feed_again(decoder, alloc, piece) {
            Ok(mut more) => frames.append(&mut more).expect(rt, "memory"),
            Err(fault) => assert!(rt; Some(fault) == wanted, "in pieces of {size}"),
        }
    }
}

/// What a decoder answers after a stream: no frames, and the fault that it met.
fn check_after(rt: &impl Abort, alloc: Global, decoder: &mut Decoder, wanted: Option<FrameFault>) {
    let shown = match decoder.feed(alloc, b"") {
        Ok(more) => (more.len(), None),
        Err(fault) => (0, Some(fault)),
    };
    assert!(rt; shown == (0, wanted));
}

/// Feeds the stream in pieces of this size, and compares its contents and what its end says.
fn feed_in_pieces(
    rt: &impl Abort,
    alloc: Global,
    stream: &[u8],
    size: usize,
    contents: &[&str],
    end: Result<(), FrameFault>,
)
    requires { 0 < size }
{
    let wanted = fault_of(end);
    let mut frames = Vec::with_capacity(alloc, 3).expect(rt, "memory");
    let mut decoder = Decoder::new(alloc);
    feed_pieces(rt, alloc, &mut decoder, &mut frames, stream, size, wanted);
    compare(rt, &frames, contents, size);
    assert!(rt;
        (decoder.fault(), decoder.finish()) == (wanted, end),
        "in pieces of {size}"
    );
    check_after(rt, alloc, &mut decoder, wanted);
    check_after(rt, alloc, &mut decoder, wanted);
}

/// Streams, the contents of their frames, and what their ends say.
const STREAMS: &[(&str, &[&str], Result<(), FrameFault>)] = &[
    ("", &[], Ok(())),
    ("Content-Length: 1\r\n\r\n{", &["{"], Ok(())),
    ("Content-Length: 5\r\n\r\n{}", &[], CUT),
    ("Content-Length: 1\r\n\r\n{X\r\n\r\n", &["{"], BAD),
    ("Content-Length: 0\r\n\r\n", &[""], Ok(())),
    ("Content-Length: 00000001\r\n\r\n{", &["{"], Ok(())),
    ("Content-Length: 000000001\r\n\r\n{", &[], BAD_LENGTH),
    ("Content-Length: 16777216\r\n\r\n{", &[], CUT),
    ("Content-Length: 16777217\r\n\r\n{", &[], BAD_LENGTH),
    ("Content-Length: \r\n\r\n", &[], BAD_LENGTH),
    ("Content-Length: +1\r\n\r\n{", &[], BAD_LENGTH),
    ("content-LENGTH: 2\r\n\r\n{}", &["{}"], Ok(())),
    ("Content-Length:2\r\n\r\n{}", &["{}"], Ok(())),
    ("Content-Length: \t 2 \t\r\n\r\n{}", &["{}"], Ok(())),
    ("Content-Length : 2\r\n\r\n{}", &[], BAD),
    ("Content-Length: 2\n\n{}", &[], CUT),
    ("Content-Length: 2\r\n\r{}", &[], CUT),
    ("\rContent-Length: 2\r\n\r\n{}", &[], BAD),
    ("Content-Length: 2\x0b\r\n\r\n{}", &[], BAD),
    ("Content-Length: 4\r\n\r\n\r\n\r\n", &["\r\n\r\n"], Ok(())),
    ("\r\n", &[], Err(FrameFault::NoLength)),
    (
        "Content-Length: 2\r\nContent-Length: 2\r\n\r\n{}",
        &[],
        Err(FrameFault::SecondLength),
    ),
    (
        "Content-Type: text/plain\r\nContent-Length: 2\r\n\r\n{}",
        &[],
        Err(FrameFault::BadCharset),
    ),
    (
        "X-2:\r\nContent-Length: \t2 \r\nContent: Content-Length: x\r\n\r\n{}",
        &["{}"],
        Ok(()),
    ),
    (
        "Content-Length: 2\r\n\r\n{}Content-Length: 0\r\n\r\nContent-Length: 3\r\n\r\n[1]",
        &["{}", "", "[1]"],
        Ok(()),
    ),
    (
        "Content-Length: 2\r\n\r\n{}Content-Length: 2\r\n\r\n[]Content-Le",
        &["{}", "[]"],
        CUT,
    ),
];

#[test]
fn streams_are_split_whatever_the_pieces(rt: HostRuntime) {
    for (stream, contents, end) in STREAMS {
        for size in 1..80 {
            feed_in_pieces(&rt, rt.alloc(), stream.as_bytes(), size, contents, *end);
        }
    }
}

/// Takes a few bytes at each write, and fails once its writes are used up.
#[derive(Drop)]
struct Taker {
    taken: Vec<u8>,
    most: usize,
    writes_left: usize,
    has_failed: bool,
}

impl Output for Taker {
    ghost contents = { λ _. None };

    ghost failures = { λ s. if s.has_failed then 1 else 0 };

    fn write(&mut self, bytes: &[u8]) -> Result<usize, DeviceFault> {
        let count = bytes.len().min(self.most.max(1));
        if self.writes_left == 0 || self.taken.extend_from_slice(&bytes[..count]).is_err() {
            self.has_failed = true;
            return Err(DeviceFault);
        }
        self.writes_left -= 1;
        Ok(count)
    }

    fn flush(&mut self) -> Result<(), DeviceFault> {
        Ok(())
    }
}

/// Writes a frame to a device that takes so many bytes at most at each of so many writes.
fn check_writes(
    rt: &impl Abort,
    alloc: Global,
    content: &[u8],
    wanted: &[u8],
    most: usize,
    writes_left: usize,
) {
    let mut taker = Taker {
        taken: Vec::with_capacity(alloc, wanted.len()).expect(rt, "memory"),
        most,
        writes_left,
        has_failed: false,
    };
    let outcome = write_frame(&mut taker, content);
    let room = most.saturating_mul(writes_left);
    assert!(rt; taker.taken.as_slice() == &wanted[..wanted.len().min(room)]);
    assert!(rt; outcome.is_ok() == (wanted.len() <= room));
}

#[test]
fn frames_are_written_whole_or_a_prefix_of_them(rt: HostRuntime) {
    let content =
        "{\"error\":{\"code\":-32700,\"message\":\"parse error\"},\"id\":null,\"jsonrpc\":\"2.0\"}";
    let wanted = format!(in rt.alloc(); "Content-Length: 75\r\n\r\n{content}");
    let wanted = wanted.expect(&rt, "memory");
    for writes_left in 0..200 {
        let (content, wanted) = (content.as_bytes(), wanted.as_bytes());
        check_writes(&rt, rt.alloc(), content, wanted, 1, writes_left);
    }
}

/// The program prints the names of all others.
#[test]
fn a_refusal_of_memory_has_a_name(rt: HostRuntime) {
    let name = format!(in rt.alloc(); "{}", FrameFault::Memory).expect(&rt, "memory");
    assert!(rt; name.as_str() == "F7");
}

/// Writes a frame to a vector.
fn check_vector(rt: &impl Abort, alloc: Global, content: &[u8], wanted: &[u8]) {
    let mut taken = Vec::new(alloc);
    let outcome = write_frame(&mut WriteOutput::new(&mut taken), content);
    assert!(rt; outcome.is_ok());
    assert!(rt; taken.as_slice() == wanted);
}

#[test]
fn a_frame_of_a_mebibyte_is_written(rt: HostRuntime) {
    let alloc = rt.alloc();
    let header = b"Content-Length: 1048576\r\n\r\n";
    let content = Vec::from_elem(alloc, b'x', 1_048_576).expect(&rt, "memory");
    let mut wanted = Vec::new(alloc);
    wanted.extend_from_slice(header).expect(&rt, "memory");
    wanted.extend_from_slice(&content).expect(&rt, "memory");
    check_vector(&rt, alloc, &content, &wanted);
    check_writes(&rt, alloc, &content, &wanted, 1_000, usize::MAX);
}
