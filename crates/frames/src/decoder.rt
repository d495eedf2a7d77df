//! Frames out of a stream that comes in pieces (LSP 3.17, "Base Protocol").

ghost use Rattle.std.specs.Prelude.{◌≡◌, ◌≢◌, ◌↔◌, [], ◌++◌, ◌+◌, ◌<◌, ◌≤◌, length, take, drop, IfSome, IfNone, IfOk, IfErr, IsErrOf, Some, None, ℕ, List};
ghost use Rattle.frames.specs.Frames.{Tail, Open, Faulty, tail_of, Splits, IsReached, GoesOn, IsOpen, IsCut, IsStreamFault, fault_of, finish_of};
ghost use Rattle.frames.specs.Contents.{contents};
ghost use Rattle.frames.specs.Kept.{Awaits, HoldsNone, IsDecoder};

use crate::fault::FrameFault;
use crate::header::{Start, bytes_from, needs_more, start_of};
use std::alloc::{AllocError, Global};
use std::marker::Model;

/// A whole frame, without its header part.
#[derive(Debug, Drop)]
pub struct Frame {
    pub content: Vec<u8>,
}

/// What stands at the start of some bytes, and what is kept of the rest after it.
struct Found {
    frames: Vec<Frame>,
    /// How many bytes the frames take.
    used: usize,
    /// How many bytes the rest has to have before a frame of it can be whole.
    awaited: usize,
    /// How many bytes of the rest hold no blank line.
    searched: usize,
    fault: Option<FrameFault>,
}

/// The content that a header part of this size announces, if it is whole.
fn content_at(bytes: &[u8], size: usize, len: usize) -> Option<&[u8]>
    requires { size ≤ length bytes.now }
    ensures some { IfSome result (λ content.
        (size + len ≤ length bytes.now) × (length content.now ≡ len) ×
        (content.now ≡ take len (drop size bytes.now))) }
    ensures none { IfNone result (length bytes.now < size + len) }
{
    let rest = bytes_from(bytes, size);
    if len <= rest.len() {
        Some(&rest[..len])
    } else {
        None
    }
}

/// The whole frames at the start, how many bytes they take, and the fault after them.
fn split(alloc: Global, bytes: &[u8]) -> Result<Found, AllocError>
    ensures used { IfOk result (λ found. found.used ≤ length bytes.now) }
    ensures split { IfOk result (λ found.
        let rest = drop found.used bytes.now in
        Splits bytes.now (contents found.frames.items) (tail_of rest found.fault)) }
    ensures kept { IfOk result (λ found. let rest = drop found.used bytes.now in
        IsDecoder rest found.awaited found.searched found.fault) }
{
    let mut frames = Vec::new(alloc);
    let mut used = 0;
    loop {
        let rest = bytes_from(bytes, used);
        match start_of(rest) {
            Start::Announces(size, len) => match content_at(rest, size, len) {
                Some(content) => {
                    let content = Vec::from_slice(alloc, content)?;
                    frames.push(Frame { content })?;
                    used += size + len;
                }
                None => return Ok(Found {
                    frames,
                    used,
                    awaited: size + len,
                    searched: 0,
                    fault: None,
                }),
            },
            Start::Fails(fault) => return Ok(Found {
                frames,
                used,
                awaited: 0,
                searched: 0,
                fault: Some(fault),
            }),
            Start::NeedsMore => return Ok(Found {
                frames,
                used,
                awaited: 0,
                searched: 0,
                fault: None,
            }),
        }
    }
}

/// Splits `bytes` into frames; `awaited` and `searched` say what is known of a prefix of them.
fn found_in(
    alloc: Global,
    bytes: &[u8],
    awaited: usize,
    searched: usize,
) -> Result<Found, AllocError>
    requires waits { Awaits bytes.now awaited }
    requires within { searched ≤ length bytes.now }
    requires holds { HoldsNone bytes.now searched }
    ensures used { IfOk result (λ found. found.used ≤ length bytes.now) }
    ensures split { IfOk result (λ found. let rest = drop found.used bytes.now in
        Splits bytes.now (contents found.frames.items) (tail_of rest found.fault)) }
    ensures kept { IfOk result (λ found. let rest = drop found.used bytes.now in
        IsDecoder rest found.awaited found.searched found.fault) }
{
    if bytes.len() < awaited {
        return Ok(Found {
            frames: Vec::new(alloc),
            used: 0,
            awaited,
            searched,
            fault: None,
        });
    }
    if needs_more(bytes, searched) {
        return Ok(Found {
            frames: Vec::new(alloc),
            used: 0,
            awaited,
            searched: bytes.len(),
            fault: None,
        });
    }
    split(alloc, bytes)
}

/// Lets go of the bytes before a place. Where none are left, the room that they took is given up,
/// too: a message may be long.
fn discard(alloc: Global, bytes: &mut Vec<u8>, until: usize)
    requires { until ≤ length bytes.old.items }
    ensures { bytes.new.items ≡ drop until bytes.old.items }
{
    if until == bytes.len() {
        *bytes = Vec::new(alloc);
    } else {
        bytes.drain(..until);
    }
}

/// Puts a piece after the rest, and takes the whole frames off its start.
fn take_frames(
    alloc: Global,
    rest: &mut Vec<u8>,
    piece: &[u8],
    awaited: usize,
    searched: usize,
) -> Result<Found, AllocError>
    requires { IsDecoder rest.old.items awaited searched None }
    ensures split { IfOk result (λ found. Splits (rest.old.items ++ piece.now)
        (contents found.frames.items) (tail_of rest.new.items found.fault)) }
    ensures kept { IfOk result (λ found.
        IsDecoder rest.new.items found.awaited found.searched found.fault) }
    ensures refused { IfErr result (λ refused. rest.new.items ≡ rest.old.items) }
{
    let before = rest.len();
    rest.extend_from_slice(piece)?;
    match found_in(alloc, rest, awaited, searched) {
        Ok(found) => {
            discard(alloc, rest, found.used);
            Ok(found)
        }
        Err(refused) => {
            rest.truncate(before);
            Err(refused)
        }
    }
}

/// The frames; or the fault after them, where there are none.
fn answer(frames: Vec<Frame>, fault: Option<FrameFault>) -> Result<Vec<Frame>, FrameFault>
    ensures ok { IfOk result (λ answered. answered.items ≡ frames.items) }
    ensures none { IfOk result (λ answered. answered.items ≡ [] → fault ≡ None) }
    ensures fault { IfErr result (λ answered. (frames.items ≡ []) × (fault ≡ Some answered)) }
{
    match fault {
        Some(fault) if frames.is_empty() => Err(fault),
        _ => Ok(frames),
    }
}

/// Splits a stream into frames, and is seen as what is left of the stream after the whole ones.
#[derive(Drop)]
pub struct Decoder {
    /// The bytes after the whole frames.
    rest: Vec<u8>,
    /// How many bytes `rest` has to have before a frame of it can be whole, so that a content
    /// isn't looked at before.
    awaited: usize,
    /// How many bytes of `rest` hold no blank line, so that they aren't searched again.
    searched: usize,
    /// The fault that ended the stream.
    met: Option<FrameFault>,
}

impl Model for Decoder {
    ghost use Rattle.frames.specs.Frames.{Tail, tail_of};
    ghost use Rattle.frames.specs.Kept.{IsDecoder};

    ghost Value = { Tail };

    ghost view = { λ d. tail_of d.rest.items d.met };

    ghost invariant = { λ d. IsDecoder d.rest.items d.awaited d.searched d.met };
}

impl Decoder {
    /// The decoder of a stream of which nothing has come.
    pub fn new(alloc: Global) -> Decoder
        ensures { result ≡ Open [] }
    {
        Decoder {
            rest: Vec::new(alloc),
            awaited: 0,
            searched: 0,
            met: None,
        }
    }

    /// Takes the next piece of the stream, and returns the frames that are whole now, in order.
    ///
    /// If a fault follows these frames, the next call returns it; with no frames, this call does.
    /// From then on every call returns it and takes no bytes. `Memory` says that memory was
    /// refused: the piece isn't taken, and may be fed again.
    pub fn feed(&mut self, alloc: Global, piece: &[u8]) -> Result<Vec<Frame>, FrameFault>
        ensures ok { IfOk result (λ frames.
            GoesOn self.old piece.now (contents frames.items) self.new) }
        ensures none { IfOk result (λ frames. frames.items ≡ [] → IsOpen self.new) }
        ensures fault { IfErr result (λ fault. fault ≢ FrameFault.Memory →
            GoesOn self.old piece.now [] self.new × (self.new ≡ Faulty fault)) }
        ensures memory { IsErrOf result FrameFault.Memory → self.new ≡ self.old }
        ensures kind { IfErr result (λ fault. fault ≢ FrameFault.Truncated) }
        ensures ended { IfSome (fault_of self.old) (λ fault.
            IsErrOf result fault × (self.new ≡ self.old)) }

        // Each piece makes something of the stream, also one that isn't taken because memory was
        // refused.
        ensures goes_on { (contents : List (List ℕ)) × (new : Tail) ×
            GoesOn self.old piece.now contents new }

        // There are streams with these tails, so the promises above are never empty.
        ensures reached { IsReached self.old × IsReached self.new }
        ensures stream_fault { IfSome (fault_of self.new) IsStreamFault }
    {
        if let Some(fault) = self.met {
            return Err(fault);
        }
        match take_frames(alloc, &mut self.rest, piece, self.awaited, self.searched) {
            Ok(found) => {
                let Found {
                    frames,
                    used: _,
                    awaited,
                    searched,
                    fault,
                } = found;
                (self.awaited, self.searched, self.met) = (awaited, searched, fault);
                answer(frames, fault)
            }
            Err(_) => Err(FrameFault::Memory),
        }
    }

    /// The fault that ended the stream, if one was met.
    pub fn fault(&self) -> Option<FrameFault>
        ensures { result ≡ fault_of self.now }
    {
        self.met
    }

    /// What it means that the stream ends here: `Truncated` where a frame is begun and no fault
    /// was met, and the fault where one was.
    pub fn finish(&self) -> Result<(), FrameFault>
        ensures value { result ≡ finish_of self.now }
        ensures truncated { (result ≡ Err FrameFault.Truncated) ↔ IsCut self.now }
        ensures kind { IfErr result (λ fault. fault ≢ FrameFault.Memory) }
    {
        match self.met {
            Some(fault) => Err(fault),
            None if self.rest.is_empty() => Ok(()),
            None => Err(FrameFault::Truncated),
        }
    }
}
