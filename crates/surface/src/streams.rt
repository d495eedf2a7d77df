//! Frames: `frames`.

ghost use Rattle.std.specs.Prelude.{◌≡◌, [], ◌≢◌, IfSome, IfOk, IfErr, IsErrOf, ℕ, List, ◌↔◌, ◌+◌, ◌≤◌, length, OnOk, MatchResult, ◌<◌, ◌^◌, ◌-◌, Some, None, take, Result, IsTrue};
ghost use Rattle.frames.specs.Frames.{Open, Tail, Faulty, IsReached, GoesOn, IsOpen, IsStreamFault, fault_of, IsCut, finish_of, Splits, HasSplit, Continues};
ghost use Rattle.frames.specs.Contents.{contents};
ghost use Rattle.std.specs.Io.KnownBytes.{ReadConsumes, WriteAppends, Keeps};
ghost use Rattle.frames.specs.Write.{frame, Writes};
ghost use Rattle.frames.specs.Header.{header_size, IsWhole, IsHeaderPart, header_length, IsHeaderLength};
ghost use Rattle.frames.specs.declared.fault.DeviceFault.{DeviceFault as Device};
ghost use Rattle.frames.specs.declared.fault.FrameFault.{FrameFault as Fault};
ghost use Rattle.std.specs.Prelude.{if◌then◌else◌, Some, None, []};

use frames::{
    Decoder, DeviceFault, Frame, FrameFault, Input, Output, ReadInput, WriteOutput, write_frame,
};
use std::alloc::Global;
use std::io::{Read, Write};

/// `Frame`.
pub fn frame(frame: Frame) -> Vec<u8> {
    let Frame { content } = frame;
    content
}

/// `FrameFault`: the number of the fault.
pub fn frame_fault(fault: FrameFault) -> u8 {
    match fault {
        FrameFault::BadField => 1,
        FrameFault::NoLength => 2,
        FrameFault::SecondLength => 3,
        FrameFault::BadLength => 4,
        FrameFault::BadCharset => 5,
        FrameFault::Truncated => 6,
        FrameFault::Memory => 7,
        FrameFault::LongHeader => 8,
    }
}

/// `Decoder::new`.
pub fn decoder(alloc: Global) -> Decoder
    ensures { result ≡ Open [] }
{
    Decoder::new(alloc)
}

/// `Decoder::feed`.
pub fn feed(decoder: &mut Decoder, alloc: Global, piece: &[u8]) -> Result<Vec<Frame>, FrameFault>
    ensures ok { IfOk result (λ frames.
        GoesOn decoder.old piece.now (contents frames.items) decoder.new) }
    ensures none { IfOk result (λ frames. frames.items ≡ [] → IsOpen decoder.new) }
    ensures fault { IfErr result (λ fault. fault ≢ FrameFault.Memory →
        GoesOn decoder.old piece.now [] decoder.new × (decoder.new ≡ Faulty fault)) }
    ensures memory { IsErrOf result FrameFault.Memory → decoder.new ≡ decoder.old }
    ensures kind { IfErr result (λ fault. fault ≢ FrameFault.Truncated) }
    ensures ended { IfSome (fault_of decoder.old) (λ fault.
        IsErrOf result fault × (decoder.new ≡ decoder.old)) }

    ensures goes_on { (contents : List (List ℕ)) × (new : Tail) ×
        GoesOn decoder.old piece.now contents new }

    ensures reached { IsReached decoder.old × IsReached decoder.new }
    ensures stream_fault { IfSome (fault_of decoder.new) IsStreamFault }
{
    decoder.feed(alloc, piece)
}

/// `Decoder::fault`.
pub fn fault(decoder: &Decoder) -> Option<FrameFault>
    ensures { result ≡ fault_of decoder.now }
{
    decoder.fault()
}

/// `Decoder::finish`.
pub fn finish(decoder: &Decoder) -> Result<(), FrameFault>
    ensures value { result ≡ finish_of decoder.now }
    ensures truncated { (result ≡ Err FrameFault.Truncated) ↔ IsCut decoder.now }
    ensures kind { IfErr result (λ fault. fault ≢ FrameFault.Memory) }
{
    decoder.finish()
}

/// `Input::read`.
pub fn read_from<R: Input>(input: &mut R, buffer: &mut [u8]) -> Result<usize, DeviceFault>
    requires { R.failures input.old ≡ 0 }
    ensures bound { IfOk result (λ n. n ≤ length buffer.new) }
    ensures bytes { ReadConsumes (R.remaining input.old) (R.remaining input.new) result buffer.new }
    ensures reads { OnOk result (R.reads_left input.old ≡ R.reads_left input.new + 1) }
    ensures cause { MatchResult result
        (λ _. R.failures input.new ≡ 0) (λ _. R.failures input.new ≡ 1) }
{
    input.read(buffer)
}

/// `Output::write`.
pub fn write_to<W: Output>(output: &mut W, bytes: &[u8]) -> Result<usize, DeviceFault>
    requires { W.failures output.old ≡ 0 }
    ensures bound { IfOk result (λ n. n ≤ length bytes.now) }
    ensures some { IfOk result (λ n. 0 < length bytes.now → 0 < n) }
    ensures bytes { WriteAppends (W.contents output.old) (W.contents output.new) result bytes.now }
    ensures cause { MatchResult result
        (λ _. W.failures output.new ≡ 0) (λ _. W.failures output.new ≡ 1) }
{
    output.write(bytes)
}

/// `Output::flush`.
pub fn flush<W: Output>(output: &mut W) -> Result<(), DeviceFault>
    requires { W.failures output.old ≡ 0 }
    ensures bytes { Keeps (W.contents output.old) (W.contents output.new) }
    ensures cause { MatchResult result
        (λ _. W.failures output.new ≡ 0) (λ _. W.failures output.new ≡ 1) }
{
    output.flush()
}

/// `ReadInput`, the adapter over `Read`.
pub fn input<R: Read>(inner: R) -> ReadInput<R>
    ensures bytes { ⟦<ReadInput<R> as Input>⟧.remaining result ≡ R.remaining inner }
    ensures reads { ⟦<ReadInput<R> as Input>⟧.reads_left result ≡ 2 ^ 64 - 1 }
    ensures works { ⟦<ReadInput<R> as Input>⟧.failures result ≡ 0 }
{
    ReadInput::new(inner)
}

/// `WriteOutput`, the adapter over `Write`.
pub fn output<W: Write>(inner: W) -> WriteOutput<W>
    ensures bytes { ⟦<WriteOutput<W> as Output>⟧.contents result ≡ W.contents inner }
    ensures works { ⟦<WriteOutput<W> as Output>⟧.failures result ≡ 0 }
{
    WriteOutput::new(inner)
}

/// `write_frame`.
pub fn write_one<W: Output>(output: &mut W, content: &[u8]) -> Result<(), DeviceFault>
    requires { W.failures output.old ≡ 0 }
    ensures bytes { Writes
        (W.contents output.old) (W.contents output.new) result (frame content.now) }
    ensures cause { MatchResult result
        (λ _. W.failures output.new ≡ 0) (λ _. W.failures output.new ≡ 1) }
{
    write_frame(output, content)
}

/// An input at its end.
#[derive(Drop)]
struct Ended {
    reads: u64,
    has_failed: bool,
}

impl Input for Ended {
    ghost remaining = { λ _. Some [] };

    ghost reads_left = { λ s. s.reads };

    ghost failures = { λ s. if s.has_failed then 1 else 0 };

    fn read(&mut self, _buf: &mut [u8]) -> Result<usize, DeviceFault> {
        if self.reads == 0 {
            self.has_failed = true;
            return Err(DeviceFault);
        }
        self.reads -= 1;
        Ok(0)
    }
}

/// An output that takes all bytes and tells nobody.
#[derive(Drop)]
struct Sunk;

impl Output for Sunk {
    ghost contents = { λ _. None };

    ghost failures = { λ _. 0 };

    fn write(&mut self, bytes: &[u8]) -> Result<usize, DeviceFault> {
        Ok(bytes.len())
    }

    fn flush(&mut self) -> Result<(), DeviceFault> {
        Ok(())
    }
}

/// `one_split`.
pub fn one_split()
    ensures some { (bytes : List ℕ) → HasSplit bytes }
    ensures at_most_one { (bytes : List ℕ) (cs ds : List (List ℕ)) (t u : Tail) →
        Splits bytes cs t → Splits bytes ds u → (cs ≡ ds) × (t ≡ u) }
{
    frames::one_split();
}

/// `streams_go_on`.
pub fn streams_go_on()
    ensures { (old : Tail) (piece : List ℕ) (contents : List (List ℕ)) (new : Tail) →
        Continues old piece contents new → GoesOn old piece contents new }
{
    frames::streams_go_on();
}

/// `shortest_header_part`.
pub fn shortest_header_part()
    ensures found { (bytes : List ℕ) (size : ℕ) →
        (header_size bytes ≡ Some size) ↔ IsHeaderPart bytes size }
    ensures none { (bytes : List ℕ) (n : ℕ) → header_size bytes ≡ None → ¬ IsWhole (take n bytes) }
{
    frames::shortest_header_part();
}

/// `first_fault_decides`.
pub fn first_fault_decides()
    ensures { (part : List ℕ) (result : Result ℕ FrameFault) → IsWhole part →
        (header_length part ≡ result) ↔ IsHeaderLength part result }
{
    frames::first_fault_decides();
}

/// `equal_faults_are_the_same`.
pub fn equal_frames_faults_are_the_same()
    ensures devices { (a b : Device) →
        IsTrue (⟦<frames::DeviceFault as PartialEq>⟧.eq a b) ↔ (a ≡ b) }
    ensures frames { (a b : Fault) → IsTrue (⟦<frames::FrameFault as PartialEq>⟧.eq a b) ↔ (a ≡ b) }
{
    frames::equal_faults_are_the_same();
}
