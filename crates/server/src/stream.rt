//! The loop from bytes to bytes.

ghost use Rattle.std.specs.Prelude.{◌≡◌, ◌↔◌, ◌∷◌, [], Err, map, IfErr, IfSome, OnOk, OnErr, IsErrOf};
ghost use Rattle.std.specs.Io.KnownBytes.{Appends, Keeps};
ghost use Rattle.frames.specs.Contents.{contents};
ghost use Rattle.readings.specs.Answers.{AlwaysAnswers};
ghost use Rattle.rpc.specs.Messages.{received_of};
ghost use Rattle.rpc.specs.Reading.{Receives};
ghost use Rattle.rpc.specs.Replies.{reply_view};
ghost use Rattle.sessions.specs.Steps.{first_state};
ghost use Rattle.sessions.specs.Runs.{bytes_of};
ghost use Rattle.sessions.specs.Sessions.{AppendsPrefix, Session};
ghost use Rattle.sessions.specs.Serving.{CanServe};
ghost use Rattle.server.specs.Loop.{HasServed, IsCutShort, EndsAt, run_fault};
ghost use Rattle.server.specs.States.{state_view};

use crate::state::Server;
use frames::{Decoder, Frame, FrameFault, Input, Output, write_frame};
use rpc::{Message, Reply, RpcFault, read, to_bytes};
use sessions::RunFault;
use std::alloc::Global;

/// How many bytes are read at once: as many as a pipe of Linux holds.
const BUFFER_LEN: usize = 65_536;

/// The exit status where the input ends without `exit`.
const END_WITHOUT_EXIT: u8 = 1;

/// Writes a frame for each reply, in order.
fn write_replies<W: Output>(
    alloc: Global,
    output: &mut W,
    replies: &[Reply],
) -> Result<(), RunFault>
    requires { W.failures output.old ≡ 0 }
    ensures written { let bytes = bytes_of (map reply_view replies.now) in
        OnOk result (Appends (W.contents output.old) (W.contents output.new) bytes) }
    ensures prefix { let bytes = bytes_of (map reply_view replies.now) in
        OnErr result (AppendsPrefix (W.contents output.old) (W.contents output.new) bytes) }
    ensures works { OnOk result (W.failures output.new ≡ 0) }
    ensures fault { IfErr result (λ e. IsCutShort e (W.failures output.new)) }
{
    for reply in replies {
        let content = to_bytes(alloc, reply)?;
        match write_frame(output, &content) {
            Ok(()) => {}
            Err(_) => return Err(RunFault::Write),
        }
    }
    Ok(())
}

/// What a content is read as. The content is let go of before the message is answered, which may
/// need as much memory.
fn message_of(alloc: Global, content: Vec<u8>) -> Result<Message, RpcFault>
    ensures { IfSome (received_of result) (λ received. Receives content.items received) }
{
    read(alloc, &content)
}

/// Answers one content.
fn serve_content<W: Output>(
    alloc: Global,
    server: &mut Server,
    output: &mut W,
    content: Vec<u8>,
) -> Result<Option<u8>, RunFault>
    requires output { W.failures output.old ≡ 0 }
    requires server { CanServe (state_view server.old) }
    ensures { HasServed (W.contents output.old) (W.contents output.new) (W.failures output.new)
        (state_view server.old) (content.items ∷ []) result (state_view server.new) }
{
    let message = message_of(alloc, content);
    let out = server.handle(alloc, message)?;
    write_replies(alloc, output, &out.replies)?;
    Ok(out.stop)
}

/// Answers the contents of some frames, up to the first that ends the session.
fn serve_all<W: Output>(
    alloc: Global,
    server: &mut Server,
    output: &mut W,
    frames: Vec<Frame>,
) -> Result<Option<u8>, RunFault>
    requires output { W.failures output.old ≡ 0 }
    requires server { CanServe (state_view server.old) }
    ensures { HasServed (W.contents output.old) (W.contents output.new) (W.failures output.new)
        (state_view server.old) (contents frames.items) result (state_view server.new) }
{
    for frame in frames {
        if let Some(status) = serve_content(alloc, server, output, frame.content)? {
            return Ok(Some(status));
        }
    }
    Ok(None)
}

/// Passes the answers on.
fn flush<W: Output>(output: &mut W) -> Result<(), RunFault>
    requires { W.failures output.old ≡ 0 }
    ensures kept { Keeps (W.contents output.old) (W.contents output.new) }
    ensures works { OnOk result (W.failures output.new ≡ 0) }
    ensures fault { IfErr result (λ e. IsCutShort e (W.failures output.new)) }
{
    match output.flush() {
        Ok(()) => Ok(()),
        Err(_) => Err(RunFault::Write),
    }
}

/// The exit status where the input ends without `exit`, or the fault of a frame cut short.
fn end_of(decoder: &Decoder) -> Result<u8, RunFault>
    ensures { EndsAt result decoder.now }
{
    match decoder.finish() {
        Ok(()) => Ok(END_WITHOUT_EXIT),
        Err(fault) => Err(RunFault::Frame(fault)),
    }
}

/// A fault of the stream as the fault of a session: memory that is refused in the frames is
/// refused memory.
fn run_fault(fault: FrameFault) -> RunFault
    ensures { result ≡ run_fault fault }
{
    match fault {
        FrameFault::Memory => RunFault::Memory,
        _ => RunFault::Frame(fault),
    }
}

/// Answers what comes in, from the first byte on to `exit`, to the end of the input, or to a
/// fault: by a server that no message has reached, and that always has an answer.
pub(crate) fn serve<R: Input, W: Output>(
    alloc: Global,
    server: &mut Server,
    input: &mut R,
    output: &mut W,
) -> Result<u8, RunFault>
    requires always { AlwaysAnswers (state_view server.old).file }
    requires server { let state = state_view server.old in state ≡ first_state state.file }
    requires input { R.failures input.old ≡ 0 }
    requires output { W.failures output.old ≡ 0 }
    ensures session { let old = W.contents output.old in
        let new = W.contents output.new in
        let file = (state_view server.old).file in
        Session file (R.remaining input.old) (R.remaining input.new) old new result }
    ensures read { IsErrOf result RunFault.Read ↔ R.failures input.new ≡ 1 }
    ensures write { IsErrOf result RunFault.Write ↔ W.failures output.new ≡ 1 }
{
    let mut decoder = Decoder::new(alloc);
    let mut buffer = [0; BUFFER_LEN];
    loop {
        let count = match input.read(&mut buffer) {
            Ok(count) => count,
            Err(_) => return Err(RunFault::Read),
        };
        if count == 0 {
            return end_of(&decoder);
        }
        match decoder.feed(alloc, &buffer[..count]) {
            Ok(frames) => {
                let stop = serve_all(alloc, server, output, frames)?;
                flush(output)?;
                if let Some(status) = stop {
                    return Ok(status);
                }
                if let Some(fault) = decoder.fault() {
                    return Err(RunFault::Frame(fault));
                }
            }
            Err(fault) => return Err(run_fault(fault)),
        }
    }
}
