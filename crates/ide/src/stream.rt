//! The loop from bytes to bytes.

ghost use Rattle.std.specs.Prelude.{◌≡◌, ◌↔◌, ◌∷◌, [], None, drop, map, IfErr, OnOk, OnErr, IsErrOf};
ghost use Rattle.std.specs.Io.KnownBytes.{Appends, Keeps};
ghost use Rattle.frames.specs.Contents.{contents};
ghost use Rattle.sessions.specs.Sessions.{AppendsPrefix};
ghost use Rattle.server.specs.Loop.{EndsAt, IsCutShort, run_fault};
ghost use Rattle.questions.specs.Cancels.{later_view};
ghost use Rattle.ide.specs.Loop.{HasServed, Served, ServedInPart};
ghost use Rattle.ide.specs.Runs.{EachRunIsTheCores};
ghost use Rattle.editor_replies.specs.Sending.{bytes_of};
ghost use Rattle.editor_replies.specs.Sent.{message_view};
ghost use Rattle.shown.specs.Shown.{shown_data};
ghost use Rattle.ide.specs.Servers.{state_of};
ghost use Rattle.ide.specs.Sessions.{Session};
ghost use Rattle.own_replies.specs.States.{first_of};

use crate::ide::Ide;
use crate::laws::each_run_is_the_cores;
use crate::looked::Watch;
use docs::Language;
use editor_replies::{Sent, to_bytes};
use frames::{Decoder, Frame, FrameFault, Input, Output, write_frame};
use questions::cancels;
use rpc::Id;
use server::RunFault;
use shown::Shown;
use std::alloc::Global;

/// How many bytes are read at once: as many as a pipe of Linux holds.
const BUFFER_LEN: usize = 65_536;

/// Writes a frame for each message, in order.
fn write_messages<W: Output>(
    alloc: Global,
    output: &mut W,
    messages: &[Sent],
) -> Result<(), RunFault>
    requires { W.failures output.old ≡ 0 }
    ensures written { let bytes = bytes_of (map message_view messages.now) in
        OnOk result (Appends (W.contents output.old) (W.contents output.new) bytes) }
    ensures prefix { let bytes = bytes_of (map message_view messages.now) in
        OnErr result (AppendsPrefix (W.contents output.old) (W.contents output.new) bytes) }
    ensures works { OnOk result (W.failures output.new ≡ 0) }
    ensures fault { IfErr result (λ e. IsCutShort e (W.failures output.new)) }
{
    for message in messages {
        let content = to_bytes(alloc, message)?;
        match write_frame(output, &content) {
            Ok(()) => {}
            Err(_) => return Err(RunFault::Write),
        }
    }
    Ok(())
}

/// Answers one content. Each content that was read after it cancels the request with its id in
/// `later`, if it cancels one.
fn serve_content<W: Output>(
    alloc: Global,
    server: &mut Ide,
    output: &mut W,
    content: Vec<u8>,
    later: &[Option<Id>],
) -> Result<Option<u8>, RunFault>
    requires { W.failures output.old ≡ 0 }
    ensures { let old = W.contents output.old in
        let new = W.contents output.new in
        HasServed old new (W.failures output.new) (state_of server.old) (content.items ∷ [])
        (later_view later.now) result (state_of server.new) }
{
    let sending = server.handle(alloc, content, later)?;
    write_messages(alloc, output, &sending.messages)?;
    Ok(sending.stop)
}

/// All but the first.
fn others(later: &[Option<Id>]) -> &[Option<Id>]
    ensures { result.now ≡ drop 1 later.now }
{
    later.get(1..).unwrap_or(&[])
}

/// Answers the contents of some frames, up to the first that ends the session.
fn serve_all<W: Output>(
    alloc: Global,
    server: &mut Ide,
    output: &mut W,
    frames: Vec<Frame>,
) -> Result<Option<u8>, RunFault>
    requires { W.failures output.old ≡ 0 }
    ensures { let old = W.contents output.old in
        let new = W.contents output.new in
        HasServed old new (W.failures output.new) (state_of server.old) (contents frames.items) []
        result (state_of server.new) }
{
    let cancels = cancels(alloc, &frames)?;
    let mut later = cancels.as_slice();
    for frame in frames {
        if let Some(status) = serve_content(alloc, server, output, frame.content, later)? {
            return Ok(Some(status));
        }
        later = others(later);
    }
    Ok(None)
}

/// Looks at the files of the language, and sends what comes of it.
fn serve_look<W: Output, F: Watch>(
    alloc: Global,
    server: &mut Ide,
    output: &mut W,
    files: &mut F,
) -> Result<(), RunFault>
    requires { W.failures output.old ≡ 0 }
    ensures written { let old = W.contents output.old in
        let new = W.contents output.new in
        OnOk result (Served old new (state_of server.old) [] [] None (state_of server.new)) }
    ensures part { let old = W.contents output.old in
        let new = W.contents output.new in
        OnErr result (ServedInPart old new (state_of server.old) [] []) }
    ensures works { OnOk result (W.failures output.new ≡ 0) }
    ensures fault { IfErr result (λ e. IsCutShort e (W.failures output.new)) }
{
    if !server.is_ready() {
        return Ok(());
    }
    let looked = files.look(alloc)?;
    let messages = server.look(alloc, files.paths(), looked)?;
    write_messages(alloc, output, &messages)
}

/// Answers what a piece of the input has made whole, after a look at the files of the language.
fn serve_piece<W: Output, F: Watch>(
    alloc: Global,
    server: &mut Ide,
    output: &mut W,
    files: &mut F,
    frames: Vec<Frame>,
) -> Result<Option<u8>, RunFault>
    requires { W.failures output.old ≡ 0 }
    ensures { let old = W.contents output.old in
        let new = W.contents output.new in
        HasServed old new (W.failures output.new) (state_of server.old) (contents frames.items) []
        result (state_of server.new) }
{
    serve_look(alloc, server, output, files)?;
    serve_all(alloc, server, output, frames)
}

/// Passes on what was written.
fn flush<W: Output>(output: &mut W) -> Result<(), RunFault>
    requires { W.failures output.old ≡ 0 }
    ensures kept { Keeps (W.contents output.old) (W.contents output.new) }
    ensures works { OnOk result (W.failures output.new ≡ 0) }
    ensures fault { IfErr result (λ e. IsCutShort e (W.failures output.new)) }
{
    match output.flush() {
        Ok(()) => Ok(()),
        Err(_) => Err(RunFault::Write),
    }
}

/// The exit status where the input ends without `exit`, or the fault of a frame cut short.
fn end_of(decoder: &Decoder) -> Result<u8, RunFault>
    ensures { EndsAt result decoder.now }
{
    match decoder.finish() {
        Ok(()) => Ok(1),
        Err(fault) => Err(RunFault::Frame(fault)),
    }
}

/// A fault of the stream as the fault of a session: memory that is refused in the frames is
/// refused memory.
fn run_fault(fault: FrameFault) -> RunFault
    ensures { result ≡ run_fault fault }
{
    match fault {
        FrameFault::Memory => RunFault::Memory,
        _ => RunFault::Frame(fault),
    }
}

/// Answers what comes in, from the first byte on to `exit`, to the end of the input, or to a
/// fault.
fn serve<R: Input, W: Output, F: Watch>(
    alloc: Global,
    server: &mut Ide,
    input: &mut R,
    output: &mut W,
    files: &mut F,
) -> Result<u8, RunFault>
    requires server { let state = state_of server.old in
        state ≡ first_of state.core.file state.shown }
    requires input { R.failures input.old ≡ 0 }
    requires output { W.failures output.old ≡ 0 }
    ensures session { let old = W.contents output.old in
        let new = W.contents output.new in
        let state = state_of server.old in
        Session state.shown state.core.file (R.remaining input.old) (R.remaining input.new) old
        new result }
    ensures read { IsErrOf result RunFault.Read ↔ R.failures input.new ≡ 1 }
    ensures write { IsErrOf result RunFault.Write ↔ W.failures output.new ≡ 1 }
{
    let mut decoder = Decoder::new(alloc);
    let mut buffer = [0; BUFFER_LEN];
    loop {
        let count = match input.read(&mut buffer) {
            Ok(count) => count,
            Err(_) => return Err(RunFault::Read),
        };
        if count == 0 {
            return end_of(&decoder);
        }
        match decoder.feed(alloc, &buffer[..count]) {
            Ok(frames) => {
                let stop = serve_piece(alloc, server, output, files, frames)?;
                flush(output)?;
                if let Some(status) = stop {
                    return Ok(status);
                }
                if let Some(fault) = decoder.fault() {
                    return Err(RunFault::Frame(fault));
                }
            }
            Err(fault) => return Err(run_fault(fault)),
        }
    }
}

/// A session from its first byte to `exit`, to the end of the input, or to a fault.
/// Before each piece of the input is answered it looks at the files of the language.
pub fn run<R: Input, W: Output, F: Watch>(
    alloc: Global,
    language: Language,
    shown: Shown,
    input: &mut R,
    output: &mut W,
    files: &mut F,
) -> Result<u8, RunFault>
    requires input { R.failures input.old ≡ 0 }
    requires output { W.failures output.old ≡ 0 }
    // What is read and written is a session, whatever ends it.
    ensures session { let old = W.contents output.old in
        let new = W.contents output.new in
        Session (shown_data shown) language.file (R.remaining input.old)
        (R.remaining input.new) old new result }
    // In each run there is one of the core, so that what holds of every run of it holds here.
    ensures core { EachRunIsTheCores }
    // A device fault is answered exactly where the device failed.
    ensures read { IsErrOf result RunFault.Read ↔ R.failures input.new ≡ 1 }
    ensures write { IsErrOf result RunFault.Write ↔ W.failures output.new ≡ 1 }
{
    each_run_is_the_cores();
    let mut server = Ide::new(alloc, language, shown);
    serve(alloc, &mut server, input, output, files)
}
