//! A core in the place of another one, with its documents.

ghost use Rattle.std.specs.Prelude.{◌≡◌, map, IfOk, IfSome, OnOk};
ghost use Rattle.readings.specs.Grammars.{FileGrammar};
ghost use Rattle.replies.specs.Replies.{reply_view};
ghost use Rattle.rpc.specs.Messages.{accepted, message_view};
ghost use Rattle.rpc.specs.Unit.{Unit as Encoding};
ghost use Rattle.server.specs.States.{state_view};
ghost use Rattle.reopening.specs.Reopening.{ready_state, IsOpening, Reopens};

use docs::Language;
use rpc::{Call, Id, Message, Note, Reply, Unit};
use server::Server;
use std::alloc::{AllocError, Global};

/// A core, and what it has answered.
#[derive(Drop)]
pub struct Core {
    pub server: Server,
    pub replies: Vec<Reply>,
}

/// A core of this language that is initialized, and positions count this unit.
fn initialized(alloc: Global, language: Language, unit: Unit) -> Result<Server, AllocError>
    ensures { IfOk result (λ server. state_view server ≡ ready_state language.file unit) }
{
    let mut server = Server::new(alloc, language);
    let request = Message::Request(Id::Number(0), Call::Initialize { unit });
    // Its answer was sent when the first core gave it.
    let _answered = server.handle(alloc, Ok(request))?;
    Ok(server)
}

/// The message that opens a document of the old core as it is; none where it isn't open there.
fn opening(alloc: Global, old: &Server, uri: &str) -> Result<Option<Message>, AllocError>
    ensures { let documents = (state_view old.now).documents in
        IfOk result (λ message. IfSome message (λ m.
        IsOpening documents (accepted (message_view m)))) }
{
    match old.document(uri) {
        Ok(doc) => Ok(Some(Message::Notice(Note::DidOpen {
            uri: String::from_str(alloc, uri)?,
            version: doc.version(),
            text: doc.text(alloc)?,
        }))),
        Err(_) => Ok(None),
    }
}

/// Opens the document of this URI in the core as it is in the old one, where it is open there.
/// The core's answers stand behind the others.
fn open_again(
    alloc: Global,
    old: &Server,
    uri: &str,
    server: &mut Server,
    replies: &mut Vec<Reply>,
) -> Result<(), AllocError>
    ensures { let old = state_view old.now in
        let before = map reply_view replies.old.items in
        let after = map reply_view replies.new.items in
        (unit : Encoding) (file : FileGrammar)
        → Reopens old unit file before (state_view server.old)
        → OnOk result (Reopens old unit file after (state_view server.new)) }
{
    let Some(message) = opening(alloc, old, uri)? else {
        return Ok(());
    };
    let mut answered = server.handle(alloc, Ok(message))?;
    replies.append(&mut answered.replies)?;
    Ok(())
}

/// A core of this language, in which the documents of the old one under these URIs are opened as
/// they are, with its answers to that. Refuses for memory alone.
pub fn reopened(
    alloc: Global,
    old: &Server,
    uris: &[String],
    unit: Unit,
    language: Language,
) -> Result<Core, AllocError>
    ensures { let old = state_view old.now in
        IfOk result (λ core. Reopens old unit language.file
        (map reply_view core.replies.items) (state_view core.server)) }
{
    let mut server = initialized(alloc, language, unit)?;
    let mut replies = Vec::new(alloc);
    for uri in uris {
        open_again(alloc, old, uri.as_str(), &mut server, &mut replies)?;
    }
    Ok(Core { server, replies })
}
