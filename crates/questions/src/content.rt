//! What a content is read as, by the core and by the editor's server.

ghost use Rattle.std.specs.Prelude.{◌≡◌, if◌then◌else◌, None, Some, option_and_then, option_map, IfOk, IfSome};
ghost use Rattle.rpc.specs.Ids.{Ident, id_view};
ghost use Rattle.rpc.specs.Messages.{accepted, call_view, received_of, request};
ghost use Rattle.rpc.specs.Reading.{Receives};
ghost use Rattle.rpc.specs.Unit.{Unit as Encoding};
ghost use Rattle.sessions.specs.declared.phase.Phase.TheVariants.{Ready};
ghost use Rattle.questions.specs.Asked.{asked_in};
ghost use Rattle.questions.specs.Own.{own_of, own_view};
ghost use Rattle.questions.specs.Cancels.{question_id};

use crate::asked::{Asked, asked_in};
use crate::cancelling::copy_of;
use crate::client::Client;
use rpc::{Call, Id, Message, RpcFault, read};
use serde_json::Value;
use sessions::Phase;
use std::alloc::{AllocError, Global};

/// A request that the editor's server answers itself.
#[derive(Drop)]
pub struct Own {
    pub id: Id,
    pub asked: Asked,
}

/// What a content asks of the editor's server, where the core has read this message of it.
fn own_of(
    alloc: Global,
    phase: Phase,
    message: &Result<Message, RpcFault>,
    content: &[u8],
) -> Result<Option<Own>, AllocError>
    ensures { let asked = asked_in content.now in
        let received = received_of message.now in
        IfOk result (λ own.
        option_map own_view own ≡ option_and_then (λ r. own_of phase r asked) received) }
{
    let (Phase::Ready(_), Err(RpcFault::Unknown { id })) = (phase, message) else {
        return Ok(None);
    };
    match asked_in(alloc, content)? {
        Some(asked) => Ok(Some(Own {
            id: copy_of(alloc, id)?,
            asked,
        })),
        None => Ok(None),
    }
}

/// What the editor can show, where the core has read `initialize` of this content before the first
/// step.
fn client_of(
    alloc: Global,
    phase: Phase,
    message: &Result<Message, RpcFault>,
    content: &[u8],
) -> Result<Option<Client>, AllocError> {
    let (Phase::New, Ok(Message::Request(_, Call::Initialize { .. }))) = (phase, message) else {
        return Ok(None);
    };
    match Value::from_slice(alloc, content) {
        Ok(value) => Ok(Some(Client::of(&value))),
        Err(error) if error.is_memory() => Err(AllocError),
        Err(_) => Ok(None),
    }
}

/// What a content is read as.
#[derive(Drop)]
pub struct Content {
    /// What the core has read.
    pub message: Result<Message, RpcFault>,
    /// What it asks of the editor's server.
    pub own: Option<Own>,
    /// What the editor can show, where the content says it.
    pub client: Option<Client>,
}

/// Reads a content. It is let go of before it is answered, which may need as much memory.
pub fn read_content(alloc: Global, phase: Phase, content: Vec<u8>) -> Result<Content, AllocError>
    ensures message { IfOk result (λ read.
        IfSome (received_of read.message) (λ received. Receives content.items received)) }
    ensures own { let asked = asked_in content.items in
        IfOk result (λ read. let received = received_of read.message in
        option_map own_view read.own ≡ option_and_then (λ r. own_of phase r asked) received) }
{
    let message = read(alloc, &content);
    let own = own_of(alloc, phase, &message, &content)?;
    let client = client_of(alloc, phase, &message, &content)?;
    Ok(Content {
        message,
        own,
        client,
    })
}

/// Whether a request asks about a document.
fn is_question(call: &Call) -> bool
    ensures { (unit : Encoding) (id : Ident)
        → question_id (Ready unit) (accepted (request id (call_view call.now)))
        ≡ (if result then Some id else None) }
{
    match call {
        Call::Initialize { .. } | Call::Shutdown => false,
        Call::FoldingRange { .. }
        | Call::SelectionRange { .. }
        | Call::Text { .. }
        | Call::Tokens { .. }
        | Call::Tree { .. }
        | Call::Stats { .. } => true,
    }
}

/// The id of a question: of a request about a document, or of one that the core doesn't know, in
/// the ready phase.
pub fn question_id(phase: Phase, message: &Result<Message, RpcFault>) -> Option<&Id>
    ensures { option_map (λ id. id_view id.now) result
        ≡ option_and_then (question_id phase) (received_of message.now) }
{
    match (phase, message) {
        (Phase::Ready(_), Err(RpcFault::Unknown { id })) => Some(id),
        (Phase::Ready(_), Ok(Message::Request(id, call))) if is_question(call) => Some(id),
        _ => None,
    }
}
