//! Which content is which message.

ghost use Rattle.std.specs.Prelude.{◌≡◌, Some, codes, map, option_map, IfOk, IfSome, false, string_bytes};
ghost use Rattle.serde_json.specs.Find.{get};
ghost use Rattle.serde_json.specs.View.{view, items_view};
ghost use Rattle.replies.specs.Ids.{id_view};
ghost use Rattle.rpc.specs.Messages.{accepted, refused, params, its_text, its_tokens, its_tree, its_folds, change_view, note_view, message_view, fault_view, received_of};
ghost use Rattle.rpc.specs.Reading.{maybe_range, change_of, changes_of, changes_at, read_open, read_change, read_close, initialize_request, document_request, stats_request, selections_request, request_of, notification_of, of_method, message_of, uri_at, positions_at, params_at, Gives, Receives};

use crate::fields::{integer_at, text_at, text_of};
use crate::message::{Call, Change, Malformed, Message, Note, RpcFault};
use crate::parts::{has_outcome, has_version, id_of, positions_at, range_of, unit_at, uri_at};
use definitions::Range;
use replies::Id;
use serde_json::Value;
use std::alloc::{AllocError, Global};

/// No `range` member, or one that is a range.
fn maybe_range(value: &Value) -> Option<Option<Range>>
    ensures { result ≡ maybe_range (get (codes "range") (view value.now)) }
{
    match value.get("range") {
        None => Some(None),
        Some(member) => Some(Some(range_of(member)?)),
    }
}

/// A change (LSP 3.17, "TextDocumentContentChangeEvent").
fn change_of(alloc: Global, value: &Value) -> Result<Option<Change>, AllocError>
    ensures { IfOk result (λ change. option_map change_view change ≡ change_of (view value.now)) }
{
    match (text_at(value, "text"), maybe_range(value)) {
        (Some(text), Some(range)) => Ok(Some(Change {
            range,
            text: String::from_str(alloc, text)?,
        })),
        _ => Ok(None),
    }
}

/// The changes, where each item is one.
fn changes_of(alloc: Global, items: &[Value]) -> Result<Option<Vec<Change>>, AllocError>
    ensures { IfOk result (λ changes.
        option_map (λ v. map change_view v.items) changes ≡ changes_of (items_view items.now)) }
{
    let mut changes = Vec::new(alloc);
    for item in items {
        match change_of(alloc, item)? {
            Some(change) => changes.push(change)?,
            None => return Ok(None),
        }
    }
    Ok(Some(changes))
}

/// The changes of a document, where they are a list and each item is one.
fn changes_at(alloc: Global, params: &Value) -> Result<Option<Vec<Change>>, AllocError>
    ensures { IfOk result (λ changes.
        option_map (λ v. map change_view v.items) changes ≡ changes_at (view params.now)) }
{
    match params.get("contentChanges") {
        Some(Value::Array(items)) => changes_of(alloc, items),
        _ => Ok(None),
    }
}

/// What a `textDocument/didOpen` with these parameters carries.
fn read_open(alloc: Global, params: &Value) -> Result<Note, AllocError>
    ensures { IfOk result (λ note. note_view note ≡ read_open (view params.now)) }
{
    let Some(document) = params.get("textDocument") else {
        return Ok(Note::Malformed(Malformed::DidOpen));
    };
    let uri = text_at(document, "uri");
    let version = integer_at(document, "version");
    match (uri, version, text_at(document, "text")) {
        (Some(uri), Some(version), Some(text)) => Ok(Note::DidOpen {
            uri: String::from_str(alloc, uri)?,
            version,
            text: String::from_str(alloc, text)?,
        }),
        _ => Ok(Note::Malformed(Malformed::DidOpen)),
    }
}

/// What a `textDocument/didChange` with these parameters carries.
fn read_change(alloc: Global, params: &Value) -> Result<Note, AllocError>
    ensures { IfOk result (λ note. note_view note ≡ read_change (view params.now)) }
{
    let Some(document) = params.get("textDocument") else {
        return Ok(Note::Malformed(Malformed::DidChange { uri: None }));
    };
    let Some(uri) = text_at(document, "uri") else {
        return Ok(Note::Malformed(Malformed::DidChange { uri: None }));
    };
    let uri = String::from_str(alloc, uri)?;
    match (integer_at(document, "version"), changes_at(alloc, params)?) {
        (Some(version), Some(changes)) => Ok(Note::DidChange {
            uri,
            version,
            changes,
        }),
        _ => Ok(Note::Malformed(Malformed::DidChange { uri: Some(uri) })),
    }
}

/// What a `textDocument/didClose` with these parameters carries.
fn read_close(alloc: Global, params: &Value) -> Result<Note, AllocError>
    ensures { IfOk result (λ note. note_view note ≡ read_close (view params.now)) }
{
    match copied_uri(alloc, params)? {
        Some(uri) => Ok(Note::DidClose { uri }),
        None => Ok(Note::Malformed(Malformed::DidClose)),
    }
}

/// An `initialize`, whose parameters are an object that may name units of positions.
fn initialize_request(id: Id, params: &Value) -> Result<Message, RpcFault>
    ensures { Gives result (initialize_request (id_view id) (view params.now)) }
{
    if params.is_object() {
        let unit = unit_at(params);
        Ok(Message::Request(id, Call::Initialize { unit }))
    } else {
        Err(RpcFault::Params {
            id,
            initialize: true,
        })
    }
}

/// The URI of the document that the parameters name.
fn copied_uri(alloc: Global, params: &Value) -> Result<Option<String>, AllocError>
    ensures { IfOk result (λ uri. option_map string_bytes uri ≡ uri_at (view params.now)) }
{
    match uri_at(params) {
        Some(uri) => Ok(Some(String::from_str(alloc, uri)?)),
        None => Ok(None),
    }
}

/// The refusal of parameters that don't fit, of another method than `initialize`.
fn params_fault(id: Id) -> RpcFault
    ensures { fault_view result ≡ Some (refused (params (id_view id) false)) }
{
    RpcFault::Params {
        id,
        initialize: false,
    }
}

/// An `lr/text`, whose parameters name a document.
fn text_request(alloc: Global, id: Id, params: &Value) -> Result<Message, RpcFault>
    ensures { Gives result (document_request its_text (id_view id) (uri_at (view params.now))) }
{
    match copied_uri(alloc, params)? {
        Some(uri) => Ok(Message::Request(id, Call::Text { uri })),
        None => Err(params_fault(id)),
    }
}

/// An `lr/tokens`, whose parameters name a document.
fn tokens_request(alloc: Global, id: Id, params: &Value) -> Result<Message, RpcFault>
    ensures { Gives result (document_request its_tokens (id_view id) (uri_at (view params.now))) }
{
    match copied_uri(alloc, params)? {
        Some(uri) => Ok(Message::Request(id, Call::Tokens { uri })),
        None => Err(params_fault(id)),
    }
}

/// An `lr/tree`, whose parameters name a document.
fn tree_request(alloc: Global, id: Id, params: &Value) -> Result<Message, RpcFault>
    ensures { Gives result (document_request its_tree (id_view id) (uri_at (view params.now))) }
{
    match copied_uri(alloc, params)? {
        Some(uri) => Ok(Message::Request(id, Call::Tree { uri })),
        None => Err(params_fault(id)),
    }
}

/// An `lr/stats`, whose parameters name a document.
fn stats_request(alloc: Global, id: Id, params: &Value) -> Result<Message, RpcFault>
    ensures { Gives result (stats_request (id_view id) (uri_at (view params.now))) }
{
    match copied_uri(alloc, params)? {
        Some(uri) => Ok(Message::Request(id, Call::Stats { uri })),
        None => Err(params_fault(id)),
    }
}

/// A `textDocument/foldingRange`, whose parameters name a document.
fn folds_request(alloc: Global, id: Id, params: &Value) -> Result<Message, RpcFault>
    ensures { Gives result (document_request its_folds (id_view id) (uri_at (view params.now))) }
{
    match copied_uri(alloc, params)? {
        Some(uri) => Ok(Message::Request(id, Call::FoldingRange { uri })),
        None => Err(params_fault(id)),
    }
}

/// A `textDocument/selectionRange`, whose parameters name a document and positions in it.
fn selections_request(alloc: Global, id: Id, params: &Value) -> Result<Message, RpcFault>
    ensures { let uri = uri_at (view params.now) in
        Gives result (selections_request (id_view id) uri (positions_at (view params.now))) }
{
    match (copied_uri(alloc, params)?, positions_at(alloc, params)?) {
        (Some(uri), Some(positions)) => {
            Ok(Message::Request(id, Call::SelectionRange { uri, positions }))
        }
        _ => Err(params_fault(id)),
    }
}

/// The request of a method.
fn request_of(alloc: Global, method: &str, id: Id, params: &Value) -> Result<Message, RpcFault>
    ensures { Gives result (request_of method.now (id_view id) (view params.now)) }
{
    match method {
        "initialize" => initialize_request(id, params),
        "shutdown" => Ok(Message::Request(id, Call::Shutdown)),
        "textDocument/foldingRange" => folds_request(alloc, id, params),
        "textDocument/selectionRange" => selections_request(alloc, id, params),
        "lr/text" => text_request(alloc, id, params),
        "lr/tokens" => tokens_request(alloc, id, params),
        "lr/tree" => tree_request(alloc, id, params),
        "lr/stats" => stats_request(alloc, id, params),
        _ => Err(RpcFault::Unknown { id }),
    }
}

/// The notification of a method. One of an unknown method is ignored.
fn notification_of(alloc: Global, method: &str, params: &Value) -> Result<Message, AllocError>
    ensures { IfOk result (λ message.
        accepted (message_view message) ≡ notification_of method.now (view params.now)) }
{
    match method {
        "initialized" => Ok(Message::Notice(Note::Initialized)),
        "exit" => Ok(Message::Notice(Note::Exit)),
        "textDocument/didOpen" => read_open(alloc, params).map(Message::Notice),
        "textDocument/didChange" => read_change(alloc, params).map(Message::Notice),
        "textDocument/didClose" => read_close(alloc, params).map(Message::Notice),
        _ => Ok(Message::Ignored),
    }
}

/// What a value of this method is: with an id a request, without one a notification. Without
/// `params` they are `null`.
fn of_method(
    alloc: Global,
    value: &Value,
    method: &str,
    id: Option<Id>,
) -> Result<Message, RpcFault>
    ensures { let params = params_at (view value.now) in
        Gives result (of_method (Some method.now) (option_map id_view id) params) }
{
    let none = Value::Null;
    let params = value.get("params").unwrap_or(&none);
    match id {
        Some(id) => request_of(alloc, method, id, params),
        None => Ok(notification_of(alloc, method, params)?),
    }
}

/// The message that a value is, by the tests in their order.
fn message_of(alloc: Global, value: &Value) -> Result<Message, RpcFault>
    ensures { Gives result (message_of (view value.now)) }
{
    if !value.is_object() {
        return Err(RpcFault::Invalid { id: None });
    }
    let method = value.get("method");
    if method.is_none() && has_outcome(value) {
        return Ok(Message::Ignored);
    }
    let member = value.get("id");
    let id = id_of(alloc, member)?;
    let unread = member.is_some() && id.is_none();
    match text_of(method) {
        Some(method) if has_version(value) && !unread => of_method(alloc, value, method, id),
        _ => Err(RpcFault::Invalid { id }),
    }
}

/// The message that a content is (JSON-RPC 2.0). It is refused where the content is no JSON value
/// in UTF-8 or is nested too deep, where the value is no request, notification or reply, and where
/// the method of a request is unknown or its parameters don't fit.
#[tactic(auto, using(crate::proofs::Receiving::received_value, crate::proofs::Receiving::received_unread))]
pub fn read(alloc: Global, content: &[u8]) -> Result<Message, RpcFault>
    // Nothing is received where memory was refused.
    ensures { IfSome (received_of result) (λ received. Receives content.now received) }
{
    match Value::from_slice(alloc, content) {
        Ok(value) => message_of(alloc, &value),
        Err(error) => {
            if error.is_memory() {
                Err(RpcFault::Memory)
            } else {
                Err(RpcFault::Parse)
            }
        }
    }
}
