//! Messages and replies: `rpc` and `replies`.

ghost use Rattle.std.specs.Prelude.{IfSome, ◌≡◌, IfOk, ℕ, List, All, ◌↔◌, IsTrue, Some};
ghost use Rattle.rpc.specs.Ids.{Ident};
ghost use Rattle.rpc.specs.Messages.{received_of, Received, Request, Notification, accepted, request, notification};
ghost use Rattle.rpc.specs.Reading.{Receives, value_of};
ghost use Rattle.rpc.specs.Writing.{request_data, notification_data, IdFits, RequestFits, NotificationFits};
ghost use Rattle.serde_json.specs.Data.{Data};
ghost use Rattle.serde_json.specs.Written.{compact_text};
ghost use Rattle.replies.specs.Replies.{reply_data, reply_view};
ghost use Rattle.rpc.specs.Texts.{IsSpelled, texts_of};
ghost use Rattle.replies.specs.declared.reply.Log.{Log as Event};
ghost use Rattle.replies.specs.declared.reply.Loss.{Loss as Cause};
ghost use Rattle.replies.specs.declared.reply.Refusal.{Refusal as Refused};

use rpc::{
    Call, Change, Diagnostic, Id, Log, Loss, Malformed, Message, Note, Position, Range, Refusal,
    Reply, Row, RpcFault, Stats, Unit, read, to_bytes,
};
use std::alloc::{AllocError, Global};

/// `read`.
pub fn read_content(alloc: Global, content: &[u8]) -> Result<Message, RpcFault>
    ensures { IfSome (received_of result) (λ received. Receives content.now received) }
{
    read(alloc, content)
}

/// `to_bytes`.
pub fn bytes_of(alloc: Global, reply: &Reply) -> Result<Vec<u8>, AllocError>
    ensures { IfOk result (λ bytes.
        bytes.items ≡ compact_text (reply_data (reply_view reply.now))) }
{
    to_bytes(alloc, reply)
}

/// `Message`.
pub fn message(message: &Message) -> (Option<&Id>, Option<&Call>, Option<&Note>) {
    match message {
        Message::Request(id, call) => (Some(id), Some(call), None),
        Message::Notice(note) => (None, None, Some(note)),
        Message::Ignored => (None, None, None),
    }
}

/// `Id`.
pub fn id(id: Id) -> Result<i32, String> {
    match id {
        Id::Text(text) => Err(text),
        Id::Number(number) => Ok(number),
    }
}

/// `RpcFault`: its id, if it has one, and whether it is of `initialize`.
pub fn rpc_fault(fault: RpcFault) -> (Option<Id>, bool) {
    match fault {
        RpcFault::Invalid { id } => (id, false),
        RpcFault::Unknown { id } => (Some(id), false),
        RpcFault::Params { id, initialize } => (Some(id), initialize),
        RpcFault::Parse | RpcFault::Memory => (None, false),
    }
}

/// `Call`: the unit or the URI that it names, and the positions.
pub fn call(call: Call) -> (Option<Unit>, Option<String>, Option<Vec<Position>>) {
    match call {
        Call::Initialize { unit } => (Some(unit), None, None),
        Call::Shutdown => (None, None, None),
        Call::SelectionRange { uri, positions } => (None, Some(uri), Some(positions)),
        Call::FoldingRange { uri }
        | Call::Text { uri }
        | Call::Tokens { uri }
        | Call::Tree { uri }
        | Call::Stats { uri } => (None, Some(uri), None),
    }
}

/// What a notification carries.
#[derive(Drop)]
pub enum Noted {
    Nothing,
    Opened(String, i32, String),
    Changed(String, i32, Vec<Change>),
    Closed(String),
    Unfit(Malformed),
}

/// `Note`.
pub fn note(note: Note) -> Noted {
    match note {
        Note::Initialized | Note::Exit => Noted::Nothing,
        Note::Malformed(malformed) => Noted::Unfit(malformed),
        Note::DidOpen { uri, version, text } => Noted::Opened(uri, version, text),
        Note::DidChange {
            uri,
            version,
            changes,
        } => Noted::Changed(uri, version, changes),
        Note::DidClose { uri } => Noted::Closed(uri),
    }
}

/// `Malformed`: the URI, where it is a text.
pub fn malformed(malformed: Malformed) -> Option<String> {
    match malformed {
        Malformed::DidChange { uri } => uri,
        Malformed::DidOpen | Malformed::DidClose => None,
    }
}

/// `Change`.
pub fn change(change: Change) -> (Option<Range>, String) {
    let Change { range, text } = change;
    (range, text)
}

/// What a reply carries besides its id.
#[derive(Drop)]
pub enum Carried {
    Nothing,
    Unit(Unit),
    Text(i32, String),
    Rows(Vec<Row>),
    Tree(String),
    Stats(Stats),
    Pairs(Vec<(u32, u32)>),
    Selections(Vec<Vec<Range>>),
    Refusal(Refusal),
    Diagnostics(String, Option<i32>, Option<Diagnostic>),
    Log(Log),
}

/// `Reply`: its id, if it has one, and what it carries.
pub fn reply(reply: Reply) -> (Option<Id>, Carried) {
    match reply {
        Reply::Capabilities { id, unit } => (Some(id), Carried::Unit(unit)),
        Reply::Null { id } => (Some(id), Carried::Nothing),
        Reply::Text { id, version, text } => (Some(id), Carried::Text(version, text)),
        Reply::Tokens { id, rows } => (Some(id), Carried::Rows(rows)),
        Reply::Tree { id, text } => (Some(id), Carried::Tree(text)),
        Reply::Stats { id, stats } => (Some(id), Carried::Stats(stats)),
        Reply::Folds { id, pairs } => (Some(id), Carried::Pairs(pairs)),
        Reply::Selections { id, selections } => (Some(id), Carried::Selections(selections)),
        Reply::Error { id, refusal } => (id, Carried::Refusal(refusal)),
        Reply::Diagnostics {
            uri,
            version,
            diagnostic,
        } => (None, Carried::Diagnostics(uri, version, diagnostic)),
        Reply::Log { log } => (None, Carried::Log(log)),
    }
}

/// `Refusal`.
pub fn refusal(refusal: Refusal) -> Option<Loss> {
    match refusal {
        Refusal::DocumentLost(loss) => Some(loss),
        Refusal::ParseError
        | Refusal::InvalidRequest
        | Refusal::MethodNotFound
        | Refusal::InvalidParams
        | Refusal::DocumentNotOpen
        | Refusal::NotInitialized => None,
    }
}

/// `Log`.
pub fn log(log: Log) -> Option<Loss> {
    match log {
        Log::Lost(loss) => Some(loss),
        Log::OpenMalformed
        | Log::ChangeMalformed
        | Log::CloseMalformed
        | Log::ChangeNotOpen
        | Log::CloseNotOpen
        | Log::TooManyDocuments => None,
    }
}

/// `Loss`: the number of the cause.
pub fn loss(loss: Loss) -> u8 {
    match loss {
        Loss::TooLarge => 1,
        Loss::MalformedChange => 2,
        Loss::Memory => 3,
    }
}

/// `received_unique`.
pub fn received_unique()
    ensures { (content : List ℕ) (a b : Received)
        → Receives content a → Receives content b → a ≡ b }
{
    rpc::received_unique();
}

/// `received_exists`.
pub fn received_exists()
    ensures { (content : List ℕ) → (received : Received) × Receives content received }
{
    rpc::received_exists();
}

/// `each_text_is_unicode`.
pub fn each_text_is_unicode()
    ensures { (content : List ℕ) (received : Received) → Receives content received →
        All IsSpelled (texts_of received) }
{
    rpc::each_text_is_unicode();
}

/// `written_messages_are_read`.
pub fn written_messages_are_read()
    ensures requests { (id : Ident) (call : Request) → IdFits id → RequestFits call →
        All IsSpelled (texts_of (accepted (request id call))) →
        Receives (compact_text (request_data id call)) (accepted (request id call)) }
    ensures notifications { (language : List ℕ) (note : Notification) (value : Data) →
        notification_data language note ≡ Some value → NotificationFits note →
        IsSpelled language → All IsSpelled (texts_of (accepted (notification note))) →
        Receives (compact_text value) (accepted (notification note)) }
    ensures request_values { (id : Ident) (call : Request) → IdFits id → RequestFits call →
        (content : List ℕ) → value_of content ≡ Some (request_data id call) →
        Receives content (accepted (request id call)) }
    ensures notification_values { (language : List ℕ) (note : Notification) (value : Data) →
        notification_data language note ≡ Some value → NotificationFits note →
        (content : List ℕ) → value_of content ≡ Some value →
        Receives content (accepted (notification note)) }
{
    rpc::written_messages_are_read();
}

/// `equal_refusals_are_the_same`.
pub fn equal_refusals_are_the_same()
    ensures losses { (a b : Cause) → IsTrue (⟦<replies::Loss as PartialEq>⟧.eq a b) ↔ (a ≡ b) }
    ensures logs { (a b : Event) → IsTrue (⟦<replies::Log as PartialEq>⟧.eq a b) ↔ (a ≡ b) }
    ensures refusals { (a b : Refused) →
        IsTrue (⟦<replies::Refusal as PartialEq>⟧.eq a b) ↔ (a ≡ b) }
{
    replies::laws::equal_refusals_are_the_same();
}
