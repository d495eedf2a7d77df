//! Examples of the editor's server and of what it sends.

use completion::texts;
use docs::Language;
use editor_replies::{Id, Reply, Sent, to_bytes};
use ide::{Ide, Sending};
use own_replies::{Results, reply};
use questions::{Asked, Content, Own, Phase, Question, Unit, read_content, subject_in};
use reopening::{open_uris, reopened};
use rpc::read;
use server::Server;
use settings::{TOKEN_TYPES, guess};
use shown::{Known, Shown};
use std::alloc::Global;
use worked::SUMS;

/// The message that begins a session.
const INITIALIZE: &[u8] =
    br#"{"jsonrpc":"2.0","id":1,"method":"initialize","params":{"capabilities":{}}}"#;

/// The message that opens a document.
const OPEN: &[u8] = br#"{"jsonrpc":"2.0","method":"textDocument/didOpen","params":{
    "textDocument":{"uri":"file:///a","languageId":"sums","version":1,"text":"1"}}}"#;

/// What is shown of a language.
pub fn shown_of(alloc: Global, language: &Language) -> Option<Shown> {
    let settings = guess(alloc, language.grammar()).ok()?;
    let texts = texts(alloc, language.grammar(), &settings).ok()?;
    Some(Shown {
        name: String::from_str(alloc, "lrls-ide sums").ok()?,
        types: &TOKEN_TYPES,
        settings,
        texts,
    })
}

/// A core with an open document, with what is shown of its language.
pub fn opened(alloc: Global, language: Language, shown: Shown) -> Option<Known> {
    let mut known = Known::new(alloc, language, shown);
    let _initialized = known.core.handle(alloc, read(alloc, INITIALIZE)).ok()?;
    let _opened = known.core.handle(alloc, read(alloc, OPEN)).ok()?;
    Some(known)
}

/// The example of `editor_replies`.
pub fn use_editor_replies(rt: &HostRuntime, alloc: Global) -> Option<()> {
    let sent = Sent::Colours {
        id: Id::Number(7),
        name: None,
        numbers: Vec::from_slice(alloc, &[0, 0, 1, 4, 0]).ok()?,
    };
    let bytes = to_bytes(alloc, &sent).ok()?;
    println!(rt; "{}", str::from_utf8(&bytes).unwrap_or("")).ok()
    // {"id":7,"jsonrpc":"2.0","result":{"data":[0,0,1,4,0]}}
}

/// The example of `questions`.
pub fn use_questions(rt: &HostRuntime, alloc: Global) -> Option<()> {
    let content = br#"{"id":7,"method":"textDocument/documentSymbol","params":{
        "textDocument":{"uri":"file:///a"}},"jsonrpc":"2.0"}"#;
    let content = Vec::from_slice(alloc, content).ok()?;
    let Content { own, .. } = read_content(alloc, Phase::Ready(Unit::Utf16), content).ok()?;
    let Own { asked, .. } = own?;
    let Asked::About(uri, Question::Outline) = asked else {
        return None;
    };
    println!(rt; "the outline of {uri}").ok()
    // the outline of file:///a
}

/// The example of `ide`.
pub fn use_ide(rt: &HostRuntime, alloc: Global) -> Option<()> {
    let language = Language::load(alloc, SUMS).ok()?;
    let settings = guess(alloc, language.grammar()).ok()?;
    let shown = Shown {
        name: String::from_str(alloc, "lrls-ide sums").ok()?,
        types: &TOKEN_TYPES,
        texts: texts(alloc, language.grammar(), &settings).ok()?,
        settings,
    };
    let mut server = Ide::new(alloc, language, shown);
    let content = Vec::from_slice(alloc, br#"{"jsonrpc":"2.0","method":"exit"}"#).ok()?;
    let Sending { messages, stop } = server.handle(alloc, content, &[]).ok()?;
    println!(rt; "{} messages; status {stop:?}", messages.len()).ok()
    // 0 messages; status Some(1)
}

/// The example of `shown`.
pub fn use_shown(rt: &HostRuntime, alloc: Global, language: Language, shown: Shown) -> Option<()> {
    let known = Known::new(alloc, language, shown);
    let replies = Vec::from_array(alloc, [Reply::Null { id: Id::Number(7) }]).ok()?;
    let about = subject_in(alloc, "").ok()?;
    let messages = known.show(alloc, replies, "", &about).ok()?;
    println!(rt; "{}", messages.len()).ok()
    // 1
}

/// The example of `own_replies`.
pub fn use_own_replies(rt: &HostRuntime, alloc: Global, known: &Known) -> Option<()> {
    let mut results = Results::new();
    let uri = String::from_str(alloc, "file:///a").ok()?;
    let request = Own {
        id: Id::Number(7),
        asked: Asked::About(uri, Question::Colours),
    };
    let Sent::Colours { numbers, .. } = reply(alloc, known, &mut results, request).ok()? else {
        return None;
    };
    println!(rt; "{numbers:?}").ok()
    // [0, 0, 1, 19, 0]
}

/// The example of `reopening`.
pub fn use_reopening(
    rt: &HostRuntime,
    alloc: Global,
    old: &Server,
    language: Language,
) -> Option<()> {
    let none = Vec::new(alloc);
    let uris = open_uris(alloc, old, &none, "file:///a").ok()?;
    let core = reopened(alloc, old, &uris, Unit::Utf16, language).ok()?;
    println!(rt; "{} document; {} reply", uris.len(), core.replies.len()).ok()
    // 1 document; 1 reply
}
