//! Examples of reports, of messages and of documents.

use definitions::Unit;
use docs::{Doc, Language};
use grammar::Grammar;
use lexer::Tokens;
use replies::{Id, Reply, to_bytes};
use rpc::{Message, read};
use std::alloc::Global;
use text::Text;
use views::token_rows;

/// The example of `views`.
pub fn use_views(
    rt: &HostRuntime,
    alloc: Global,
    grammar: &Grammar,
    text: &Text,
    tokens: &Tokens,
) -> Option<()> {
    let rows = token_rows(alloc, grammar, Unit::Utf8, text, tokens).ok()?;
    let row = rows.first()?;
    println!(rt; "{} up to {}", row.name, row.range.end.character).ok()
    // NUM up to 2
}

/// The example of `replies`.
pub fn use_replies(rt: &HostRuntime, alloc: Global) -> Option<()> {
    let reply = Reply::Null { id: Id::Number(7) };
    let bytes = to_bytes(alloc, &reply).ok()?;
    println!(rt; "{}", str::from_utf8(&bytes).unwrap_or("")).ok()
    // {"id":7,"jsonrpc":"2.0","result":null}
}

/// The example of `rpc`.
pub fn use_rpc(rt: &HostRuntime, alloc: Global) -> Option<()> {
    let content = br#"{"jsonrpc":"2.0","id":7,"method":"shutdown"}"#;
    let Message::Request(Id::Number(id), _) = read(alloc, content).ok()? else {
        return None;
    };
    println!(rt; "request {id}").ok()
    // request 7
}

/// The example of `docs`.
pub fn use_docs(rt: &HostRuntime, alloc: Global, language: &Language) -> Option<()> {
    if let Ok(doc) = Doc::open(alloc, language, Unit::Utf16, 1, "1+(2")
        && let Ok(Some(fault)) = doc.diagnostic(alloc, language)
        && let Ok(doc) = doc.change(alloc, language, None, "1+2")
        && let Ok(Some(tree)) = doc.tree(alloc, language)
    {
        println!(rt; "{}; then {tree}", fault.message).ok()?;
        // unexpected end; expected PLUS, RP; then (Sum (Sum (Atom NUM)) PLUS (Atom NUM))
    }
    Some(())
}
