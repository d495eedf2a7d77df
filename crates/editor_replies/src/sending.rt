//! The bytes of what is sent.

ghost use Rattle.std.specs.Prelude.{◌≡◌, map, option_map, string_bytes, IfOk, OnOk};
ghost use Rattle.replies.specs.Ids.{id_view};
ghost use Rattle.replies.specs.Replies.{id_data, result_data};
ghost use Rattle.serde_json.specs.Data.{array, no_members, object};
ghost use Rattle.serde_json.specs.Events.{SendsValue};
ghost use Rattle.serde_json.specs.Written.{compact_text};
ghost use Rattle.editor_replies.specs.Sent.{message_view};
ghost use Rattle.editor_replies.specs.Sending.{capability_list, changes_option, colours_options, comment_data, comment_object, initialized_data, legend, message_data, no_modifiers, outcome_data, server_info, text_items};

use crate::diagnostics::send_worded;
use crate::numbers::{send_changes, send_colours};
use crate::offers::send_offers;
use crate::places::{send_brackets, send_hover};
use crate::remarks::{send_call, send_cancelled, send_notice};
use crate::sent::{Change, Offered, Sent};
use crate::symbols::send_outline;
use crate::values::send_value;
use definitions::{Range, Unit};
use hover::{BracketPair, HoverText, Markup};
use outline::OutlineSymbol;
use replies::{Id, send_id, send_reply, send_synchronisation, unit_name};
use serde::{Described, Serialize, Serializer};
use serde_json::Value;
use std::alloc::{AllocError, Global};

/// Texts, in order.
fn send_texts<S: Serializer>(texts: &[&str], out: &mut S) -> Result<(), S::Error>
    ensures { OnOk result (SendsValue (array (text_items (map (λ text. text.now) texts.now)))
        (S.written out.old) (S.written out.new)) }
{
    out.begin_seq(Some(texts.len()))?;
    for text in texts {
        out.str(text)?;
    }
    out.end_seq()
}

/// The list of no modifiers.
fn send_no_modifiers<S: Serializer>(out: &mut S) -> Result<(), S::Error>
    ensures { OnOk result (SendsValue no_modifiers (S.written out.old) (S.written out.new)) }
{
    out.begin_seq(Some(0))?;
    out.end_seq()
}

/// The types of tokens (LSP 3.17, "SemanticTokensLegend").
fn send_legend<S: Serializer>(types: &[&str], out: &mut S) -> Result<(), S::Error>
    ensures { let types = map (λ text. text.now) types.now in
        OnOk result (SendsValue (legend types) (S.written out.old) (S.written out.new)) }
{
    out.begin_map(Some(2))?;
    out.key("tokenModifiers")?;
    send_no_modifiers(out)?;
    out.key("tokenTypes")?;
    send_texts(types, out)?;
    out.end_map()
}

/// That what has changed of colours is asked for too.
fn send_changes_option<S: Serializer>(out: &mut S) -> Result<(), S::Error>
    ensures { OnOk result (SendsValue changes_option (S.written out.old) (S.written out.new)) }
{
    out.begin_map(Some(1))?;
    out.key("delta")?;
    out.bool(true)?;
    out.end_map()
}

/// That colours are asked for whole, what has changed of them, or by lines
/// (LSP 3.17, "SemanticTokensOptions").
fn send_colours_options<S: Serializer>(types: &[&str], out: &mut S) -> Result<(), S::Error>
    ensures { let types = map (λ text. text.now) types.now in
        OnOk result (SendsValue (colours_options types) (S.written out.old) (S.written out.new)) }
{
    out.begin_map(Some(3))?;
    out.key("full")?;
    send_changes_option(out)?;
    out.key("legend")?;
    send_legend(types, out)?;
    out.key("range")?;
    out.bool(true)?;
    out.end_map()
}

/// What begins a comment.
fn send_comment<S: Serializer>(comment: &str, out: &mut S) -> Result<(), S::Error>
    ensures { OnOk result
        (SendsValue (comment_object comment.now) (S.written out.old) (S.written out.new)) }
{
    out.begin_map(Some(1))?;
    out.key("comment")?;
    out.str(comment)?;
    out.end_map()
}

/// What no capability of the protocol says.
fn send_experimental<S: Serializer>(comment: &str, out: &mut S) -> Result<(), S::Error>
    ensures { OnOk result
        (SendsValue (comment_data comment.now) (S.written out.old) (S.written out.new)) }
{
    out.begin_map(Some(1))?;
    out.key("lrls")?;
    send_comment(comment, out)?;
    out.end_map()
}

/// An object without members: that offers are asked for, with no more of it to say.
fn send_offers_option<S: Serializer>(out: &mut S) -> Result<(), S::Error>
    ensures { OnOk result
        (SendsValue (object no_members) (S.written out.old) (S.written out.new)) }
{
    out.begin_map(Some(0))?;
    out.end_map()
}

/// What the server can do, where positions count this unit (LSP 3.17, "ServerCapabilities").
fn send_capability_list<S: Serializer>(
    unit: Unit,
    comment: &str,
    types: &[&str],
    out: &mut S,
) -> Result<(), S::Error>
    ensures { let types = map (λ text. text.now) types.now in
        OnOk result (SendsValue (capability_list unit comment.now types)
        (S.written out.old) (S.written out.new)) }
{
    out.begin_map(Some(11))?;
    out.key("codeActionProvider")?;
    out.bool(true)?;
    out.key("completionProvider")?;
    send_offers_option(out)?;
    out.key("documentHighlightProvider")?;
    out.bool(true)?;
    out.key("documentSymbolProvider")?;
    out.bool(true)?;
    out.key("experimental")?;
    send_experimental(comment, out)?;
    out.key("foldingRangeProvider")?;
    out.bool(true)?;
    out.key("hoverProvider")?;
    out.bool(true)?;
    out.key("positionEncoding")?;
    out.str(unit_name(unit))?;
    out.key("selectionRangeProvider")?;
    out.bool(true)?;
    out.key("semanticTokensProvider")?;
    send_colours_options(types, out)?;
    out.key("textDocumentSync")?;
    send_synchronisation(out)?;
    out.end_map()
}

/// Who the server is (LSP 3.17, "InitializeResult").
fn send_server_info<S: Serializer>(name: &str, out: &mut S) -> Result<(), S::Error>
    ensures { OnOk result
        (SendsValue (server_info name.now) (S.written out.old) (S.written out.new)) }
{
    out.begin_map(Some(1))?;
    out.key("name")?;
    out.str(name)?;
    out.end_map()
}

/// The result of `initialize` (LSP 3.17, "InitializeResult").
fn send_initialized<S: Serializer>(
    unit: Unit,
    name: &str,
    comment: &str,
    types: &[&str],
    out: &mut S,
) -> Result<(), S::Error>
    ensures { let types = map (λ text. text.now) types.now in
        OnOk result (SendsValue (initialized_data unit name.now comment.now types)
        (S.written out.old) (S.written out.new)) }
{
    out.begin_map(Some(2))?;
    out.key("capabilities")?;
    send_capability_list(unit, comment, types, out)?;
    out.key("serverInfo")?;
    send_server_info(name, out)?;
    out.end_map()
}

/// What a request is answered with here.
#[derive(Clone, Copy)]
pub(crate) enum Outcome<'s> {
    Capabilities(Unit, &'s str, &'s str, &'s [&'s str]),
    Colours(Option<&'s str>, &'s [u32]),
    Changes(&'s str, &'s Option<Change>),
    Offers(Range, &'s [Offered]),
    Outline(Option<&'s str>, &'s [OutlineSymbol]),
    Hover(&'s Option<HoverText>, Markup),
    Brackets(Option<BracketPair>),
    Value(&'s Value),
}

/// What a request is answered with here.
fn send_outcome<S: Serializer>(outcome: Outcome<'_>, out: &mut S) -> Result<(), S::Error>
    ensures { OnOk result
        (SendsValue (outcome_data outcome.entry) (S.written out.old) (S.written out.new)) }
{
    match outcome {
        Outcome::Capabilities(unit, name, comment, types) => {
            send_initialized(unit, name, comment, types, out)
        }
        Outcome::Colours(name, numbers) => send_colours(name, numbers, out),
        Outcome::Changes(name, change) => send_changes(name, change, out),
        Outcome::Offers(range, found) => send_offers(range, found, out),
        Outcome::Outline(list_of, symbols) => send_outline(list_of, symbols, out),
        Outcome::Hover(found, form) => send_hover(found, form, out),
        Outcome::Brackets(pair) => send_brackets(pair, out),
        Outcome::Value(value) => send_value(value, out),
    }
}

/// A reply with a result (JSON-RPC 2.0, "Response object").
fn send_result<S: Serializer>(id: &Id, outcome: Outcome<'_>, out: &mut S) -> Result<(), S::Error>
    ensures { OnOk result
        (SendsValue (result_data (id_data (id_view id.now)) (outcome_data outcome.entry))
        (S.written out.old) (S.written out.new)) }
{
    out.begin_map(Some(3))?;
    out.key("id")?;
    send_id(id, out)?;
    out.key("jsonrpc")?;
    out.str("2.0")?;
    out.key("result")?;
    send_outcome(outcome, out)?;
    out.end_map()
}

/// The text, lent.
fn lent(text: &Option<String>) -> Option<&str>
    ensures { let text = option_map (λ text. string_bytes text) text.now in
        option_map (λ lent. lent.now) result ≡ text }
{
    match text {
        Some(text) => Some(text.as_str()),
        None => None,
    }
}

/// What is sent.
fn send_message<S: Serializer>(message: &Sent, out: &mut S) -> Result<(), S::Error>
    ensures { OnOk result (SendsValue (message_data (message_view message.now))
        (S.written out.old) (S.written out.new)) }
{
    match message {
        Sent::Core(reply) | Sent::Own(reply) | Sent::Grown { sent: reply, .. } => {
            send_reply(reply, out)
        }
        Sent::Fault { fault, .. } => send_worded(fault, out),
        Sent::Capabilities {
            id,
            unit,
            name,
            comment,
            types,
        } => send_result(
            id,
            Outcome::Capabilities(*unit, name.as_str(), comment.as_str(), types),
            out,
        ),
        Sent::Colours { id, name, numbers } => {
            send_result(id, Outcome::Colours(lent(name), numbers), out)
        }
        Sent::Changes { id, name, change } => {
            send_result(id, Outcome::Changes(name.as_str(), change), out)
        }
        Sent::Offers { id, range, found } => {
            send_result(id, Outcome::Offers(*range, found), out)
        }
        Sent::Outline {
            id,
            list_of,
            symbols,
        } => send_result(id, Outcome::Outline(lent(list_of), symbols), out),
        Sent::Hover { id, found, form } => send_result(id, Outcome::Hover(found, *form), out),
        Sent::Brackets { id, pair } => send_result(id, Outcome::Brackets(*pair), out),
        Sent::Result { id, value } => send_result(id, Outcome::Value(value), out),
        Sent::Cancelled { id } => send_cancelled(id, out),
        Sent::Notice { method, params } => send_notice(method, params, out),
        Sent::Call { id, method, params } => send_call(id, method, params, out),
    }
}

/// What is sent, for the JSON writer.
#[derive(Clone, Copy)]
struct Content<'s> {
    message: &'s Sent,
}

impl Described for Content<'_> {
    ghost writes = { λ c. SendsValue (message_data (message_view c.message.now)) };
}

impl Serialize for Content<'_> {
    fn serialize<S: Serializer>(&self, out: &mut S) -> Result<(), S::Error> {
        send_message(self.message, out)
    }
}

/// The bytes of what is sent: compact JSON, the keys of each object in byte order. It is refused
/// where memory is.
pub fn to_bytes(alloc: Global, message: &Sent) -> Result<Vec<u8>, AllocError>
    ensures { IfOk result (λ bytes.
        bytes.items ≡ compact_text (message_data (message_view message.now))) }
{
    match serde_json::to_vec(alloc, &Content { message }) {
        Ok(bytes) => Ok(bytes),
        Err(_) => Err(AllocError),
    }
}
