//! How a reply is sent: part by part to the JSON writer, so that nothing of it is copied.

ghost use Rattle.std.specs.Prelude.{◌≡◌, Some, option_map, IfOk, OnOk};
ghost use Rattle.serde_json.specs.Events.{SendsValue};
ghost use Rattle.serde_json.specs.Written.{compact_text};
ghost use Rattle.replies.specs.Ids.{id_view};
ghost use Rattle.replies.specs.Replies.{id_data, code_of, message_text, result_data, error_object, error_reply, reply_data, reply_view};
ghost use Rattle.replies.specs.Sending.{outcome_data};

use crate::id::Id;
use crate::notifications::{send_diagnostics, send_log};
use crate::parts::{send_id, send_integer, send_maybe_id};
use crate::reply::{Log, Refusal, Reply, code_of, message_text};
use crate::results::{Outcome, send_outcome};
use definitions::Stats;
use serde::{Described, Serialize, Serializer};
use std::alloc::{AllocError, Global};

/// The number and the text of a refusal (JSON-RPC 2.0, "Error object").
fn send_refusal<S: Serializer>(refusal: Refusal, out: &mut S) -> Result<(), S::Error>
    ensures { OnOk result (SendsValue (error_object (code_of refusal) (message_text refusal))
        (S.written out.old) (S.written out.new)) }
{
    out.begin_map(Some(2))?;
    out.key("code")?;
    send_integer(code_of(refusal), out)?;
    out.key("message")?;
    out.str(message_text(refusal))?;
    out.end_map()
}

/// A reply with an error (JSON-RPC 2.0, "Response object").
fn send_error<S: Serializer>(id: &Option<Id>, refusal: Refusal, out: &mut S) -> Result<(), S::Error>
    ensures { OnOk result
        (SendsValue (reply_data (error_reply (option_map id_view id.now) refusal))
        (S.written out.old) (S.written out.new)) }
{
    out.begin_map(Some(3))?;
    out.key("error")?;
    send_refusal(refusal, out)?;
    out.key("id")?;
    send_maybe_id(id, out)?;
    out.key("jsonrpc")?;
    out.str("2.0")?;
    out.end_map()
}

/// A reply with a result (JSON-RPC 2.0, "Response object").
fn send_result<S: Serializer>(id: &Id, outcome: Outcome<'_>, out: &mut S) -> Result<(), S::Error>
    ensures { OnOk result
        (SendsValue (result_data (id_data (id_view id.now)) (outcome_data outcome.entry))
        (S.written out.old) (S.written out.new)) }
{
    out.begin_map(Some(3))?;
    out.key("id")?;
    send_id(id, out)?;
    out.key("jsonrpc")?;
    out.str("2.0")?;
    out.key("result")?;
    send_outcome(outcome, out)?;
    out.end_map()
}

/// A reply, diagnostics, or what is logged, for the JSON writer.
pub fn send_reply<S: Serializer>(reply: &Reply, out: &mut S) -> Result<(), S::Error>
    ensures { OnOk result
        (SendsValue (reply_data (reply_view reply.now)) (S.written out.old) (S.written out.new)) }
{
    match reply {
        Reply::Capabilities { id, unit } => send_result(id, Outcome::Capabilities(*unit), out),
        Reply::Null { id } => send_result(id, Outcome::Null, out),
        Reply::Text { id, version, text } => {
            send_result(id, Outcome::Document(*version, text.as_str()), out)
        }
        Reply::Tokens { id, rows } => send_result(id, Outcome::Rows(rows), out),
        Reply::Tree { id, text } => send_result(id, Outcome::Tree(text.as_str()), out),
        Reply::Stats { id, stats } => send_result(id, Outcome::Stats(*stats), out),
        Reply::Folds { id, pairs } => send_result(id, Outcome::Folds(pairs), out),
        Reply::Selections { id, selections } => {
            send_result(id, Outcome::Selections(selections), out)
        }
        Reply::Error { id, refusal } => send_error(id, *refusal, out),
        Reply::Log { log } => send_log(*log, out),
        Reply::Diagnostics {
            uri,
            version,
            diagnostic,
        } => send_diagnostics(uri.as_str(), *version, diagnostic, out),
    }
}

/// A reply, for the JSON writer.
#[derive(Clone, Copy)]
struct Content<'r> {
    reply: &'r Reply,
}

impl Described for Content<'_> {
    ghost writes = { λ c. SendsValue (reply_data (reply_view c.reply.now)) };
}

impl Serialize for Content<'_> {
    fn serialize<S: Serializer>(&self, out: &mut S) -> Result<(), S::Error> {
        send_reply(self.reply, out)
    }
}

/// The bytes of a reply: compact JSON, the keys of each object in byte order. It is refused where
/// memory is.
pub fn to_bytes(alloc: Global, reply: &Reply) -> Result<Vec<u8>, AllocError>
    ensures { IfOk result (λ bytes.
        bytes.items ≡ compact_text (reply_data (reply_view reply.now))) }
{
    match serde_json::to_vec(alloc, &Content { reply }) {
        Ok(bytes) => Ok(bytes),
        Err(_) => Err(AllocError),
    }
}
