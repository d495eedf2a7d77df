//! Messages of the editor's server's own accord, and the reply to a cancelled request.

ghost use Rattle.std.specs.Prelude.{option_map, OnOk};
ghost use Rattle.serde_json.specs.Events.{SendsValue};
ghost use Rattle.serde_json.specs.View.{view};
ghost use Rattle.replies.specs.Ids.{id_view};
ghost use Rattle.replies.specs.Replies.{id_data, notice_data};
ghost use Rattle.editor_replies.specs.Sending.{bare_call, call_data, cancelled_data, cancelled_error, full_call, without_fractions};

use crate::values::send_value;
use replies::{Id, send_id, send_integer};
use serde::Serializer;
use serde_json::Value;

/// The number of a request that the editor has cancelled (LSP 3.17, "ErrorCodes").
const REQUEST_CANCELLED: i32 = -32800;

/// A notification with these parameters (JSON-RPC 2.0, "Notification").
pub(crate) fn send_notice<S: Serializer>(
    method: &str,
    params: &Value,
    out: &mut S,
) -> Result<(), S::Error>
    ensures { let params = without_fractions (view params.now) in
        OnOk result
        (SendsValue (notice_data method.now params) (S.written out.old) (S.written out.new)) }
{
    out.begin_map(Some(3))?;
    out.key("jsonrpc")?;
    out.str("2.0")?;
    out.key("method")?;
    out.str(method)?;
    out.key("params")?;
    send_value(params, out)?;
    out.end_map()
}

/// A request to the editor, without parameters (JSON-RPC 2.0, "Request object").
fn send_bare_call<S: Serializer>(id: &str, method: &str, out: &mut S) -> Result<(), S::Error>
    ensures { OnOk result
        (SendsValue (bare_call id.now method.now) (S.written out.old) (S.written out.new)) }
{
    out.begin_map(Some(3))?;
    out.key("id")?;
    out.str(id)?;
    out.key("jsonrpc")?;
    out.str("2.0")?;
    out.key("method")?;
    out.str(method)?;
    out.end_map()
}

/// A request to the editor with these parameters (JSON-RPC 2.0, "Request object").
fn send_full_call<S: Serializer>(
    id: &str,
    method: &str,
    params: &Value,
    out: &mut S,
) -> Result<(), S::Error>
    ensures { let params = without_fractions (view params.now) in
        OnOk result
        (SendsValue (full_call id.now method.now params) (S.written out.old) (S.written out.new)) }
{
    out.begin_map(Some(4))?;
    out.key("id")?;
    out.str(id)?;
    out.key("jsonrpc")?;
    out.str("2.0")?;
    out.key("method")?;
    out.str(method)?;
    out.key("params")?;
    send_value(params, out)?;
    out.end_map()
}

/// A request to the editor, with its parameters where it has some.
pub(crate) fn send_call<S: Serializer>(
    id: &str,
    method: &str,
    params: &Option<Value>,
    out: &mut S,
) -> Result<(), S::Error>
    ensures { OnOk result
        (SendsValue (call_data id.now method.now (option_map view params.now))
        (S.written out.old) (S.written out.new)) }
{
    match params {
        Some(params) => send_full_call(id, method, params, out),
        None => send_bare_call(id, method, out),
    }
}

/// Why a cancelled request has no result (JSON-RPC 2.0, "Error object").
fn send_cancelled_error<S: Serializer>(out: &mut S) -> Result<(), S::Error>
    ensures { OnOk result
        (SendsValue cancelled_error (S.written out.old) (S.written out.new)) }
{
    out.begin_map(Some(2))?;
    out.key("code")?;
    send_integer(REQUEST_CANCELLED, out)?;
    out.key("message")?;
    out.str("request cancelled")?;
    out.end_map()
}

/// The reply to a request that the editor has cancelled (LSP 3.17, "Cancellation Support").
pub(crate) fn send_cancelled<S: Serializer>(id: &Id, out: &mut S) -> Result<(), S::Error>
    ensures { OnOk result (SendsValue (cancelled_data (id_data (id_view id.now)))
        (S.written out.old) (S.written out.new)) }
{
    out.begin_map(Some(3))?;
    out.key("error")?;
    send_cancelled_error(out)?;
    out.key("id")?;
    send_id(id, out)?;
    out.key("jsonrpc")?;
    out.str("2.0")?;
    out.end_map()
}
