//! Published faults in the words of a language.

ghost use Rattle.std.specs.Prelude.{Some, None, map, option_map, string_bytes, OnOk};
ghost use Rattle.serde.specs.Event.{Log, Logs, seq_ends};
ghost use Rattle.serde_json.specs.Data.{array, item, no_items};
ghost use Rattle.serde_json.specs.Events.{SendsItems, SendsValue};
ghost use Rattle.serde_json.specs.View.{view};
ghost use Rattle.replies.specs.Replies.{diagnostic_data, published};
ghost use Rattle.editor_replies.specs.Sent.{fault_view};
ghost use Rattle.editor_replies.specs.Sending.{fault_data, fault_items, location_data, related_data, value_items, worded_data};

use crate::sent::Fault;
use crate::values::send_value;
use definitions::Range;
use replies::{send_integer, send_range};
use serde::Serializer;
use serde_json::Value;

/// Where something is (LSP 3.17, "Location").
pub(crate) fn send_location<S: Serializer>(
    uri: &str,
    range: Range,
    out: &mut S,
) -> Result<(), S::Error>
    ensures { OnOk result
        (SendsValue (location_data uri.now range) (S.written out.old) (S.written out.new)) }
{
    out.begin_map(Some(2))?;
    out.key("range")?;
    send_range(range, out)?;
    out.key("uri")?;
    out.str(uri)?;
    out.end_map()
}

/// What stands beside a diagnostic (LSP 3.17, "DiagnosticRelatedInformation").
fn send_related<S: Serializer>(
    uri: &str,
    range: Range,
    text: &str,
    out: &mut S,
) -> Result<(), S::Error>
    ensures { OnOk result
        (SendsValue (related_data uri.now range text.now) (S.written out.old) (S.written out.new)) }
{
    out.begin_map(Some(2))?;
    out.key("location")?;
    send_location(uri, range, out)?;
    out.key("message")?;
    out.str(text)?;
    out.end_map()
}

/// The list of what stands beside a diagnostic.
fn send_related_list<S: Serializer>(
    uri: &str,
    range: Range,
    text: &str,
    out: &mut S,
) -> Result<(), S::Error>
    ensures { let related = related_data uri.now range text.now in OnOk result
        (SendsValue (array (item related no_items)) (S.written out.old) (S.written out.new)) }
{
    out.begin_seq(Some(1))?;
    send_related(uri, range, text, out)?;
    out.end_seq()
}

/// A diagnostic as the core has it (LSP 3.17, "Diagnostic").
fn send_alone<S: Serializer>(range: Range, words: &str, out: &mut S) -> Result<(), S::Error>
    ensures { OnOk result
        (SendsValue (diagnostic_data (range, words.now)) (S.written out.old) (S.written out.new)) }
{
    out.begin_map(Some(4))?;
    out.key("message")?;
    out.str(words)?;
    out.key("range")?;
    send_range(range, out)?;
    out.key("severity")?;
    out.u64(1)?;
    out.key("source")?;
    out.str("lrls")?;
    out.end_map()
}

/// A diagnostic with what stands beside it (LSP 3.17, "Diagnostic").
fn send_with_related<S: Serializer>(fault: &Fault, text: &str, out: &mut S) -> Result<(), S::Error>
    ensures { OnOk result (SendsValue (fault_data (fault_view fault.now) (Some text.now))
        (S.written out.old) (S.written out.new)) }
{
    out.begin_map(Some(5))?;
    out.key("message")?;
    out.str(fault.words.as_str())?;
    out.key("range")?;
    send_range(fault.range, out)?;
    out.key("relatedInformation")?;
    send_related_list(fault.uri.as_str(), fault.range, text, out)?;
    out.key("severity")?;
    out.u64(1)?;
    out.key("source")?;
    out.str("lrls")?;
    out.end_map()
}

/// A diagnostic.
fn send_fault<S: Serializer>(fault: &Fault, out: &mut S) -> Result<(), S::Error>
    ensures { let related = option_map (λ text. string_bytes text) fault.now.related in
        OnOk result (SendsValue (fault_data (fault_view fault.now) related)
        (S.written out.old) (S.written out.new)) }
{
    match &fault.related {
        Some(text) => send_with_related(fault, text.as_str(), out),
        None => send_alone(fault.range, fault.words.as_str(), out),
    }
}

/// JSON values, the last ones of a list.
fn send_values<S: Serializer>(values: &[Value], out: &mut S) -> Result<(), S::Error>
    ensures { let items = value_items (map view values.now) in OnOk result ((end : Log)
        → Logs (S.written out.new) end seq_ends → SendsItems items (S.written out.old) end) }
{
    for value in values {
        send_value(value, out)?;
    }
    Ok(())
}

/// The list of a document's diagnostics: that of its fault, and those behind it.
fn send_fault_list<S: Serializer>(fault: &Fault, out: &mut S) -> Result<(), S::Error>
    ensures { OnOk result (SendsValue (array (fault_items (fault_view fault.now)))
        (S.written out.old) (S.written out.new)) }
{
    out.begin_seq(Some(fault.behind.len() + 1))?;
    send_fault(fault, out)?;
    send_values(&fault.behind, out)?;
    out.end_seq()
}

/// Diagnostics with their URI alone.
fn send_unversioned<S: Serializer>(fault: &Fault, out: &mut S) -> Result<(), S::Error>
    ensures { let shown = fault_view fault.now in
        let list = array (fault_items shown) in
        OnOk result (SendsValue (published shown.uri None list)
        (S.written out.old) (S.written out.new)) }
{
    out.begin_map(Some(2))?;
    out.key("diagnostics")?;
    send_fault_list(fault, out)?;
    out.key("uri")?;
    out.str(fault.uri.as_str())?;
    out.end_map()
}

/// Diagnostics with their URI and version.
fn send_versioned<S: Serializer>(fault: &Fault, version: i32, out: &mut S) -> Result<(), S::Error>
    ensures { let shown = fault_view fault.now in
        let list = array (fault_items shown) in
        OnOk result (SendsValue (published shown.uri (Some version) list)
        (S.written out.old) (S.written out.new)) }
{
    out.begin_map(Some(3))?;
    out.key("diagnostics")?;
    send_fault_list(fault, out)?;
    out.key("uri")?;
    out.str(fault.uri.as_str())?;
    out.key("version")?;
    send_integer(version, out)?;
    out.end_map()
}

/// Diagnostics with their URI, and with their version where they have one (LSP 3.17,
/// "PublishDiagnosticsParams").
fn send_published<S: Serializer>(fault: &Fault, out: &mut S) -> Result<(), S::Error>
    ensures { let shown = fault_view fault.now in
        let list = array (fault_items shown) in
        OnOk result (SendsValue (published shown.uri shown.version list)
        (S.written out.old) (S.written out.new)) }
{
    match fault.version {
        Some(version) => send_versioned(fault, version, out),
        None => send_unversioned(fault, out),
    }
}

/// The notification of a fault (LSP 3.17, "PublishDiagnostics Notification").
pub(crate) fn send_worded<S: Serializer>(fault: &Fault, out: &mut S) -> Result<(), S::Error>
    ensures { OnOk result
        (SendsValue (worded_data (fault_view fault.now)) (S.written out.old) (S.written out.new)) }
{
    out.begin_map(Some(3))?;
    out.key("jsonrpc")?;
    out.str("2.0")?;
    out.key("method")?;
    out.str("textDocument/publishDiagnostics")?;
    out.key("params")?;
    send_published(fault, out)?;
    out.end_map()
}
