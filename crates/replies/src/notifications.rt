//! Published diagnostics and log messages.

ghost use Rattle.std.specs.Prelude.{Some, None, option_map, OnOk};
ghost use Rattle.serde_json.specs.Events.{SendsValue};
ghost use Rattle.replies.specs.Replies.{diagnostic_data, diagnostic_view, diagnostic_list, published, log_data, published_diagnostics, log_message, reply_data};

use crate::parts::{send_integer, send_range};
use crate::reply::{Log, log_text};
use definitions::Diagnostic;
use serde::Serializer;

/// A diagnostic (LSP 3.17, "Diagnostic").
fn send_diagnostic<S: Serializer>(diagnostic: &Diagnostic, out: &mut S) -> Result<(), S::Error>
    ensures { OnOk result (SendsValue (diagnostic_data (diagnostic_view diagnostic.now))
        (S.written out.old) (S.written out.new)) }
{
    out.begin_map(Some(4))?;
    out.key("message")?;
    out.str(diagnostic.message.as_str())?;
    out.key("range")?;
    send_range(diagnostic.range, out)?;
    out.key("severity")?;
    out.u64(1)?;
    out.key("source")?;
    out.str("lrls")?;
    out.end_map()
}

/// The list of no diagnostic.
fn send_no_diagnostic<S: Serializer>(out: &mut S) -> Result<(), S::Error>
    ensures { OnOk result
        (SendsValue (diagnostic_list None) (S.written out.old) (S.written out.new)) }
{
    out.begin_seq(Some(0))?;
    out.end_seq()
}

/// The list of a diagnostic.
fn send_one_diagnostic<S: Serializer>(diagnostic: &Diagnostic, out: &mut S) -> Result<(), S::Error>
    ensures { OnOk result
        (SendsValue (diagnostic_list (Some (diagnostic_view diagnostic.now)))
        (S.written out.old) (S.written out.new)) }
{
    out.begin_seq(Some(1))?;
    send_diagnostic(diagnostic, out)?;
    out.end_seq()
}

/// The list of one diagnostic, or of none.
fn send_diagnostic_list<S: Serializer>(
    diagnostic: &Option<Diagnostic>,
    out: &mut S,
) -> Result<(), S::Error>
    ensures { OnOk result
        (SendsValue (diagnostic_list (option_map diagnostic_view diagnostic.now))
        (S.written out.old) (S.written out.new)) }
{
    match diagnostic {
        Some(diagnostic) => send_one_diagnostic(diagnostic, out),
        None => send_no_diagnostic(out),
    }
}

/// Diagnostics with their URI alone.
fn send_unversioned<S: Serializer>(
    uri: &str,
    diagnostic: &Option<Diagnostic>,
    out: &mut S,
) -> Result<(), S::Error>
    ensures { let list = diagnostic_list (option_map diagnostic_view diagnostic.now) in
        OnOk result
        (SendsValue (published uri.now None list) (S.written out.old) (S.written out.new)) }
{
    out.begin_map(Some(2))?;
    out.key("diagnostics")?;
    send_diagnostic_list(diagnostic, out)?;
    out.key("uri")?;
    out.str(uri)?;
    out.end_map()
}

/// Diagnostics with their URI and version.
fn send_versioned<S: Serializer>(
    uri: &str,
    version: i32,
    diagnostic: &Option<Diagnostic>,
    out: &mut S,
) -> Result<(), S::Error>
    ensures { let list = diagnostic_list (option_map diagnostic_view diagnostic.now) in
        OnOk result
        (SendsValue (published uri.now (Some version) list)
        (S.written out.old) (S.written out.new)) }
{
    out.begin_map(Some(3))?;
    out.key("diagnostics")?;
    send_diagnostic_list(diagnostic, out)?;
    out.key("uri")?;
    out.str(uri)?;
    out.key("version")?;
    send_integer(version, out)?;
    out.end_map()
}

/// Diagnostics with their URI, and with their version where they have one (LSP 3.17,
/// "PublishDiagnosticsParams").
fn send_published<S: Serializer>(
    uri: &str,
    version: Option<i32>,
    diagnostic: &Option<Diagnostic>,
    out: &mut S,
) -> Result<(), S::Error>
    ensures { let list = diagnostic_list (option_map diagnostic_view diagnostic.now) in
        OnOk result
        (SendsValue (published uri.now version list) (S.written out.old) (S.written out.new)) }
{
    match version {
        Some(version) => send_versioned(uri, version, diagnostic, out),
        None => send_unversioned(uri, diagnostic, out),
    }
}

/// The notification of diagnostics (LSP 3.17, "PublishDiagnostics Notification").
pub(crate) fn send_diagnostics<S: Serializer>(
    uri: &str,
    version: Option<i32>,
    diagnostic: &Option<Diagnostic>,
    out: &mut S,
) -> Result<(), S::Error>
    ensures { let shown = option_map diagnostic_view diagnostic.now in
        OnOk result (SendsValue (reply_data (published_diagnostics uri.now version shown))
        (S.written out.old) (S.written out.new)) }
{
    out.begin_map(Some(3))?;
    out.key("jsonrpc")?;
    out.str("2.0")?;
    out.key("method")?;
    out.str("textDocument/publishDiagnostics")?;
    out.key("params")?;
    send_published(uri, version, diagnostic, out)?;
    out.end_map()
}

/// What is logged (LSP 3.17, "LogMessageParams"): type 1 is an error.
fn send_logged<S: Serializer>(log: Log, out: &mut S) -> Result<(), S::Error>
    ensures { OnOk result (SendsValue (log_data log) (S.written out.old) (S.written out.new)) }
{
    out.begin_map(Some(2))?;
    out.key("message")?;
    out.str(log_text(log))?;
    out.key("type")?;
    out.u64(1)?;
    out.end_map()
}

/// The notification of what is logged (LSP 3.17, "LogMessage Notification").
pub(crate) fn send_log<S: Serializer>(log: Log, out: &mut S) -> Result<(), S::Error>
    ensures { OnOk result
        (SendsValue (reply_data (log_message log)) (S.written out.old) (S.written out.new)) }
{
    out.begin_map(Some(3))?;
    out.key("jsonrpc")?;
    out.str("2.0")?;
    out.key("method")?;
    out.str("window/logMessage")?;
    out.key("params")?;
    send_logged(log, out)?;
    out.end_map()
}
