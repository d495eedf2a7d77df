//! What is told of a grammar file, as JSON values.

ghost use Rattle.std.specs.Prelude.{◌≡◌, codes, string_bytes, Some, IfOk};
ghost use Rattle.serde_json.specs.Data.{Data, null, string};
ghost use Rattle.serde_json.specs.Find.{get};
ghost use Rattle.serde_json.specs.View.{view};

use crate::pages::text_values;
use grammar_reports::{GrammarReport, LinePart, ReportedConflict, ReportedItem};
use serde_json::{Value, json};
use std::alloc::{AllocError, Global};

/// The range of a part of a line (LSP 3.17, "Range").
fn part_value(alloc: Global, part: LinePart) -> Result<Value, AllocError> {
    let (line, first, last) = (part.line, part.start, part.end);
    let start = json!(in alloc; {"character": first, "line": line})?;
    let end = json!(in alloc; {"character": last, "line": line})?;
    json!(in alloc; {"end": end, "start": start})
}

/// An item of a conflict, beside the diagnostic (LSP 3.17, "DiagnosticRelatedInformation").
fn item_value(alloc: Global, uri: &str, item: &ReportedItem) -> Result<Value, AllocError> {
    let (range, message) = (part_value(alloc, item.at)?, item.message.as_str());
    let location = json!(in alloc; {"range": range, "uri": uri})?;
    json!(in alloc; {"location": location, "message": message})
}

/// The items of a conflict, beside the diagnostic; none where there is no conflict.
fn item_values(alloc: Global, uri: &str, report: &GrammarReport) -> Result<Vec<Value>, AllocError> {
    let mut items = Vec::new(alloc);
    if let Some(conflict) = &report.conflict {
        items.push(item_value(alloc, uri, &conflict.first)?)?;
        items.push(item_value(alloc, uri, &conflict.second)?)?;
    }
    Ok(items)
}

/// The fault of a grammar file as a diagnostic of it (LSP 3.17, "Diagnostic").
fn report_value(alloc: Global, uri: &str, report: &GrammarReport) -> Result<Value, AllocError> {
    let items = item_values(alloc, uri, report)?;
    let (range, message) = (part_value(alloc, report.at)?, report.message.as_str());
    json!(in alloc; {
        "message": message,
        "range": range,
        "relatedInformation": items,
        "severity": 1,
        "source": "lrls"
    })
}

/// What is published of a grammar file: its fault, or that it has none
/// (LSP 3.17, "PublishDiagnosticsParams"). Refuses for memory alone.
pub fn grammar_diagnostics_value(
    alloc: Global,
    uri: &str,
    report: Option<&GrammarReport>,
) -> Result<Value, AllocError> {
    let mut diagnostics = Vec::new(alloc);
    if let Some(report) = report {
        diagnostics.push(report_value(alloc, uri, report)?)?;
    }
    json!(in alloc; {"diagnostics": diagnostics, "uri": uri})
}

/// What an item of a conflict calls for, and its production with the dot and the lookahead.
fn move_value(alloc: Global, item: &ReportedItem) -> Result<Value, AllocError> {
    let symbols = text_values(alloc, &item.right)?;
    let (called, left, look) = (
        item.calls_for.word(),
        item.left.as_str(),
        item.look.as_str(),
    );
    let (dot, line) = (item.dot, item.at.line);
    json!(in alloc; {
        "dot": dot,
        "left": left,
        "line": line,
        "look": look,
        "move": called,
        "symbols": symbols
    })
}

/// A conflict: the lookahead, the symbols after which it comes, and the two moves.
fn conflict_value(alloc: Global, conflict: &ReportedConflict) -> Result<Value, AllocError> {
    let after = text_values(alloc, &conflict.prefix)?;
    let first = move_value(alloc, &conflict.first)?;
    let second = move_value(alloc, &conflict.second)?;
    let token = conflict.look.as_str();
    json!(in alloc; {"after": after, "moves": [first, second], "token": token})
}

/// What is wrong with a grammar file, and where.
fn fault_value(alloc: Global, report: &GrammarReport) -> Result<Value, AllocError>
    ensures { let message = string (string_bytes report.now.message) in
        IfOk result (λ value. get (codes "message") (view value) ≡ Some message) }
{
    let conflict = match &report.conflict {
        Some(conflict) => conflict_value(alloc, conflict)?,
        None => Value::Null,
    };
    let hint = match report.hint {
        Some(words) => Value::String(String::from_str(alloc, words)?),
        None => Value::Null,
    };
    let (range, message) = (part_value(alloc, report.at)?, report.message.as_str());
    json!(in alloc; {"conflict": conflict, "hint": hint, "message": message, "range": range})
}

/// What is told of a grammar file that defines a language: no fault, and the settings that are
/// guessed for it, as a settings file. Refuses for memory alone.
pub fn sound_grammar_value(alloc: Global, settings: &str) -> Result<Value, AllocError>
    ensures fault { IfOk result (λ value. get (codes "fault") (view value) ≡ Some null) }
    ensures settings { let settings = string settings.now in
        IfOk result (λ value. get (codes "settings") (view value) ≡ Some settings) }
{
    json!(in alloc; {"fault": null, "settings": settings})
}

/// What is told of a grammar file that defines no language: its fault. Refuses for memory alone.
pub fn faulty_grammar_value(alloc: Global, report: &GrammarReport) -> Result<Value, AllocError>
    ensures fault { let message = string (string_bytes report.now.message) in
        IfOk result (λ value.
        (fault : Data) × (get (codes "fault") (view value) ≡ Some fault)
        × (get (codes "message") fault ≡ Some message)) }
    ensures settings { IfOk result (λ value. get (codes "settings") (view value) ≡ Some null) }
{
    let fault = fault_value(alloc, report)?;
    json!(in alloc; {"fault": fault, "settings": null})
}
