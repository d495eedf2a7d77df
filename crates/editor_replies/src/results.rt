//! Results that are JSON values: what mends faults.

use definitions::{Position, Range};
use faults::{FaultBehind, Fix};
use serde_json::{Map, Value, json};
use std::alloc::{AllocError, Global};

/// A position (LSP 3.17, "Position").
pub(crate) fn position_value(alloc: Global, position: Position) -> Result<Value, AllocError> {
    json!(in alloc; {"character": position.character, "line": position.line})
}

/// A range (LSP 3.17, "Range").
fn range_value(alloc: Global, range: Range) -> Result<Value, AllocError> {
    let start = position_value(alloc, range.start)?;
    let end = position_value(alloc, range.end)?;
    json!(in alloc; {"end": end, "start": start})
}

/// Something that is said of a place, beside a diagnostic
/// (LSP 3.17, "DiagnosticRelatedInformation").
fn related_value(alloc: Global, uri: &str, range: Range, text: &str) -> Result<Value, AllocError> {
    let range = range_value(alloc, range)?;
    json!(in alloc; {"location": {"range": range, "uri": uri}, "message": text})
}

/// What is said beside the diagnostic of a fault behind the first: how the one before it is
/// mended, and all that was expected.
fn related_values(alloc: Global, uri: &str, fault: &FaultBehind) -> Result<Vec<Value>, AllocError> {
    let mut values = Vec::new(alloc);
    let condition = &fault.condition;
    values.push(related_value(alloc, uri, condition.range, condition.text.as_str())?)?;
    if let Some(text) = &fault.related {
        values.push(related_value(alloc, uri, fault.range, text.as_str())?)?;
    }
    Ok(values)
}

/// The diagnostic of a fault behind the first of a document (LSP 3.17, "Diagnostic"), with what is
/// said beside it, where the editor shows that. Refuses for memory alone.
pub fn behind_value(
    alloc: Global,
    uri: &str,
    fault: &FaultBehind,
    is_related: bool,
) -> Result<Value, AllocError> {
    if !is_related {
        return diagnostic_value(alloc, fault.range, fault.message.as_str());
    }
    let related = related_values(alloc, uri, fault)?;
    let (range, message) = (range_value(alloc, fault.range)?, fault.message.as_str());
    json!(in alloc; {
        "message": message,
        "range": range,
        "relatedInformation": related,
        "severity": 1,
        "source": "lrls"
    })
}

/// A diagnostic with nothing beside it (LSP 3.17, "Diagnostic").
fn diagnostic_value(alloc: Global, range: Range, message: &str) -> Result<Value, AllocError> {
    let range = range_value(alloc, range)?;
    json!(in alloc; {"message": message, "range": range, "severity": 1, "source": "lrls"})
}

/// The text edits of a fix (LSP 3.17, "TextEdit").
fn edit_values(alloc: Global, fix: &Fix) -> Result<Vec<Value>, AllocError> {
    let mut values = Vec::new(alloc);
    for edit in &fix.edits {
        let (range, text) = (range_value(alloc, edit.range)?, edit.text.as_str());
        values.push(json!(in alloc; {"newText": text, "range": range})?)?;
    }
    Ok(values)
}

/// What a fix changes in the document of this URI (LSP 3.17, "WorkspaceEdit").
fn changes_value(alloc: Global, uri: &str, fix: &Fix) -> Result<Value, AllocError> {
    let mut changes = Map::new(alloc);
    changes.insert(
        String::from_str(alloc, uri)?,
        Value::Array(edit_values(alloc, fix)?),
    )?;
    let changes = Value::Object(changes);
    json!(in alloc; {"changes": changes})
}

/// What mends a fault (LSP 3.17, "CodeAction").
fn fix_value(alloc: Global, uri: &str, fix: &Fix) -> Result<Value, AllocError> {
    let fault = diagnostic_value(alloc, fix.range, fix.message.as_str())?;
    let (edit, title) = (changes_value(alloc, uri, fix)?, fix.title.as_str());
    json!(in alloc; {
        "diagnostics": [fault],
        "edit": edit,
        "isPreferred": fix.is_preferred,
        "kind": "quickfix",
        "title": title
    })
}

/// What mends faults of the document of this URI, in order (LSP 3.17, "Code Action Request").
/// Refuses for memory alone.
pub fn fixes_value(alloc: Global, uri: &str, fixes: &[Fix]) -> Result<Value, AllocError> {
    let mut values = Vec::with_capacity(alloc, fixes.len())?;
    for fix in fixes {
        values.push(fix_value(alloc, uri, fix)?)?;
    }
    Ok(Value::Array(values))
}

/// What who edits is told, with the protocol's number of how much it weighs
/// (LSP 3.17, "ShowMessageParams"). Refuses for memory alone.
pub fn told_value(alloc: Global, weight: u32, text: &str) -> Result<Value, AllocError> {
    json!(in alloc; {"message": text, "type": weight})
}

/// That a file was written is to be told, for the files of these paths
/// (LSP 3.17, "DidChangeWatchedFilesRegistrationOptions"). Refuses for memory alone.
pub fn watching_value(alloc: Global, paths: &[String]) -> Result<Value, AllocError> {
    let mut watchers = Vec::new(alloc);
    for path in paths {
        let glob = path.as_str();
        watchers.push(json!(in alloc; {"globPattern": glob})?)?;
    }
    let options = json!(in alloc; {"watchers": watchers})?;
    let registration = json!(in alloc; {
        "id": "lrls-ide files",
        "method": "workspace/didChangeWatchedFiles",
        "registerOptions": options
    })?;
    json!(in alloc; {"registrations": [registration]})
}
