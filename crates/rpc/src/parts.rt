//! The parts of a message.

ghost use Rattle.std.specs.Prelude.{◌≡◌, ◌||◌, codes, option_map, option_and_then, IfOk};
ghost use Rattle.serde_json.specs.View.{view, items_view};
ghost use Rattle.rpc.specs.Fields.{text_at, has_key};
ghost use Rattle.replies.specs.Ids.{id_view};
ghost use Rattle.rpc.specs.Reading.{ident_of, uri_at, position_of, position_at, positions_of, positions_at, range_of, unit_named, unit_of, first_unit, encodings_at, unit_at, is_text};

use crate::fields::{has_key, integer_at, integer_of, natural_at, text_at};
use definitions::{Position, Range, Unit};
use replies::Id;
use serde_json::Value;
use std::alloc::{AllocError, Global};

/// A text, or a whole number that fits.
fn ident_of(alloc: Global, value: &Value) -> Result<Option<Id>, AllocError>
    ensures { IfOk result (λ id. option_map id_view id ≡ ident_of (view value.now)) }
{
    match value {
        Value::String(text) => Ok(Some(Id::Text(String::from_str(alloc, text.as_str())?))),
        _ => Ok(integer_of(value).map(Id::Number)),
    }
}

/// The id that stands there, where it can be read.
pub fn id_of(alloc: Global, member: Option<&Value>) -> Result<Option<Id>, AllocError>
    ensures { IfOk result (λ id. option_map id_view id
        ≡ option_and_then ident_of (option_map (λ v. view v.now) member.entry)) }
{
    match member {
        Some(id) => ident_of(alloc, id),
        None => Ok(None),
    }
}

/// The URI of the document that the parameters name.
pub fn uri_at(params: &Value) -> Option<&str>
    ensures { option_map (λ s. s.now) result ≡ uri_at (view params.now) }
{
    text_at(params.get("textDocument")?, "uri")
}

/// A position (LSP 3.17, "Position").
fn position_of(value: &Value) -> Option<Position>
    ensures { result ≡ position_of (view value.now) }
{
    Some(Position {
        line: natural_at(value, "line")?,
        character: natural_at(value, "character")?,
    })
}

/// The position that stands under a key.
pub fn position_at(value: &Value, key: &str) -> Option<Position>
    ensures { result ≡ position_at key.now (view value.now) }
{
    position_of(value.get(key)?)
}

/// The positions, where each item is one.
fn positions_of(alloc: Global, items: &[Value]) -> Result<Option<Vec<Position>>, AllocError>
    ensures { IfOk result (λ positions.
        option_map (λ v. v.items) positions ≡ positions_of (items_view items.now)) }
{
    let mut positions = Vec::new(alloc);
    for item in items {
        match position_of(item) {
            Some(position) => positions.push(position)?,
            None => return Ok(None),
        }
    }
    Ok(Some(positions))
}

/// The positions that the parameters name, where they are a list and each item is one.
pub fn positions_at(alloc: Global, params: &Value) -> Result<Option<Vec<Position>>, AllocError>
    ensures { IfOk result (λ positions.
        option_map (λ v. v.items) positions ≡ positions_at (view params.now)) }
{
    match params.get("positions") {
        Some(Value::Array(items)) => positions_of(alloc, items),
        _ => Ok(None),
    }
}

/// A range (LSP 3.17, "Range").
pub fn range_of(value: &Value) -> Option<Range>
    ensures { result ≡ range_of (view value.now) }
{
    Some(Range {
        start: position_at(value, "start")?,
        end: position_at(value, "end")?,
    })
}

/// The unit of this name (LSP 3.17, "PositionEncodingKind").
fn unit_named(name: &str) -> Option<Unit>
    ensures { result ≡ unit_named name.now }
{
    if name == "utf-8" {
        Some(Unit::Utf8)
    } else if name == "utf-16" {
        Some(Unit::Utf16)
    } else if name == "utf-32" {
        Some(Unit::Utf32)
    } else {
        None
    }
}

/// The unit that a value names.
fn unit_of(value: &Value) -> Option<Unit>
    ensures { result ≡ unit_of (view value.now) }
{
    unit_named(value.as_str()?)
}

/// The first of the items that names a unit.
fn first_unit(items: &[Value]) -> Option<Unit>
    ensures { result ≡ first_unit (items_view items.now) }
{
    for item in items {
        if let Some(unit) = unit_of(item) {
            return Some(unit);
        }
    }
    None
}

/// What stands under `capabilities.general.positionEncodings` (LSP 3.17, "General client
/// capabilities").
fn encodings_at(params: &Value) -> Option<&Value>
    ensures { option_map (λ v. view v.now) result ≡ encodings_at (view params.now) }
{
    params
        .get("capabilities")?
        .get("general")?
        .get("positionEncodings")
}

/// The unit that positions are to count: the first that the client names, and UTF-16 where it
/// names none.
pub fn unit_at(params: &Value) -> Unit
    ensures { result ≡ unit_at (view params.now) }
{
    match encodings_at(params) {
        Some(Value::Array(items)) => first_unit(items).unwrap_or(Unit::Utf16),
        _ => Unit::Utf16,
    }
}

/// Whether the value has a result or an error (JSON-RPC 2.0, "Response object").
pub fn has_outcome(value: &Value) -> bool
    ensures { result ≡ (has_key (codes "result") (view value.now)
        || has_key (codes "error") (view value.now)) }
{
    has_key(value, "result") || has_key(value, "error")
}

/// Whether `jsonrpc` is 2.0.
pub fn has_version(value: &Value) -> bool
    ensures { result ≡ is_text (codes "2.0") (text_at (codes "jsonrpc") (view value.now)) }
{
    text_at(value, "jsonrpc").is_some_and(|version| version == "2.0")
}
