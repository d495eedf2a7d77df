//! Ids and places, as they stand in many messages.

ghost use Rattle.std.specs.Prelude.{Some, None, option_map, OnOk};
ghost use Rattle.serde_json.specs.Data.{number};
ghost use Rattle.serde_json.specs.Events.{SendsValue};
ghost use Rattle.serde_json.specs.Find.{of_integer};
ghost use Rattle.replies.specs.Ids.{id_view};
ghost use Rattle.replies.specs.Replies.{id_data, maybe_id_data, position_data, range_data};

use crate::id::Id;
use definitions::{Position, Range};
use serde::{Serialize, Serializer};
use serde_json::Value;

/// A whole number, for the JSON writer.
pub fn send_integer<S: Serializer>(value: i32, out: &mut S) -> Result<(), S::Error>
    ensures { OnOk result
        (SendsValue (number (of_integer value)) (S.written out.old) (S.written out.new)) }
{
    Value::from(value).serialize(out)
}

/// An id, for the JSON writer.
pub fn send_id<S: Serializer>(id: &Id, out: &mut S) -> Result<(), S::Error>
    ensures { OnOk result
        (SendsValue (id_data (id_view id.now)) (S.written out.old) (S.written out.new)) }
{
    match id {
        Id::Text(text) => out.str(text.as_str()),
        Id::Number(number) => send_integer(*number, out),
    }
}

/// An id, or `null`.
pub(crate) fn send_maybe_id<S: Serializer>(id: &Option<Id>, out: &mut S) -> Result<(), S::Error>
    ensures { OnOk result (SendsValue (maybe_id_data (option_map id_view id.now))
        (S.written out.old) (S.written out.new)) }
{
    match id {
        Some(id) => send_id(id, out),
        None => out.unit(),
    }
}

/// A position (LSP 3.17, "Position").
fn send_position<S: Serializer>(position: Position, out: &mut S) -> Result<(), S::Error>
    ensures { OnOk result
        (SendsValue (position_data position) (S.written out.old) (S.written out.new)) }
{
    out.begin_map(Some(2))?;
    out.key("character")?;
    out.u64(position.character as u64)?;
    out.key("line")?;
    out.u64(position.line as u64)?;
    out.end_map()
}

/// A range (LSP 3.17, "Range"), for the JSON writer.
pub fn send_range<S: Serializer>(range: Range, out: &mut S) -> Result<(), S::Error>
    ensures { OnOk result (SendsValue (range_data range) (S.written out.old) (S.written out.new)) }
{
    out.begin_map(Some(2))?;
    out.key("end")?;
    send_position(range.end, out)?;
    out.key("start")?;
    send_position(range.start, out)?;
    out.end_map()
}
