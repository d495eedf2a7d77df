//! Results that are any JSON value.

ghost use Rattle.std.specs.Prelude.{◌≡◌, not, OnOk};
ghost use Rattle.serde_json.specs.Events.{SendsValue};
ghost use Rattle.serde_json.specs.View.{items_view, members_view, view};
ghost use Rattle.serde_json.specs.Written.{has_float, items_have_float, members_have_float};
ghost use Rattle.editor_replies.specs.Sending.{without_fractions};

use serde::{Serialize, Serializer};
use serde_json::{Map, Value};

/// Whether no number in a JSON value has a fraction.
#[cycle(is_whole)]
fn is_whole(value: &Value) -> bool
    ensures { result ≡ not (has_float (view value.now)) }
{
    match value {
        Value::Null | Value::Bool(_) | Value::String(_) => true,
        Value::Number(number) => !number.is_f64(),
        Value::Array(items) => are_whole(items),
        Value::Object(members) => are_members_whole(members),
    }
}

/// Whether no number in a list has a fraction.
#[cycle(is_whole)]
fn are_whole(items: &Vec<Value>) -> bool
    ensures { result ≡ not (items_have_float (items_view items.now.items)) }
{
    for item in items {
        if !is_whole(item) {
            return false;
        }
    }
    true
}

/// Whether no number in an object has a fraction.
#[cycle(is_whole)]
fn are_members_whole(members: &Map<String, Value>) -> bool
    ensures { result ≡ not (members_have_float (members_view members.now.entries)) }
{
    for (_, member) in members.iter() {
        if !is_whole(member) {
            return false;
        }
    }
    true
}

/// A JSON value, or `null` in the place of one that has a number with a fraction: how those are
/// written no contract says.
pub(crate) fn send_value<S: Serializer>(value: &Value, out: &mut S) -> Result<(), S::Error>
    ensures { OnOk result (SendsValue (without_fractions (view value.now))
        (S.written out.old) (S.written out.new)) }
{
    if is_whole(value) {
        value.serialize(out)
    } else {
        out.unit()
    }
}
