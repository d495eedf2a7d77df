//! Which requests the editor has cancelled (LSP 3.17, "Cancellation Support").

ghost use Rattle.std.specs.Prelude.{◌≡◌, ◌↔◌, true, drop, option_map, IfOk};
ghost use Rattle.frames.specs.Contents.{contents};
ghost use Rattle.replies.specs.Ids.{id_view};
ghost use Rattle.serde_json.specs.View.{view};
ghost use Rattle.questions.specs.Cancels.{cancelled_by, cancelled_of, cancels, later_view, IsCancelled};

use frames::Frame;
use rpc::{Id, id_of, text_at};
use serde_json::Value;
use std::alloc::{AllocError, Global};

/// How many bytes a content has at most that cancels a request.
const LONGEST_CANCEL: usize = 1_024;

/// The id of the request that a JSON value cancels.
fn cancelled_of(alloc: Global, value: &Value) -> Result<Option<Id>, AllocError>
    ensures { IfOk result (λ id. option_map id_view id ≡ cancelled_of (view value.now)) }
{
    let none = Value::Null;
    let params = value.get("params").unwrap_or(&none);
    match text_at(value, "method") {
        Some("$/cancelRequest") => id_of(alloc, params.get("id")),
        _ => Ok(None),
    }
}

/// The id of the request that a content cancels, if it cancels one. A content of more than 1,024
/// bytes cancels none. Refuses for memory alone.
fn cancelled_by(alloc: Global, content: &[u8]) -> Result<Option<Id>, AllocError>
    ensures { IfOk result (λ id. option_map id_view id ≡ cancelled_by content.now) }
{
    if content.len() > LONGEST_CANCEL {
        return Ok(None);
    }
    match Value::from_slice(alloc, content) {
        Ok(value) => cancelled_of(alloc, &value),
        Err(error) if error.is_memory() => Err(AllocError),
        Err(_) => Ok(None),
    }
}

/// For each frame the id of the request that its content cancels.
fn all_cancelled(alloc: Global, frames: &[Frame]) -> Result<Vec<Option<Id>>, AllocError>
    ensures { IfOk result (λ ids. later_view ids.items ≡ cancels (contents frames.now)) }
{
    let mut ids = Vec::new(alloc);
    for frame in frames {
        ids.push(cancelled_by(alloc, &frame.content)?)?;
    }
    Ok(ids)
}

/// For each of the frames but the first the id of the request that its content cancels.
pub fn cancels(alloc: Global, frames: &[Frame]) -> Result<Vec<Option<Id>>, AllocError>
    ensures { IfOk result (λ ids. later_view ids.items ≡ cancels (drop 1 (contents frames.now))) }
{
    match frames.split_first() {
        Some((_, others)) => all_cancelled(alloc, others),
        None => Ok(Vec::new(alloc)),
    }
}

/// Whether two ids are the same.
fn is_same(one: &Id, other: &Id) -> bool
    ensures { result ≡ true ↔ id_view one.now ≡ id_view other.now }
{
    match (one, other) {
        (Id::Text(one), Id::Text(other)) => one.as_str() == other.as_str(),
        (Id::Number(one), Id::Number(other)) => one == other,
        _ => false,
    }
}

/// Whether a request with this id is cancelled.
pub fn is_cancelled(id: &Id, later: &[Option<Id>]) -> bool
    ensures { result ≡ true → IsCancelled (id_view id.now) (later_view later.now) }
{
    for cancelled in later {
        if let Some(cancelled) = cancelled
            && is_same(cancelled, id)
        {
            return true;
        }
    }
    false
}

/// A copy of an id.
pub fn copy_of(alloc: Global, id: &Id) -> Result<Id, AllocError>
    ensures { IfOk result (λ copy. id_view copy ≡ id_view id.now) }
{
    match id {
        Id::Text(text) => Ok(Id::Text(String::from_str(alloc, text.as_str())?)),
        Id::Number(number) => Ok(Id::Number(*number)),
    }
}
