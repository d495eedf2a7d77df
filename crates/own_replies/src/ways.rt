//! The nodes that a request names.

use flat_trees::Way;
use serde_json::Value;
use std::alloc::{AllocError, Global};

/// A number of 32 bits.
fn number_of(value: &Value) -> Option<u32> {
    u32::try_from(value.as_u64()?).ok()
}

/// The numbers of a list, where each item is one.
fn path_of(alloc: Global, items: &[Value]) -> Result<Option<Vec<u32>>, AllocError> {
    let mut path = Vec::with_capacity(alloc, items.len())?;
    for item in items {
        let Some(number) = number_of(item) else {
            return Ok(None);
        };
        path.push(number)?;
    }
    Ok(Some(path))
}

/// The way to a node, with a part of it: `path` and `part` of a JSON object.
fn way_of(alloc: Global, value: &Value) -> Result<Option<Way>, AllocError> {
    let (Some(Value::Array(items)), Some(part)) = (value.get("path"), value.get("part")) else {
        return Ok(None);
    };
    match (path_of(alloc, items)?, number_of(part)) {
        (Some(path), Some(part)) => Ok(Some(Way { path, part })),
        _ => Ok(None),
    }
}

/// The ways that a JSON value names: those of a list, where each item is one; none of `null`.
pub(crate) fn ways_in(alloc: Global, value: &Value) -> Result<Option<Vec<Way>>, AllocError> {
    let mut ways = Vec::new(alloc);
    let items = match value {
        Value::Null => return Ok(Some(ways)),
        Value::Array(items) => items,
        _ => return Ok(None),
    };
    for item in items {
        let Some(way) = way_of(alloc, item)? else {
            return Ok(None);
        };
        ways.push(way)?;
    }
    Ok(Some(ways))
}
