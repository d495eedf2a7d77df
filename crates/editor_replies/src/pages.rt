//! Results that show a document's tokens and its tree, some at a time.

use crate::results::position_value;
use flat_trees::{Line, Looked, NodePage};
use serde_json::{Map, Value, json};
use std::alloc::{AllocError, Global};
use token_rows::TokenRow;

/// A token: the name of its rule, where it starts and ends, its text, and whether it is skipped.
fn row_value(alloc: Global, row: &TokenRow) -> Result<Value, AllocError> {
    let (name, text, is_skipped) = (row.name.as_str(), row.text.as_str(), row.is_skipped);
    let (start, end) = (row.range.start, row.range.end);
    json!(in alloc; [
        name,
        start.line,
        start.character,
        end.line,
        end.character,
        text,
        is_skipped
    ])
}

/// The tokens of some lines of a document, which has this version. Refuses for memory alone.
pub fn rows_value(alloc: Global, version: i32, rows: &[TokenRow]) -> Result<Value, AllocError> {
    let mut values = Vec::with_capacity(alloc, rows.len())?;
    for row in rows {
        values.push(row_value(alloc, row)?)?;
    }
    json!(in alloc; {"rows": values, "version": version})
}

/// Texts, in order.
pub(crate) fn text_values(alloc: Global, texts: &[String]) -> Result<Vec<Value>, AllocError> {
    let mut values = Vec::with_capacity(alloc, texts.len())?;
    for text in texts {
        values.push(Value::String(String::from_str(alloc, text.as_str())?))?;
    }
    Ok(values)
}

/// A line of a tree: where it has tokens also where these start and end, and of a single one the
/// text.
fn line_value(alloc: Global, line: &Line) -> Result<Value, AllocError> {
    let mut value = Map::new(alloc);
    let names = Value::Array(text_values(alloc, &line.names)?);
    value.insert(String::from_str(alloc, "names")?, names)?;
    value.insert(
        String::from_str(alloc, "isNode")?,
        Value::Bool(line.is_node),
    )?;
    value.insert(
        String::from_str(alloc, "hasParts")?,
        Value::Bool(line.has_parts),
    )?;
    value.insert(
        String::from_str(alloc, "isThere")?,
        Value::Bool(line.is_there),
    )?;
    if let Some(range) = line.range {
        let start = position_value(alloc, range.start)?;
        let end = position_value(alloc, range.end)?;
        value.insert(String::from_str(alloc, "start")?, start)?;
        value.insert(String::from_str(alloc, "end")?, end)?;
    }
    if let Some(text) = &line.text {
        let text = String::from_str(alloc, text.as_str())?;
        value.insert(String::from_str(alloc, "text")?, Value::String(text))?;
    }
    Ok(Value::Object(value))
}

/// The numbers of parts that lead to a node.
fn path_value(alloc: Global, path: &[usize]) -> Result<Value, AllocError> {
    let mut values = Vec::with_capacity(alloc, path.len())?;
    for number in path {
        values.push(json!(in alloc; *number)?)?;
    }
    Ok(Value::Array(values))
}

/// A page of a node's parts.
fn page_value(alloc: Global, page: &NodePage) -> Result<Value, AllocError> {
    let path = path_value(alloc, &page.path)?;
    let (count, first) = (page.count, page.first);
    let mut parts = Vec::with_capacity(alloc, page.parts.len())?;
    for line in &page.parts {
        parts.push(line_value(alloc, line)?)?;
    }
    json!(in alloc; {"count": count, "first": first, "parts": parts, "path": path})
}

/// What is looked at of the tree of a document, which has this version, and what may follow there,
/// in words. Refuses for memory alone.
pub fn nodes_value(
    alloc: Global,
    version: i32,
    looked: &Looked,
    follow: &[String],
) -> Result<Value, AllocError> {
    let root = match &looked.root {
        Some(line) => line_value(alloc, line)?,
        None => Value::Null,
    };
    let path = path_value(alloc, &looked.way)?;
    let mut nodes = Vec::with_capacity(alloc, looked.nodes.len())?;
    for page in &looked.nodes {
        nodes.push(page_value(alloc, page)?)?;
    }
    let follow = text_values(alloc, follow)?;
    json!(in alloc; {
        "follow": follow,
        "nodes": nodes,
        "path": path,
        "root": root,
        "version": version
    })
}
