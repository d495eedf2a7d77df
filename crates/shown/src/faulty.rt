//! What is told of the faults of a document, and what its mended copy has besides.

ghost use Rattle.docs.specs.Docs.{IsCurrent};

use crate::shown::Shown;
use docs::{Doc, Language};
use editor_replies::{Value, behind_value};
use faults::{Words, behind, mended, words_of_fault};
use mending::Mending;
use outline::mended_folds;
use std::alloc::{AllocError, Global};

/// What is told of the fault of a document.
#[derive(Debug, Drop)]
pub(crate) struct ToldFault {
    /// The message.
    pub message: String,
    /// All that was expected, where the message doesn't name it and the editor shows it.
    pub related: Option<String>,
    /// The diagnostics of the faults behind it.
    pub behind: Vec<Value>,
}

/// What is told of the fault of the document of this URI, with what stands beside it where the
/// editor shows that; none where it has no fault. Its mended copy is made where none is kept.
/// Refuses for memory alone.
pub(crate) fn told_fault(
    alloc: Global,
    language: &Language,
    shown: &Shown,
    doc: &Doc,
    uri: &str,
    kept: Option<&Mending>,
    is_related: bool,
) -> Result<Option<ToldFault>, AllocError>
    requires { IsCurrent language.now doc.now }
{
    let settings = &shown.settings;
    let Some(Words { message, related }) = words_of_fault(alloc, language, settings, doc)? else {
        return Ok(None);
    };
    let behind = match kept {
        Some(mending) => told_behind(alloc, language, shown, doc, uri, mending, is_related)?,
        None => match mended(alloc, language, &shown.texts, doc)? {
            Some(mending) => told_behind(alloc, language, shown, doc, uri, &mending, is_related)?,
            None => Vec::new(alloc),
        },
    };
    Ok(Some(ToldFault {
        message,
        related: if is_related { related } else { None },
        behind,
    }))
}

/// The diagnostics of the faults behind the first one of a document.
fn told_behind(
    alloc: Global,
    language: &Language,
    shown: &Shown,
    doc: &Doc,
    uri: &str,
    mending: &Mending,
    is_related: bool,
) -> Result<Vec<Value>, AllocError> {
    let mut values = Vec::new(alloc);
    for fault in &behind(alloc, language, &shown.settings, doc, mending)? {
        values.push(behind_value(alloc, uri, fault, is_related)?)?;
    }
    Ok(values)
}

/// The folds that the mended copy of a document has besides these, which are in order. Refuses for
/// memory alone.
pub(crate) fn more_folds(
    alloc: Global,
    language: &Language,
    doc: &Doc,
    mending: &Mending,
    pairs: &[(u32, u32)],
) -> Result<Vec<(u32, u32)>, AllocError> {
    let mut more = Vec::new(alloc);
    for pair in &mended_folds(alloc, language, doc, mending)? {
        if pairs.binary_search(pair).is_err() {
            more.push(*pair)?;
        }
    }
    Ok(more)
}
