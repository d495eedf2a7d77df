//! What a server holds under a URI.

ghost use Rattle.std.specs.Prelude.{◌≡◌, IfOk};
ghost use Rattle.std.specs.Str.{chars};
ghost use Rattle.server.specs.Holding.{entry_view, IsEntryOf};
ghost use Rattle.sessions.specs.Steps.{new_document};

use docs::{Doc, DocFault, Language};
use rpc::{Loss, Unit};
use std::alloc::{AllocError, Global};

/// What is held under a URI.
#[derive(Drop)]
pub(crate) enum Entry {
    /// An open document.
    Open(Doc),
    /// A document that was lost, and is to be opened anew.
    Lost(Loss),
}

/// A document of this text, or how it is lost. Refuses for memory alone.
pub fn open_entry(
    alloc: Global,
    language: &Language,
    unit: Unit,
    version: i32,
    text: &str,
) -> Result<Entry, AllocError>
    ensures is { IfOk result (λ e. entry_view e ≡ new_document unit version (chars text.now)) }
    ensures current { IfOk result (IsEntryOf language.now) }
{
    match Doc::open(alloc, language, unit, version, text) {
        Ok(doc) => Ok(Entry::Open(doc)),
        Err(DocFault::TooLarge) => Ok(Entry::Lost(Loss::TooLarge)),
        Err(DocFault::Memory) => Err(AllocError),
    }
}
