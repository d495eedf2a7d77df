//! What is known between two messages.

ghost use Rattle.std.specs.Prelude.{◌≡◌, IfSome};
ghost use Rattle.lexer.specs.Rescans.{significant_kinds};
ghost use Rattle.mending.specs.Mendings.{IsMendingOf};
ghost use Rattle.sessions.specs.Steps.{first_state};
ghost use Rattle.server.specs.States.{language_of, state_view};

use crate::kept::Kept;
use crate::shown::Shown;
use docs::{Doc, Language};
use mending::Mending;
use questions::Client;
use std::alloc::{AllocError, Global};

/// What is known between two messages of the documents, of their language, and of the editor.
#[derive(Drop)]
pub struct Known {
    /// The server of the documents, and a mended copy of one.
    pub core: Kept,
    /// What the editor is shown of their language.
    pub shown: Shown,
    /// What the editor can show.
    pub client: Client,
}

impl Known {
    /// Before the first message.
    pub fn new(alloc: Global, language: Language, shown: Shown) -> Known
        ensures core { state_view result.core ≡ first_state language.file }
        ensures shown { result.shown ≡ shown }
    {
        Known {
            core: Kept::new(alloc, language),
            shown,
            client: Client::default(),
        }
    }

    /// The mended copy of a document, if it is kept; none of a document without a fault.
    pub fn kept(&self, doc: &Doc) -> Option<&Mending>
        ensures { IfSome result (λ m. IsMendingOf (language_of self.now.core).tables
            (significant_kinds doc.now.tokens.items) m.now) }
    {
        self.core.copy(doc)
    }

    /// Keeps the mended copy of the document of this URI, if it is open and has a fault. Refuses
    /// for memory alone.
    pub fn keep_copy(&mut self, alloc: Global, uri: &str) -> Result<(), AllocError>
        ensures core { self.new.core ≡ self.old.core }
        ensures shown { self.new.shown ≡ self.old.shown }
    {
        self.core.keep_copy(alloc, &self.shown.texts, uri)
    }
}
