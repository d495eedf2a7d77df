//! What a look at the files of a language finds.

use docs::Language;
use editor_replies::Value;
use shown::Shown;
use std::alloc::{AllocError, Global};

/// A notification that the program sends of its own accord.
#[derive(Debug, Drop)]
pub struct Notice {
    pub method: &'static str,
    pub params: Value,
}

/// What the files of a language have, now that they were written.
#[derive(Drop)]
pub struct Written {
    pub language: Language,
    pub shown: Shown,
}

/// What a look finds: what who edits is to be told, and the language where it is another one.
#[derive(Drop)]
pub struct Looked {
    pub notices: Vec<Notice>,
    pub written: Option<Written>,
}

/// The files of a language, which are looked at between messages.
pub trait Watch {
    /// The paths of the files, which the editor is asked to watch.
    fn paths(&self) -> &[String];

    /// What is new since the last look. Refuses for memory alone.
    fn look(&mut self, alloc: Global) -> Result<Looked, AllocError>;
}
