//! Texts of hovers.

use std::alloc::{AllocError, Global};

/// The form of a text that a client shows (LSP 3.17, "MarkupKind").
#[derive(Clone, Copy, Debug, PartialEq, Eq)]
pub enum Markup {
    /// Plain text.
    Plain,
    /// Markdown, in which what a document and its language say marks nothing.
    Markdown,
}

/// What marks something in Markdown, at one place or another. A backslash before it makes it the
/// character itself (CommonMark 0.31, "Backslash escapes").
const MARKS: &str = "\\`*_{}[]()<>#+-.!|~&$^=:@";

/// A text of this form, as far as it is written.
#[derive(Drop)]
pub(crate) struct Page {
    pub(crate) text: String,
    markup: Markup,
}

impl Page {
    /// An empty text.
    pub(crate) fn new(alloc: Global, markup: Markup) -> Page {
        Page {
            text: String::new(alloc),
            markup,
        }
    }

    /// Adds words that have nothing of the document or its language.
    pub(crate) fn add(&mut self, words: &str) -> Result<(), AllocError> {
        self.text.push_str(words)
    }

    /// Adds a text that marks nothing.
    pub(crate) fn say(&mut self, text: &str) -> Result<(), AllocError> {
        match self.markup {
            Markup::Plain => self.add(text),
            Markup::Markdown => push_escaped(&mut self.text, text),
        }
    }

    /// Adds a text that marks nothing, as what is important.
    pub(crate) fn say_strongly(&mut self, text: &str) -> Result<(), AllocError> {
        self.mark("**")?;
        self.say(text)?;
        self.mark("**")
    }

    /// Adds a row of a list, which marks nothing more.
    pub(crate) fn row(&mut self, text: &str) -> Result<(), AllocError> {
        self.add("\n- ")?;
        self.say(text)
    }

    /// Adds what marks something in Markdown.
    fn mark(&mut self, mark: &str) -> Result<(), AllocError> {
        match self.markup {
            Markup::Plain => Ok(()),
            Markup::Markdown => self.add(mark),
        }
    }
}

/// Adds a text in which Markdown marks nothing.
fn push_escaped(page: &mut String, text: &str) -> Result<(), AllocError> {
    for character in text.chars() {
        if MARKS.contains(character) {
            page.push('\\')?;
        }
        page.push(character)?;
    }
    Ok(())
}
