//! The edits of a text that make changes of its kinds.

use crate::copies::closes;
use crate::fixes::About;
use crate::later::gone;
use crate::scans::{is_apart, is_token};
use crate::spans::{Span, span_of_token};
use crate::steps::Step;
use definitions::Range;
use settings::RuleText;
use std::alloc::AllocError;
use wording::word;

/// How many characters before and behind an edit are looked at.
const MOST_CHARACTERS: usize = 256;

/// What a text edit puts at a range, in the document's unit of positions (LSP 3.17, "TextEdit").
#[derive(Debug, Drop)]
pub struct TextEdit {
    pub range: Range,
    pub text: String,
}

impl<'a> About<'a> {
    /// The edit that a step is; none where what it puts in has no text.
    pub(crate) fn edit(self, step: &Step) -> Result<Option<TextEdit>, AllocError> {
        let span = gone(self.doc, step);
        let before = self.before(step, span)?;
        let after = self.after(span)?;
        let is_loose = after.starts_with(char::is_whitespace);
        let Some(mut text) = self.new_text(&before, &step.put_in, is_loose)? else {
            return Ok(None);
        };
        let joined = format!(in self.alloc; "{before}{text}")?;
        if !is_apart(self.alloc, self.language, &joined, &after)? {
            text.push(' ')?;
        }
        Ok(Some(TextEdit {
            range: span.range(self.doc),
            text,
        }))
    }

    /// What stands before an edit, from the start of the last token before it on; nothing where
    /// that is long.
    fn before(self, step: &Step, span: Span) -> Result<String, AllocError> {
        let Some(number) = step.at.checked_sub(1) else {
            return Ok(String::new(self.alloc));
        };
        let last = span_of_token(self.doc, number);
        if span.start.saturating_sub(last.start) > MOST_CHARACTERS {
            return Ok(String::new(self.alloc));
        }
        Span {
            start: last.start,
            end: span.start,
        }
        .text(self.alloc, self.doc)
    }

    /// What stands behind an edit, or what that begins with.
    fn after(self, span: Span) -> Result<String, AllocError> {
        let end = span.end.saturating_add(MOST_CHARACTERS);
        Span {
            start: span.end,
            end,
        }
        .text(self.alloc, self.doc)
    }

    /// The texts of these rules, one after another; none where a rule has no text. A blank stands
    /// before each that would run together with the text before it, and where blanks stand apart
    /// what is there (`is_loose`), before each but what closes or separates.
    fn new_text(
        self,
        before: &str,
        rules: &[usize],
        is_loose: bool,
    ) -> Result<Option<String>, AllocError> {
        let mut text = String::new(self.alloc);
        for rule in rules {
            let Some(token) = self.token_text(*rule)? else {
                return Ok(None);
            };
            let joined = format!(in self.alloc; "{before}{text}")?;
            let is_apart = is_loose && !joined.is_empty() && !closes(&token);
            if is_apart || !is_token(self.alloc, self.language, &joined, &token, "", *rule)? {
                text.push(' ')?;
            }
            text.push_str(&token)?;
        }
        Ok(Some(text))
    }

    /// A text of one token of a rule: the one that is offered for it, or one that stands for any.
    fn token_text(self, rule: usize) -> Result<Option<String>, AllocError> {
        if let Some(Some(text)) = self.texts.get(rule) {
            return Ok(Some(text.text.clone()?));
        }
        let word = word(self.alloc, self.language.grammar(), self.settings, rule)?;
        let last = word.as_str().split(' ').next_back().unwrap_or("");
        for text in [
            last, "x", "X", "0", "\"\"", "''", "``", "a = 1", "$x", "#x", "@x", "\n",
        ] {
            if is_token(self.alloc, self.language, "", text, "", rule)? {
                return Ok(Some(String::from_str(self.alloc, text)?));
            }
        }
        Ok(None)
    }
}

/// Whether a rule has a text of its own.
pub(crate) fn has_text(texts: &[Option<RuleText>], rule: usize) -> bool {
    matches!(texts.get(rule), Some(Some(_)))
}
