//! What mends faults of a document.

use crate::edits::{TextEdit, has_text};
use crate::later::{MOST_FAULTS, left_out, number_of, put_in, span_of_repair};
use crate::spans::span_of_range;
use crate::steps::{Step, steps};
use crate::words::words_at;
use definitions::Range;
use docs::{Doc, Language};
use mending::{Change, Mending, Repair};
use settings::{RuleText, Settings};
use std::alloc::{AllocError, Global};
use wording::word;

/// How many tokens a fix puts in or leaves out at most.
const MOST_CHANGES: usize = 4;

/// An edit that mends a fault (LSP 3.17, "CodeAction").
#[derive(Debug, Drop)]
pub struct Fix {
    /// What it does, in words.
    pub title: String,
    /// Whether it is the one with which most goes on.
    pub is_preferred: bool,
    /// Where the fault is, in the document's unit of positions.
    pub range: Range,
    /// The message of the fault.
    pub message: String,
    /// What it changes in the text, in the order of the text.
    pub edits: Vec<TextEdit>,
}

/// A document with its mended copy, and what its language is shown by.
#[derive(Clone, Copy)]
pub struct About<'a> {
    pub alloc: Global,
    pub language: &'a Language,
    pub settings: &'a Settings,
    /// Those of the language's rules.
    pub texts: &'a [Option<RuleText>],
    pub doc: &'a Doc,
    /// That of the document.
    pub mending: &'a Mending,
}

impl<'a> About<'a> {
    /// What mends those of the first 20 faults that touch a range, the preferred one of each fault
    /// first. Refuses for memory alone.
    pub fn fixes(self, range: Range) -> Result<Vec<Fix>, AllocError> {
        let wanted = span_of_range(self.doc, range);
        let mut fixes = Vec::new(self.alloc);
        for repair in self.mending.repairs().iter().take(MOST_FAULTS) {
            if span_of_repair(self.doc, repair).touches(wanted) {
                self.add_fixes(&mut fixes, repair)?;
            }
        }
        Ok(fixes)
    }

    /// Adds what mends a fault.
    fn add_fixes(self, fixes: &mut Vec<Fix>, repair: &Repair) -> Result<(), AllocError> {
        self.add_fix(fixes, repair, &repair.changes, true)?;
        for other in &repair.others {
            self.add_fix(fixes, repair, other, false)?;
        }
        Ok(())
    }

    /// Adds what changes from where a repair begins on mean for the text, if they are few and what
    /// they put in has a text.
    fn add_fix(
        self,
        fixes: &mut Vec<Fix>,
        repair: &Repair,
        changes: &[Change],
        is_preferred: bool,
    ) -> Result<(), AllocError> {
        if changes
            .iter()
            .filter(|change| **change != Change::Keep)
            .count()
            > MOST_CHANGES
        {
            return Ok(());
        }
        let steps = steps(self.alloc, repair.from, changes)?;
        let Some(edits) = self.edits(&steps)? else {
            return Ok(());
        };
        let number = number_of(self.doc, repair);
        let (language, settings, looks) = (self.language, self.settings, &repair.expected);
        let words = words_at(self.alloc, language, settings, self.doc, number, looks)?;
        fixes.push(Fix {
            title: self.title(&steps)?,
            is_preferred,
            range: span_of_repair(self.doc, repair).range(self.doc),
            message: words.message,
            edits,
        })?;
        Ok(())
    }

    /// The edits that these steps are; none where one is none.
    fn edits(self, steps: &[Step]) -> Result<Option<Vec<TextEdit>>, AllocError> {
        let mut edits = Vec::new(self.alloc);
        for step in steps {
            let Some(edit) = self.edit(step)? else {
                return Ok(None);
            };
            edits.push(edit)?;
        }
        Ok(Some(edits))
    }

    /// What these steps do, in words.
    fn title(self, steps: &[Step]) -> Result<String, AllocError> {
        let mut title = String::new(self.alloc);
        for step in steps {
            if !title.is_empty() {
                title.push_str(", ")?;
            }
            title.push_str(&self.said(step)?)?;
        }
        Ok(title)
    }

    /// What a step does, in words.
    fn said(self, step: &Step) -> Result<String, AllocError> {
        if let ([rule], 0) = (step.put_in.as_slice(), step.left_out)
            && !has_text(self.texts, *rule)
        {
            let word = word(self.alloc, self.language.grammar(), self.settings, *rule)?;
            return format!(in self.alloc; "{word} is missing here");
        }
        let words = put_in(self.alloc, self.language, self.settings, step)?;
        if step.left_out == 0 {
            return format!(in self.alloc; "put in {words}");
        }
        let gone = left_out(self.alloc, self.doc, step)?;
        if step.put_in.is_empty() {
            return format!(in self.alloc; "leave out {gone}");
        }
        format!(in self.alloc; "put {words} in the place of {gone}")
    }
}
