//! What is shown where a pointer rests.

ghost use Rattle.std.specs.Prelude.{IfOk, IfSome};
ghost use Rattle.docs.specs.Docs.{IsCurrent};
ghost use Rattle.hover.specs.Ranges.{IsRangeAt};

use crate::chain::Chain;
use crate::markup::{Markup, Page};
use crate::spans::{Fault, Standing, fault_at, is_behind_fault, token_at};
use definitions::{Position, Range};
use docs::{Doc, Language};
use forests::{Forest, Numbers};
use grammar::{Grammar, Kind};
use mending::Mending;
use settings::{Settings, TOKEN_TYPES};
use std::alloc::{AllocError, Global};
use tables::Expected;
use wording::{Found, every, found_text, shown, word};

/// What is shown at a position (LSP 3.17, "Hover").
#[derive(Debug, Drop)]
pub struct HoverText {
    /// The text, in the form that was asked for.
    pub text: String,
    /// What it is about. Positions count the document's unit.
    pub range: Range,
}

/// What a hover is made of.
#[derive(Clone, Copy)]
struct About<'a> {
    alloc: Global,
    language: &'a Language,
    settings: &'a Settings,
    doc: &'a Doc,
    mending: Option<&'a Mending>,
    markup: Markup,
}

/// What is shown at a position of a document: at its first fault all that was expected there;
/// elsewhere the token that begins there or goes on, what it is called and the nodes around it.
/// In front of a fault these are the settled ones, and behind it those of the mended copy; a
/// token that is left out there is in none. None on blanks and line ends, and at the end of the
/// text. The settings are those of the language, and the copy is the document's.
///
/// Refuses for memory alone.
pub fn hover(
    alloc: Global,
    language: &Language,
    settings: &Settings,
    doc: &Doc,
    mending: Option<&Mending>,
    position: Position,
    markup: Markup,
) -> Result<Option<HoverText>, AllocError>
    requires { IsCurrent language.now doc.now }
    ensures { IfOk result (λ found. IfSome found
        (λ hover. IsRangeAt doc.now.unit doc.now.text position hover.range)) }
{
    let about = About {
        alloc,
        language,
        settings,
        doc,
        mending,
        markup,
    };
    let at = doc.characters().offset(doc.unit(), position);
    if let Some(fault) = fault_at(doc, at) {
        return Ok(Some(HoverText {
            text: about.fault(fault)?,
            range: fault.span.range(doc),
        }));
    }
    match token_at(doc, at) {
        Some(token) if !token.span.is_blank(doc) => Ok(Some(HoverText {
            text: about.token(token)?,
            range: token.span.range(doc),
        })),
        _ => Ok(None),
    }
}

impl<'a> About<'a> {
    /// The grammar of the language.
    fn grammar(self) -> &'a Grammar {
        self.language.grammar()
    }

    /// The text at a fault: what stands there, and a row for each alternative.
    fn fault(self, fault: Fault) -> Result<String, AllocError>
        requires { IsCurrent self.language.now self.doc.now }
    {
        let mut page = Page::new(self.alloc, self.markup);
        let found = self.found(fault)?;
        page.say_strongly(&format!(in self.alloc; "unexpected {found}")?)?;
        page.add("\n\nExpected here:")?;
        let expected = self.doc.parse().expected(self.language.tables());
        for alternative in &self.alternatives(expected)? {
            page.row(alternative)?;
        }
        Ok(page.text)
    }

    /// What stands at a fault, in words.
    fn found(self, fault: Fault) -> Result<String, AllocError> {
        let text = fault.span.text(self.alloc, self.doc)?;
        let found = match fault.kind {
            None => Found::End,
            Some(Kind::Invalid) => Found::Invalid(&text),
            Some(Kind::Rule(rule)) => Found::Token { rule, text: &text },
        };
        found_text(self.alloc, self.grammar(), self.settings, found)
    }

    /// All that was expected, in words.
    fn alternatives(self, expected: Expected<'_>) -> Result<Vec<String>, AllocError> {
        let mut rules = Vec::new(self.alloc);
        let mut at_end = false;
        for look in expected {
            match look {
                Some(rule) => rules.push(rule)?,
                None => at_end = true,
            }
        }
        every(self.alloc, self.grammar(), self.settings, &rules, at_end)
    }

    /// The text at a token.
    fn token(self, token: Standing) -> Result<String, AllocError> {
        let text = token.span.text(self.alloc, self.doc)?;
        let mut page = Page::new(self.alloc, self.markup);
        match token.kind {
            Kind::Invalid => {
                let (found, grammar) = (Found::Invalid(&text), self.grammar());
                page.say_strongly(&found_text(self.alloc, grammar, self.settings, found)?)?;
            }
            Kind::Rule(rule) => {
                let shown = shown(self.alloc, &text)?;
                page.say_strongly(&shown)?;
                self.say_role(rule, &shown, &mut page)?;
                page.add("\n\n")?;
                page.say(self.grammar().kind_name(token.kind))?;
                self.say_around(token, &mut page)?;
            }
        }
        Ok(page.text)
    }

    /// Says what tokens of a rule are called, where that isn't their text or the rule's name, and
    /// their type.
    fn say_role(self, rule: usize, shown: &str, page: &mut Page) -> Result<(), AllocError> {
        let word = word(self.alloc, self.grammar(), self.settings, rule)?;
        let mut separator = " ";
        if word.as_str() != shown && word.as_str() != self.grammar().kind_name(Kind::Rule(rule)) {
            page.add(" ")?;
            page.say(&word)?;
            separator = ", ";
        }
        if let Some(Some(colour)) = self.settings.colours.get(rule)
            && let Some(name) = TOKEN_TYPES.get(*colour as usize)
        {
            page.add(separator)?;
            page.say(name)?;
        }
        Ok(())
    }

    /// Says the nodes around a token, from inner to outer, or that it is skipped.
    fn say_around(self, token: Standing, page: &mut Page) -> Result<(), AllocError> {
        if token.is_skipped {
            return page.add(", skipped: it is in no node");
        }
        let chain = self.chain(token.place)?;
        chain.say(self.alloc, self.grammar(), page)
    }

    /// The nodes around the significant token of this number.
    fn chain(self, number: usize) -> Result<Chain, AllocError> {
        let (alloc, grammar) = (self.alloc, self.grammar());
        match self.mending {
            Some(mending) if is_behind_fault(self.doc, number) => {
                match Numbers::of(alloc, mending)?.place(number) {
                    Some(place) => Chain::around(alloc, grammar, Forest::of_copy(mending), place),
                    None => Ok(Chain::empty(alloc)),
                }
            }
            _ => Chain::around(alloc, grammar, Forest::of_document(self.doc), number),
        }
    }
}
