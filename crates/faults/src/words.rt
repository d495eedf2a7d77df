//! The words of a fault.

ghost use Rattle.docs.specs.Docs.{IsCurrent};

use crate::spans::span_of_token;
use docs::{Doc, Language};
use grammar::Kind;
use parser::Verdict;
use settings::Settings;
use std::alloc::{AllocError, Global};
use wording::{Found, message, related};

/// The words of a fault.
#[derive(Debug, Drop)]
pub struct Words {
    /// The message.
    pub message: String,
    /// All that was expected, where the message doesn't name it.
    pub related: Option<String>,
}

/// The words of the fault of a document, in its language; none where it has no fault. Refuses for
/// memory alone.
pub fn words_of_fault(
    alloc: Global,
    language: &Language,
    settings: &Settings,
    doc: &Doc,
) -> Result<Option<Words>, AllocError>
    requires { IsCurrent language.now doc.now }
{
    let number = match doc.parse().verdict() {
        Verdict::Tree(_) => return Ok(None),
        Verdict::FaultAt(k) => k,
        Verdict::FaultAtEnd => doc.tokens().significant(),
    };
    let mut looks = Vec::new(alloc);
    for look in doc.parse().expected(language.tables()) {
        looks.push(look)?;
    }
    words_at(alloc, language, settings, doc, number, &looks).map(Some)
}

/// The words of a fault at the significant token of this number, or at the end, where these could
/// have stood.
pub(crate) fn words_at(
    alloc: Global,
    language: &Language,
    settings: &Settings,
    doc: &Doc,
    number: usize,
    looks: &[Option<usize>],
) -> Result<Words, AllocError> {
    let text = span_of_token(doc, number).text(alloc, doc)?;
    let found = match doc.tokens().kind(number) {
        None => Found::End,
        Some(Kind::Invalid) => Found::Invalid(&text),
        Some(Kind::Rule(rule)) => Found::Token { rule, text: &text },
    };
    let (grammar, rules) = (language.grammar(), rules_of(alloc, looks)?);
    let at_end = looks.contains(&None);
    Ok(Words {
        message: message(alloc, grammar, settings, found, &rules, at_end)?,
        related: related(alloc, grammar, settings, &rules, at_end)?,
    })
}

/// The token rules among what could have stood there.
fn rules_of(alloc: Global, looks: &[Option<usize>]) -> Result<Vec<usize>, AllocError> {
    let mut rules = Vec::new(alloc);
    for look in looks {
        if let Some(rule) = look {
            rules.push(*rule)?;
        }
    }
    Ok(rules)
}
