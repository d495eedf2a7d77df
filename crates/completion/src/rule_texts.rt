//! The texts that may be offered for the rules of a language.

ghost use Rattle.std.specs.Prelude.{◌≡◌, [], IfOk, MatchOption, None, false, slice_index_or, string_bytes};
ghost use Rattle.std.specs.Str.{trim};
ghost use Rattle.completion.specs.Texts.{AreTexts, IsShown, IsTextOf};

use grammar::{Grammar, Kind};
use settings::{RuleText, Settings, literal};
use std::alloc::{AllocError, Global};

/// A text that isn't blank.
fn unless_blank(found: RuleText) -> Option<RuleText>
    ensures { MatchOption result (trim (string_bytes found.text) ≡ [])
        (λ rule. IsShown (string_bytes rule.text) × (rule ≡ found)) }
{
    if found.text.trim().is_empty() {
        None
    } else {
        Some(found)
    }
}

/// The text of a rule that isn't skipped: that of the settings, or else its literal; a word in any
/// case where its literal is one.
fn text_of(
    alloc: Global,
    grammar: &Grammar,
    settings: &Settings,
    rule: usize,
) -> Result<Option<RuleText>, AllocError>
    ensures { IfOk result (IsTextOf false (slice_index_or settings.now.texts.items rule None)) }
{
    let found = match grammar.patterns().get(rule) {
        Some(pattern) => literal(alloc, pattern.expression())?,
        None => None,
    };
    let any_case = match &found {
        Some(found) => found.any_case,
        None => false,
    };
    let Some(Some(text)) = settings.texts.get(rule) else {
        return Ok(match found {
            Some(found) => unless_blank(found),
            None => None,
        });
    };
    Ok(unless_blank(RuleText {
        text: String::from_str(alloc, text)?,
        any_case,
    }))
}

/// The text of each rule of a grammar that may be offered: that of the settings, or else the one
/// that its pattern matches, if it matches one (`settings::literal`). None for a rule that is
/// skipped, and none that is blank. Refuses for memory alone.
pub fn texts(
    alloc: Global,
    grammar: &Grammar,
    settings: &Settings,
) -> Result<Vec<Option<RuleText>>, AllocError>
    ensures { IfOk result (λ texts. AreTexts grammar.now settings.now texts.items) }
{
    let mut texts = Vec::with_capacity(alloc, grammar.rules())?;
    for rule in 0..grammar.rules() {
        let text = if grammar.is_skipped(Kind::Rule(rule)) {
            None
        } else {
            text_of(alloc, grammar, settings, rule)?
        };
        texts.push(text)?;
    }
    Ok(texts)
}
