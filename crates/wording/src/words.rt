//! What a rule is called.

ghost use Rattle.std.specs.Prelude.{◌≡◌, IfOk, IfSome, IsTrue, None, slice_index_or, string_bytes};

use grammar::{Grammar, Kind};
use settings::{OPERATOR, RuleText, Settings, literal};
use std::alloc::{AllocError, Global};
use ucd_category::GeneralCategory;

/// What a rule is called: what the settings call it, or its text in quotes if it has one that can
/// be shown, or its name. An unknown rule has no name.
///
/// Refuses for memory alone.
pub fn word(
    alloc: Global,
    grammar: &Grammar,
    settings: &Settings,
    rule: usize,
) -> Result<String, AllocError>
    ensures { IfOk result (λ text. IfSome (slice_index_or settings.now.words.items rule None)
        (λ called. string_bytes text ≡ string_bytes called)) }
{
    if let Some(Some(word)) = settings.words.get(rule) {
        return word.clone();
    }
    match text_of(alloc, grammar, settings, rule)? {
        Some(text) if can_be_shown(&text) => {
            let quote = quote_of(&text);
            format!(in alloc; "{quote}{text}{quote}")
        }
        _ => String::from_str(alloc, grammar.kind_name(Kind::Rule(rule))),
    }
}

/// The text of a rule: its literal, or what the settings offer for it, or the word that it matches
/// in any case.
fn text_of(
    alloc: Global,
    grammar: &Grammar,
    settings: &Settings,
    rule: usize,
) -> Result<Option<String>, AllocError> {
    let own = own_text(alloc, grammar, rule)?;
    match (own, settings.texts.get(rule)) {
        (
            Some(
                RuleText {
                    text,
                    any_case: false,
                },
            ),
            _,
        ) => Ok(Some(text)),
        (_, Some(Some(offered))) => Ok(Some(offered.clone()?)),
        (
            Some(
                RuleText {
                    text,
                    any_case: true,
                },
            ),
            _,
        ) => Ok(Some(text)),
        (None, _) => Ok(None),
    }
}

/// The text that a rule's pattern says.
fn own_text(alloc: Global, grammar: &Grammar, rule: usize) -> Result<Option<RuleText>, AllocError> {
    match grammar.patterns().get(rule) {
        Some(pattern) => literal(alloc, pattern.expression()),
        None => Ok(None),
    }
}

/// Whether a rule is one of the operators, which messages name together: those that the settings
/// call nothing else.
pub fn is_operator(settings: &Settings, rule: usize) -> bool
    ensures { IsTrue result → slice_index_or settings.now.words.items rule None ≡ None }
{
    matches!(settings.colours.get(rule), Some(Some(OPERATOR)))
        && !matches!(settings.words.get(rule), Some(Some(_)))
}

/// The quote in which messages show a text: a single one where that sets it off better.
pub fn quote_of(text: &str) -> char {
    if text.contains('"') && !text.contains('\'') {
        '\''
    } else {
        '"'
    }
}

/// Whether each character of a text can be shown.
pub fn can_be_shown(text: &str) -> bool {
    text.chars().all(is_visible)
}

/// Whether a character can be shown: the space, or one whose general category is no separator and
/// none of the others (control, format, private use, unassigned).
fn is_visible(character: char) -> bool {
    character == ' '
        || !matches!(
            GeneralCategory::for_char(character),
            GeneralCategory::SpaceSeparator
                | GeneralCategory::LineSeparator
                | GeneralCategory::ParagraphSeparator
                | GeneralCategory::Control
                | GeneralCategory::Format
                | GeneralCategory::Surrogate
                | GeneralCategory::PrivateUse
                | GeneralCategory::Unassigned
        )
}
