//! What settings a language probably wants, guessed from its grammar.

ghost use Rattle.std.specs.Prelude.{◌≡◌, All, IfOk, IsNone, length, vec_len};
ghost use Rattle.settings.specs.Settings.{AreSettings, IsColour};

use crate::expressions::{RuleText, begins_with, line_comment, literal};
use crate::kinds::{COMMENT, KEYWORD, NUMBER, OPERATOR, STRING, VARIABLE};
use crate::nodes::guess_symbols;
use crate::settings::Settings;
use definitions::Expression;
use grammar::{Grammar, Kind};
use patterns::Pattern;
use std::alloc::{AllocError, Global};

/// The settings that a language probably wants.
///
/// Refuses for memory alone.
pub fn guess(alloc: Global, grammar: &Grammar) -> Result<Settings, AllocError>
    ensures settings { IfOk result (AreSettings grammar.now) }
    ensures words { IfOk result (λ s. All IsNone s.words.items) }
    ensures texts { IfOk result (λ s. All IsNone s.texts.items) }
{
    let texts = rule_texts(alloc, grammar)?;
    let colours = colours(alloc, grammar, &texts)?;
    let symbols = guess_symbols(alloc, grammar, &texts, &colours)?;
    Ok(Settings {
        comment: comment(alloc, grammar, &colours)?,
        colours,
        words: nothing(alloc, grammar.rules())?,
        texts: nothing(alloc, grammar.rules())?,
        symbols,
    })
}

/// No text for each of so many rules.
pub fn nothing(alloc: Global, rules: usize) -> Result<Vec<Option<String>>, AllocError>
    ensures len { IfOk result (λ texts. vec_len texts ≡ rules) }
    ensures none { IfOk result (λ texts. All IsNone texts.items) }
{
    let mut texts = Vec::with_capacity(alloc, rules)?;
    for _rule in 0..rules {
        texts.push(None)?;
    }
    Ok(texts)
}

/// The patterns of the rules, one for each.
fn patterns(grammar: &Grammar) -> &[Pattern]
    ensures { length result.now ≡ length grammar.now.names }
{
    // The invariant of a grammar is what this call promises.
    let _start = grammar.start();
    grammar.patterns()
}

/// The text of each rule that has one.
fn rule_texts(alloc: Global, grammar: &Grammar) -> Result<Vec<Option<RuleText>>, AllocError>
    ensures { IfOk result (λ texts. vec_len texts ≡ length grammar.now.names) }
{
    let mut texts = Vec::with_capacity(alloc, grammar.rules())?;
    for pattern in patterns(grammar) {
        texts.push(literal(alloc, pattern.expression())?)?;
    }
    Ok(texts)
}

/// The number of the type of each rule's tokens.
fn colours(
    alloc: Global,
    grammar: &Grammar,
    texts: &[Option<RuleText>],
) -> Result<Vec<Option<u32>>, AllocError>
    ensures len { IfOk result (λ colours. vec_len colours ≡ length grammar.now.names) }
    ensures types { IfOk result (λ colours. All IsColour colours.items) }
{
    let mut colours = Vec::with_capacity(alloc, grammar.rules())?;
    for (rule, pattern) in patterns(grammar).iter().enumerate() {
        let text = texts.get(rule).and_then(Option::as_ref);
        colours.push(colour(grammar, rule, pattern.expression(), text))?;
    }
    Ok(colours)
}

/// The number of the type of a rule's tokens; `None` where they have no colour.
fn colour(
    grammar: &Grammar,
    rule: usize,
    expression: &Expression,
    text: Option<&RuleText>,
) -> Option<u32>
    ensures { IsColour result }
{
    let kind = Kind::Rule(rule);
    if grammar.is_skipped(kind) || ends_as_comment(grammar.kind_name(kind)) {
        let is_blank = begins_with(expression, &[' ', '\t', '\r', '\n', '\\']);
        return if is_blank { None } else { Some(COMMENT) };
    }
    match text {
        Some(found) if !found.text.trim().is_empty() => of_text(&found.text),
        _ => of_beginning(expression),
    }
}

/// Whether a name ends in `comment`, in any case.
fn ends_as_comment(name: &str) -> bool {
    let bytes = name.as_bytes();
    let from = bytes.len().saturating_sub(7);
    bytes[from..].eq_ignore_ascii_case(b"comment")
}

/// The number of the type of a text that isn't blank: letters are a keyword, brackets and signs
/// that separate have no colour, others are operators.
fn of_text(text: &str) -> Option<u32>
    ensures { IsColour result }
{
    if is_of_letters(text) {
        Some(KEYWORD)
    } else if is_separator(text) {
        None
    } else {
        Some(OPERATOR)
    }
}

/// Whether a text has letters and no other character besides `_`.
fn is_of_letters(text: &str) -> bool {
    text.chars().all(|c| c == '_' || c.is_alphabetic()) && text.chars().any(|c| c != '_')
}

/// Whether a text is a bracket, or a sign that separates, which have no colour.
fn is_separator(text: &str) -> bool {
    matches!(
        text,
        "(" | ")" | "[" | "]" | "{" | "}" | "," | ";" | ":" | "." | "::"
    )
}

/// The number of the type of texts by their first characters: a quote begins a string, a digit a
/// number, a letter a name.
fn of_beginning(expression: &Expression) -> Option<u32>
    ensures { IsColour result }
{
    let digits = ['0', '1', '2', '3', '4', '5', '6', '7', '8', '9'];
    if begins_with(expression, &['"', '\'', '`']) {
        Some(STRING)
    } else if begins_with(expression, &digits) && !begins_with(expression, &['q']) {
        Some(NUMBER)
    } else if begins_with(expression, &['q', 'Q']) {
        Some(VARIABLE)
    } else {
        None
    }
}

/// What begins a comment up to the end of the line: the shortest such text of a rule of comments,
/// and the first of equal lengths.
fn comment(
    alloc: Global,
    grammar: &Grammar,
    colours: &[Option<u32>],
) -> Result<Option<String>, AllocError> {
    let mut shortest = None;
    for (pattern, colour) in patterns(grammar).iter().zip(colours) {
        if *colour == Some(COMMENT) {
            let text = line_comment(alloc, pattern.expression())?;
            shortest = shorter(shortest, text);
        }
    }
    Ok(shortest)
}

/// The shorter of two texts, of which either may be missing; the first where both are as long.
fn shorter(first: Option<String>, second: Option<String>) -> Option<String> {
    match (first, second) {
        (Some(first), Some(second)) => {
            if second.len() < first.len() {
                Some(second)
            } else {
                Some(first)
            }
        }
        (Some(first), None) => Some(first),
        (None, second) => second,
    }
}
