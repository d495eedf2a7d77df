//! What callers rely on of messages in the texts of a language: `wording`.

ghost use Rattle.std.specs.Prelude.{◌≡◌, ◌+◌, if◌then◌else◌, IfOk, IfSome, None, codes, length, slice_index_or, string_bytes, vec_len};
ghost use Rattle.wording.specs.Texts.{BeginsWith};

use grammar::Grammar;
use settings::Settings;
use std::alloc::{AllocError, Global};
use wording::Found;

/// `Found`.
pub fn found(found: Found<'_>) -> (Option<usize>, &str) {
    match found {
        Found::End => (None, ""),
        Found::Invalid(text) => (None, text),
        Found::Token { rule, text } => (Some(rule), text),
    }
}

/// `wording::message`.
pub fn message(
    alloc: Global,
    grammar: &Grammar,
    settings: &Settings,
    found: Found<'_>,
    rules: &[usize],
    at_end: bool,
) -> Result<String, AllocError>
    ensures { IfOk result (λ message. BeginsWith (codes "unexpected ") (string_bytes message)) }
{
    wording::message(alloc, grammar, settings, found, rules, at_end)
}

/// `wording::every`.
pub fn every(
    alloc: Global,
    grammar: &Grammar,
    settings: &Settings,
    rules: &[usize],
    at_end: bool,
) -> Result<Vec<String>, AllocError>
    ensures { IfOk result (λ all. vec_len all ≡ length rules.now + (if at_end then 1 else 0)) }
{
    wording::every(alloc, grammar, settings, rules, at_end)
}

/// `wording::related`.
pub fn related(
    alloc: Global,
    grammar: &Grammar,
    settings: &Settings,
    rules: &[usize],
    at_end: bool,
) -> Result<Option<String>, AllocError>
    ensures { IfOk result (λ all.
        IfSome all (λ text. BeginsWith (codes "expected here: ") (string_bytes text))) }
{
    wording::related(alloc, grammar, settings, rules, at_end)
}

/// `wording::found_text`.
pub fn found_text(
    alloc: Global,
    grammar: &Grammar,
    settings: &Settings,
    found: Found<'_>,
) -> Result<String, AllocError> {
    wording::found_text(alloc, grammar, settings, found)
}

/// `wording::shown`.
pub fn shown(alloc: Global, text: &str) -> Result<String, AllocError> {
    wording::shown(alloc, text)
}

/// `wording::word`.
pub fn word(
    alloc: Global,
    grammar: &Grammar,
    settings: &Settings,
    rule: usize,
) -> Result<String, AllocError>
    ensures { IfOk result (λ text. IfSome (slice_index_or settings.now.words.items rule None)
        (λ called. string_bytes text ≡ string_bytes called)) }
{
    wording::word(alloc, grammar, settings, rule)
}
