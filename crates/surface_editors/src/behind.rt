//! What callers rely on of `faults`.

ghost use Rattle.std.specs.Prelude.{◌≡◌, ◌≤◌, IfOk, IfSome, List, length, map};
ghost use Rattle.definitions.specs.declared.Kind.{Kind as TokenKind};
ghost use Rattle.docs.specs.Docs.{IsCurrent};
ghost use Rattle.docs.specs.Languages.{LanguageData};
ghost use Rattle.faults.specs.Places.{AreInText, ranges_behind};
ghost use Rattle.lexer.specs.Rescans.{significant_kinds};
ghost use Rattle.lexer.specs.Tokens.{plain};
ghost use Rattle.mending.specs.Mendings.{IsMendingOf};
ghost use Rattle.readings.specs.Contents.{placed_parts};

use definitions::Range;
use docs::{Doc, Language};
use faults::{About, FaultBehind, Fix, Note, TextEdit, Words};
use grammar::Grammar;
use mending::{Mending, Rank};
use settings::{RuleText, Settings};
use std::alloc::{AllocError, Global};

/// `faults::ranks`.
pub fn ranks(
    alloc: Global,
    grammar: &Grammar,
    texts: &[Option<RuleText>],
) -> Result<Vec<Rank>, AllocError>
    ensures { IfOk result (λ ranks. length ranks.items ≡ length texts.now) }
{
    faults::ranks(alloc, grammar, texts)
}

/// `faults::mended`.
pub fn mended(
    alloc: Global,
    language: &Language,
    texts: &[Option<RuleText>],
    doc: &Doc,
) -> Result<Option<Mending>, AllocError>
    requires { IsCurrent language.now doc.now }
    ensures { IfOk result (λ found. IfSome found
        (IsMendingOf language.now.tables (significant_kinds doc.now.tokens.items))) }
{
    faults::mended(alloc, language, texts, doc)
}

/// `faults::followed`.
pub fn followed(
    alloc: Global,
    language: &Language,
    texts: &[Option<RuleText>],
    doc: &Doc,
    before: Mending,
) -> Result<Mending, AllocError>
    requires current { IsCurrent language.now doc.now }
    requires copy { (kinds : List TokenKind) × IsMendingOf language.now.tables kinds before }
    ensures { IfOk result
        (IsMendingOf language.now.tables (significant_kinds doc.now.tokens.items)) }
{
    faults::followed(alloc, language, texts, doc, before)
}

/// `faults::words_of_fault`.
pub fn words_of_fault(
    alloc: Global,
    language: &Language,
    settings: &Settings,
    doc: &Doc,
) -> Result<Option<Words>, AllocError>
    requires { IsCurrent language.now doc.now }
{
    faults::words_of_fault(alloc, language, settings, doc)
}

/// `Words`.
pub fn words(words: Words) -> (String, Option<String>) {
    let Words { message, related } = words;
    (message, related)
}

/// `faults::behind`.
pub fn behind(
    alloc: Global,
    language: &Language,
    settings: &Settings,
    doc: &Doc,
    mending: &Mending,
) -> Result<Vec<FaultBehind>, AllocError>
    ensures ranges { (language : LanguageData) → IsCurrent language doc.now →
        let tokens = placed_parts language.file (map plain doc.now.tokens.items) in
        IfOk result (λ faults. map (λ fault. fault.range) faults.items
        ≡ ranges_behind doc.now.unit doc.now.text tokens mending.now.repairs.items) }
    ensures places { IfOk result (λ faults. AreInText doc.now.unit doc.now.text faults.items) }
    ensures few { IfOk result (λ faults. length faults.items ≤ 19) }
{
    faults::behind(alloc, language, settings, doc, mending)
}

/// `FaultBehind`, and `Note`.
pub fn fault_behind(fault: FaultBehind) -> (Range, String, Option<String>, Range, String) {
    let FaultBehind {
        range,
        message,
        related,
        condition,
    } = fault;
    let Note { range: place, text } = condition;
    (range, message, related, place, text)
}

/// `About`, and `About::fixes`.
pub fn fixes<'a>(
    alloc: Global,
    language: &'a Language,
    settings: &'a Settings,
    texts: &'a [Option<RuleText>],
    doc: &'a Doc,
    mending: &'a Mending,
    range: Range,
) -> Result<Vec<Fix>, AllocError> {
    let about = About {
        alloc,
        language,
        settings,
        texts,
        doc,
        mending,
    };
    about.fixes(range)
}

/// `Fix`.
pub fn fix(fix: Fix) -> (String, bool, Range, String, Vec<TextEdit>) {
    let Fix {
        title,
        is_preferred,
        range,
        message,
        edits,
    } = fix;
    (title, is_preferred, range, message, edits)
}

/// `TextEdit`.
pub fn text_edit(edit: TextEdit) -> (Range, String) {
    let TextEdit { range, text } = edit;
    (range, text)
}
