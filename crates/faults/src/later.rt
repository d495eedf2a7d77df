//! The faults behind the first one.

ghost use Rattle.std.specs.Prelude.{◌≡◌, ◌≤◌, IfOk, count_by, length, map, min};
ghost use Rattle.definitions.specs.Answers.{range_of};
ghost use Rattle.docs.specs.Docs.{IsCurrent};
ghost use Rattle.docs.specs.Languages.{LanguageData};
ghost use Rattle.lexer.specs.Tokens.{is_significant, plain};
ghost use Rattle.readings.specs.Contents.{placed_parts};
ghost use Rattle.faults.specs.Places.{AreInText, IsInText, fault_number, ranges_behind, span_of_fault};

use crate::spans::{Span, span_of_token};
use crate::steps::{Step, steps};
use crate::words::{Words, words_at};
use definitions::{Position, Range};
use docs::{Doc, Language};
use mending::{Mending, Repair};
use settings::Settings;
use std::alloc::{AllocError, Global};
use wording::{shown, word};

/// How many faults of a document are told.
pub(crate) const MOST_FAULTS: usize = 20;

/// Something that is said of a place.
#[derive(Debug, Drop)]
pub struct Note {
    /// The place, in the document's unit of positions.
    pub range: Range,
    pub text: String,
}

/// A fault behind the first one.
#[derive(Debug, Drop)]
pub struct FaultBehind {
    /// Where it is, in the document's unit of positions.
    pub range: Range,
    /// The message, in the words of the language.
    pub message: String,
    /// All that was expected, where the message doesn't name it.
    pub related: Option<String>,
    /// How the fault before it is mended, so that this is one.
    pub condition: Note,
}

/// The faults behind the first one of a document, in the order of the text, at most 19: one for
/// each repair of `mending` but the first, at the significant token of its number. `mending` is
/// that of the document, and the settings are those of the language.
///
/// Refuses for memory alone.
pub fn behind(
    alloc: Global,
    language: &Language,
    settings: &Settings,
    doc: &Doc,
    mending: &Mending,
) -> Result<Vec<FaultBehind>, AllocError>
    ensures ranges { (language : LanguageData) → IsCurrent language doc.now →
        let tokens = placed_parts language.file (map plain doc.now.tokens.items) in
        IfOk result (λ faults. map (λ fault. fault.range) faults.items
        ≡ ranges_behind doc.now.unit doc.now.text tokens mending.now.repairs.items) }
    ensures places { IfOk result (λ faults. AreInText doc.now.unit doc.now.text faults.items) }
    ensures few { IfOk result (λ faults. length faults.items ≤ 19) }
{
    match mending.repairs().split_first() {
        Some((first, later)) => {
            let told = later.len().min(MOST_FAULTS - 1);
            faults_of(alloc, language, settings, doc, first, &later[..told])
        }
        None => Ok(Vec::new(alloc)),
    }
}

/// The faults of these repairs, of which the first is made behind `first`.
fn faults_of(
    alloc: Global,
    language: &Language,
    settings: &Settings,
    doc: &Doc,
    first: &Repair,
    later: &[Repair],
) -> Result<Vec<FaultBehind>, AllocError>
    ensures ranges { (language : LanguageData) → IsCurrent language doc.now →
        let tokens = placed_parts language.file (map plain doc.now.tokens.items) in
        let span = span_of_fault doc.now.text tokens in
        IfOk result (λ faults. map (λ fault. fault.range) faults.items
        ≡ map (λ r. range_of doc.now.unit doc.now.text (span r)) later.now) }
    ensures places { IfOk result (λ faults. AreInText doc.now.unit doc.now.text faults.items) }
    ensures count { IfOk result (λ faults. length faults.items ≡ length later.now) }
{
    let mut faults = Vec::new(alloc);
    let mut before = first;
    for repair in later {
        faults.push(fault_behind(alloc, language, settings, doc, before, repair)?)?;
        before = repair;
    }
    Ok(faults)
}

/// The number of the significant token at which a repair's fault is, or that of the end.
pub(crate) fn number_of(doc: &Doc, repair: &Repair) -> usize
    ensures { let all = count_by is_significant doc.now.tokens.items in
        result ≡ min (fault_number repair.now) all }
{
    let passed = repair.fault.saturating_sub(repair.at);
    let number = repair.from.saturating_add(passed);
    number.min(doc.tokens().significant())
}

/// The significant token at which a repair's fault is, or the end of the text.
pub(crate) fn span_of_repair(doc: &Doc, repair: &Repair) -> Span
    ensures ordered { result.start ≤ result.end }
    ensures within { result.end ≤ length doc.now.text }
    ensures is { (language : LanguageData) → IsCurrent language doc.now →
        let tokens = placed_parts language.file (map plain doc.now.tokens.items) in
        (result.start, result.end) ≡ span_of_fault doc.now.text tokens repair.now }
{
    span_of_token(doc, number_of(doc, repair))
}

/// The fault of a repair, which is one where the repair before it is made.
fn fault_behind(
    alloc: Global,
    language: &Language,
    settings: &Settings,
    doc: &Doc,
    before: &Repair,
    repair: &Repair,
) -> Result<FaultBehind, AllocError>
    ensures range { (language : LanguageData) → IsCurrent language doc.now →
        let tokens = placed_parts language.file (map plain doc.now.tokens.items) in
        let span = span_of_fault doc.now.text tokens repair.now in
        IfOk result (λ fault. fault.range ≡ range_of doc.now.unit doc.now.text span) }
    ensures places { IfOk result (λ fault. IsInText doc.now.unit doc.now.text fault.range
        × IsInText doc.now.unit doc.now.text fault.condition.range) }
{
    let Words { message, related } = words_at(
        alloc,
        language,
        settings,
        doc,
        number_of(doc, repair),
        &repair.expected,
    )?;
    Ok(FaultBehind {
        range: span_of_repair(doc, repair).range(doc),
        message,
        related,
        condition: condition(alloc, language, settings, doc, before)?,
    })
}

/// How a fault is mended, as a condition of the next one.
fn condition(
    alloc: Global,
    language: &Language,
    settings: &Settings,
    doc: &Doc,
    repair: &Repair,
) -> Result<Note, AllocError>
    ensures { IfOk result (λ note. IsInText doc.now.unit doc.now.text note.range) }
{
    let steps = steps(alloc, repair.from, &repair.changes)?;
    let range = place_of(doc, repair, &steps).range(doc);
    let Position { line, character } = range.start;
    let (line, column) = (line.saturating_add(1), character.saturating_add(1));
    let mut text = String::from_str(alloc, "if ")?;
    let mut separator = "";
    for step in &steps {
        let clause = clause(alloc, language, settings, doc, step)?;
        text.push_str(separator)?;
        text.push_str(&clause)?;
        separator = " and ";
    }
    text.push_str(&format!(in alloc; " at {line}:{column}")?)?;
    Ok(Note { range, text })
}

/// Where the first of the steps that make a repair is done.
fn place_of(doc: &Doc, repair: &Repair, steps: &[Step]) -> Span
    ensures ordered { result.start ≤ result.end }
    ensures within { result.end ≤ length doc.now.text }
{
    match steps.first() {
        Some(step) => gone(doc, step),
        None => span_of_repair(doc, repair),
    }
}

/// What a step does, as a clause.
fn clause(
    alloc: Global,
    language: &Language,
    settings: &Settings,
    doc: &Doc,
    step: &Step,
) -> Result<String, AllocError> {
    let words = put_in(alloc, language, settings, step)?;
    let verb = if step.put_in.len() > 1 { "are" } else { "is" };
    if step.left_out == 0 {
        return format!(in alloc; "{words} {verb} put in");
    }
    let gone = left_out(alloc, doc, step)?;
    if step.put_in.is_empty() {
        return format!(in alloc; "{gone} is left out");
    }
    format!(in alloc; "{words} {verb} put in the place of {gone}")
}

/// What a step puts in, in words.
pub(crate) fn put_in(
    alloc: Global,
    language: &Language,
    settings: &Settings,
    step: &Step,
) -> Result<String, AllocError> {
    let mut text = String::new(alloc);
    for (number, rule) in step.put_in.iter().enumerate() {
        if number > 0 {
            text.push_str(if number + 1 < step.put_in.len() {
                ", "
            } else {
                " and "
            })?;
        }
        text.push_str(&word(alloc, language.grammar(), settings, *rule)?)?;
    }
    Ok(text)
}

/// What a step leaves out: its text, of which the first line and 30 characters are shown.
pub(crate) fn left_out(alloc: Global, doc: &Doc, step: &Step) -> Result<String, AllocError> {
    shown(alloc, &gone(doc, step).text(alloc, doc)?)
}

/// Where what a step leaves out stands; nothing, behind the token before it, where it only puts
/// something in.
pub(crate) fn gone(doc: &Doc, step: &Step) -> Span
    ensures ordered { result.start ≤ result.end }
    ensures within { result.end ≤ length doc.now.text }
{
    let first = span_of_token(doc, step.at);
    match (step.left_out, step.at.checked_sub(1)) {
        (0, Some(before)) => {
            let end = span_of_token(doc, before).end;
            Span { start: end, end }
        }
        (0, None) => Span {
            start: first.start,
            end: first.start,
        },
        (count, _) => {
            let last = step.at.saturating_add(count).saturating_sub(1);
            first.up_to(span_of_token(doc, last))
        }
    }
}
