//! What the commands do, over the bytes of files.

ghost use Rattle.std.specs.Prelude.{◌≡◌, ℕ, ◌++◌, List, IfOk, IfErr, OnOk, string_bytes};
ghost use Rattle.std.specs.Str.{IsUtf8, chars};
ghost use Rattle.docs.specs.Outcomes.{IsOutcome};
ghost use Rattle.docs.specs.Docs.{IsCurrent};
ghost use Rattle.docs.specs.Languages.{IsLanguageOf, IsLoadFault};
ghost use Rattle.docs.specs.declared.doc.Outcome.{Outcome};
ghost use Rattle.commands.specs.Refusals.{IsRefused, Reports};
ghost use Rattle.commands.specs.Parsing.{IsParsed, Prints, fault_line, place_text};
ghost use Rattle.commands.specs.Reporting.{IsChecked, note_line};

use crate::fault::Fault;
use crate::printed::Printed;
use crate::status::{FAILURE, SUCCESS};
use definitions::{Diagnostic, Position, Unit};
use docs::{Doc, DocFault, Language, LoadFault, Outcome};
use std::alloc::{AllocError, Global};

/// What is printed of the fault of a grammar file, with status 2. Refuses for memory alone.
fn load_fault_report(alloc: Global, fault: LoadFault) -> Result<Printed, AllocError>
    requires { (text : List ℕ) × IsLoadFault text fault }
    ensures { IfOk result (Reports fault) }
{
    match fault {
        LoadFault::Grammar(fault) => Printed::fault(alloc, &Fault::Grammar(fault)),
        LoadFault::TooManyStates => Printed::fault(alloc, &Fault::TooManyStates),
        LoadFault::TooManySets => Printed::fault(alloc, &Fault::TooManySets),
        LoadFault::Conflict(grammar, conflict) => Printed::conflict(alloc, &grammar, &conflict),
        LoadFault::Memory => Err(AllocError),
    }
}

/// What is printed of an outcome: the tree of a text with status 0, or its fault with status 1.
fn outcome_report(alloc: Global, outcome: Outcome) -> Result<Printed, AllocError>
    ensures { IfOk result (λ printed. Prints outcome printed) }
{
    let (line, status) = match outcome {
        Outcome::Tree(mut text) => {
            text.push('\n')?;
            (text, SUCCESS)
        }
        Outcome::Fault(fault) => (fault_line(alloc, &fault)?, FAILURE),
    };
    Ok(Printed::text(alloc, line, status))
}

/// What is printed of an open document. Refuses for memory alone.
fn document_report(alloc: Global, language: &Language, doc: &Doc) -> Result<Printed, AllocError>
    requires { IsCurrent language.now doc.now }
    ensures { IfOk result (λ printed. (come : Outcome)
        × IsOutcome doc.now.unit language.now.file doc.now.text come × Prints come printed) }
{
    outcome_report(alloc, doc.outcome(alloc, language)?)
}

/// The language of a grammar file of these bytes, or what is printed, with status 2, where it
/// defines none: that it isn't UTF-8, the four lines that show a conflict, or else the text of its
/// first fault. Refuses for memory alone.
pub fn load(alloc: Global, bytes: &[u8]) -> Result<Result<Language, Printed>, AllocError>
    ensures utf8 { IfOk result (λ loaded. IfOk loaded (λ _. IsUtf8 bytes.now)) }
    ensures language { IfOk result (λ loaded. IfOk loaded (λ l. IsLanguageOf bytes.now l.file)) }
    ensures refused { IfOk result (λ loaded. IfErr loaded (IsRefused bytes.now)) }
{
    let Ok(text) = str::from_utf8(bytes) else {
        return Ok(Err(Printed::fault(alloc, &Fault::NotUtf8)?));
    };
    match Language::load(alloc, text) {
        Ok(language) => Ok(Ok(language)),
        Err(fault) => Ok(Err(load_fault_report(alloc, fault)?)),
    }
}

/// Writes the line of a name that no derivation from the start uses.
fn write_note(out: &mut String, name: &str) -> Result<(), AllocError>
    ensures { OnOk result
        (string_bytes out.new ≡ string_bytes out.old ++ note_line (chars name.now)) }
{
    out.push_str("note: unreachable ")?;
    out.push_str(name)?;
    out.push_str("\n")?;
    Ok(())
}

/// What `lrls check` prints of a grammar: a line for each name that no derivation from the start
/// uses, and `ok`, all of it on standard output. Refuses for memory alone.
pub fn check(alloc: Global, language: &Language) -> Result<Printed, AllocError>
    ensures { IfOk result (IsChecked language.now.file) }
{
    let mut out = String::new(alloc);
    for name in language.grammar().notes() {
        write_note(&mut out, name)?;
    }
    out.push_str("ok\n")?;
    Ok(Printed::text(alloc, out, SUCCESS))
}

/// A position, as `L:C`.
fn place_text(alloc: Global, position: Position) -> Result<String, AllocError>
    ensures { IfOk result (λ text. string_bytes text ≡ place_text position) }
{
    format!(in alloc; "{}:{}", position.line, position.character)
}

/// The line that reports a fault.
fn fault_line(alloc: Global, fault: &Diagnostic) -> Result<String, AllocError>
    ensures { IfOk result (λ line. string_bytes line ≡ fault_line fault.now) }
{
    let start = place_text(alloc, fault.range.start)?;
    let end = place_text(alloc, fault.range.end)?;
    let message = fault.message.as_str();
    format!(in alloc; "{start}-{end}: {message}\n")
}

/// What `lrls parse` prints of a text of these bytes: on standard output the text of its tree, or
/// its fault, with status 1. Positions count UTF-16 units. A text that isn't UTF-8 or has more
/// than 1,048,576 bytes is refused with status 1, which standard error says. Refuses for memory
/// alone.
pub fn parse(alloc: Global, language: &Language, bytes: &[u8]) -> Result<Printed, AllocError>
    ensures { IfOk result (IsParsed language.now.file bytes.now) }
{
    let Ok(text) = str::from_utf8(bytes) else {
        return Printed::fault(alloc, &Fault::TextNotUtf8);
    };
    match Doc::open(alloc, language, Unit::Utf16, 0, text) {
        Ok(doc) => document_report(alloc, language, &doc),
        Err(DocFault::TooLarge) => Printed::fault(alloc, &Fault::TextTooLarge),
        Err(DocFault::Memory) => Err(AllocError),
    }
}
