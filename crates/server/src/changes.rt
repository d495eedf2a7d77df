//! What the changes of a message make of a document.

ghost use Rattle.std.specs.Prelude.{◌≡◌, ◌+◌, ◌<◌, ℤ, length, map, IfOk, IfErr};
ghost use Rattle.docs.specs.Docs.{last_edit, open_document, IsCurrent};
ghost use Rattle.docs.specs.Edits.{number_of};
ghost use Rattle.rpc.specs.Messages.{change_view};
ghost use Rattle.server.specs.Losses.{loss_of};
ghost use Rattle.sessions.specs.Changes.{IsAfter};
ghost use Rattle.sessions.specs.Documents.{is_lost, Becomes};
ghost use Rattle.server.specs.Holding.{entry_view, IsEntryOf};

use crate::entry::Entry;
use docs::laws::always_answers;
use docs::{Doc, DocFault, Language, Pending};
use rpc::{Change, Loss};
use std::alloc::Global;

/// How a document is lost by a change that is refused so.
fn loss_of(fault: DocFault) -> Loss
    ensures { result ≡ loss_of fault }
{
    match fault {
        DocFault::TooLarge => Loss::TooLarge,
        DocFault::Memory => Loss::Memory,
    }
}

/// The document of this version after the changes in turn, each scanned and parsed by itself, or
/// how it is lost by the first of them that is refused.
fn apply_each(
    alloc: Global,
    language: &Language,
    mut doc: Doc,
    version: i32,
    changes: &[Change],
) -> Entry
    requires { IsCurrent language.now doc }
    ensures becomes { let changes = map change_view changes.now in
        Becomes language.now.file version (open_document doc) changes (entry_view result) }
    ensures current { IsEntryOf language.now result }
{
    for change in changes {
        match doc.change(alloc, language, change.range, change.text.as_str()) {
            Ok(next) => doc = next,
            Err(fault) => return Entry::Lost(loss_of(fault)),
        }
    }
    doc.set_version(version);
    Entry::Open(doc)
}

/// The document after these changes, of whose counts none are reported, or how it is lost by the
/// first of them that is refused. Changes that touch each other are scanned and parsed together.
fn apply_uncounted(
    alloc: Global,
    language: &Language,
    doc: Doc,
    changes: &[Change],
) -> Result<Doc, Loss>
    requires current { IsCurrent language.now doc }
    requires numbered { number_of (last_edit doc) + length changes.now < 18446744073709551615 }
    ensures after { let changes = map change_view changes.now in
        IfOk result (λ d. IsAfter language.now.file (open_document doc) changes (open_document d)) }
    ensures current { IfOk result (IsCurrent language.now) }
    ensures lost { let changes = map change_view changes.now in
        IfErr result (λ loss. (v : ℤ)
        → Becomes language.now.file v (open_document doc) changes (is_lost loss)) }
{
    always_answers(language);
    let mut pending = Pending::new(doc);
    for change in changes {
        match pending.change(alloc, language, change.range, change.text.as_str()) {
            Ok(()) => {}
            Err(fault) => return Err(loss_of(fault)),
        }
    }
    match pending.finish(alloc, language) {
        Ok(doc) => Ok(doc),
        Err(_) => Err(Loss::Memory),
    }
}

/// The document of this version after the changes in turn, or how it is lost by the first of them
/// that is refused. Counts are reported for the last change only, so the ones before it may be
/// scanned and parsed together.
pub fn apply_changes(
    alloc: Global,
    language: &Language,
    doc: Doc,
    version: i32,
    changes: &[Change],
) -> Entry
    requires { IsCurrent language.now doc }
    ensures becomes { let changes = map change_view changes.now in
        Becomes language.now.file version (open_document doc) changes (entry_view result) }
    ensures current { IsEntryOf language.now result }
{
    // Where the numbers of edits end, they share the last one, and what each makes is counted by
    // what the one before it made.
    let numbers_left = u64::MAX - doc.stats().edit;
    let count = changes.len();
    if count <= 1 || count as u64 > numbers_left {
        return apply_each(alloc, language, doc, version, changes);
    }
    let (others, last) = changes.split_at(count - 1);
    match apply_uncounted(alloc, language, doc, others) {
        Ok(doc) => apply_each(alloc, language, doc, version, last),
        Err(loss) => Entry::Lost(loss),
    }
}
