//! A document with pending changes: its text is ahead of its tokens and of its parse, so that many
//! changes cost one scan.

ghost use Rattle.std.specs.Prelude.{◌≡◌, ◌⊎◌, ◌+◌, ◌<◌, ◌^◌, Err, true, false, IfOk, IfErr, OnOk, OnErr, MatchOption, min};
ghost use Rattle.std.specs.Str.{chars};
ghost use Rattle.definitions.specs.Text.{changed};
ghost use Rattle.docs.specs.Docs.{last_edit, IsCurrent};
ghost use Rattle.docs.specs.Settling.{with_text};
ghost use Rattle.readings.specs.Edits.{number_of};
ghost use Rattle.docs.specs.Languages.{LanguageData};
ghost use Rattle.docs.specs.Pending.{HasNone, IsApart, IsPending, IsSettledAs, Waits, joined, next_pending, pending_document, pending_number, pending_text, pending_unit, pending_version};
ghost use Rattle.readings.specs.Texts.{fits};
ghost use Rattle.docs.specs.declared.doc.DocFault.TheVariants.{Memory};

use crate::doc::{Doc, DocFault};
use crate::language::Language;
use crate::replacing::put;
use definitions::{Edit, Range};
use std::alloc::{AllocError, Global};

/// The most places that are scanned and parsed each by itself. Changes at more places than these
/// are rare, and opening the text costs less than very many of them.
const MOST_PLACES: usize = 256;

/// A document with pending changes. Changes that touch each other are scanned and parsed as one.
#[derive(Drop)]
pub struct Pending {
    doc: Doc,
    /// What the pending changes come to, with the number of the last of them.
    edit: Option<Edit>,
    /// How many edits were scanned and parsed so far.
    places: usize,
}

/// What waits, and after it a change, as one edit with the number of the change: from the smaller
/// start of both up to the greater end.
fn joined(waiting: Option<Edit>, change: Edit) -> Edit
    requires small { MatchOption waiting Unit (λ first. first.at + first.removed + first.inserted
        + (change.at + change.removed + change.inserted) < 2 ^ 63) }
    ensures { result ≡ joined waiting change }
{
    let Some(first) = waiting else {
        return change;
    };
    let at = first.at.min(change.at);
    let long = (first.at + first.inserted).max(change.at + change.removed) - at;
    Edit {
        at,
        removed: long - first.inserted + first.removed,
        inserted: long - change.removed + change.inserted,
        number: change.number,
    }
}

impl Pending {
    /// The document, with no change yet.
    pub fn new(doc: Doc) -> Pending
        ensures text { pending_text result ≡ doc.text }
        ensures unit { pending_unit result ≡ doc.unit }
        ensures version { pending_version result ≡ doc.version }
        ensures number { pending_number result ≡ number_of (last_edit doc) }
        ensures none { HasNone result }
        ensures document { pending_document result ≡ doc }
        ensures fits { fits doc.text ≡ true }
        ensures pending { (language : LanguageData)
            → IsCurrent language doc → IsPending language result }
    {
        // The reads open the invariant of the text.
        let _length = doc.text.len();
        let _bytes = doc.text.bytes();
        Pending {
            doc,
            edit: None,
            places: 0,
        }
    }

    /// The number of the last change.
    fn number(&self) -> u64
        ensures { result ≡ pending_number self.now }
    {
        match self.edit {
            Some(edit) => edit.number,
            None => self.doc.parse.number(),
        }
    }

    /// Whether a change of the characters from `from` up to `to` is scanned apart from the pending
    /// ones: it doesn't touch them.
    fn is_apart(&self, from: usize, to: usize) -> bool
        ensures { result ≡ true → IsApart self.now from to }
    {
        match self.edit {
            Some(edit) => {
                let after = from > edit.at && from - edit.at > edit.inserted;
                self.places < MOST_PLACES && (to < edit.at || after)
            }
            None => false,
        }
    }

    /// Scans and parses the text after the pending changes. Refuses for memory alone.
    fn settle(&mut self, alloc: Global, language: &Language) -> Result<(), AllocError>
        requires { IsPending language.now self.old }
        ensures text { OnOk result (pending_text self.new ≡ pending_text self.old) }
        ensures unit { OnOk result (pending_unit self.new ≡ pending_unit self.old) }
        ensures version { OnOk result (pending_version self.new ≡ pending_version self.old) }
        ensures number { OnOk result (pending_number self.new ≡ pending_number self.old) }
        ensures none { OnOk result (HasNone self.new) }
        ensures settled { OnOk result (IsSettledAs language.now self.old self.new.doc) }
        ensures pending { OnOk result (IsPending language.now self.new) }
        ensures refused { OnErr result (¬ HasNone self.old) }
    {
        let Some(edit) = self.edit else {
            return Ok(());
        };
        // The read opens the invariant of the text.
        let _length = self.doc.text.len();
        self.doc.settle(alloc, language, edit)?;
        self.edit = None;
        self.places = self.places.saturating_add(1);
        Ok(())
    }

    /// Scans and parses first where a change of these characters doesn't touch the pending ones.
    /// Refuses for memory alone.
    fn settle_apart(
        &mut self,
        alloc: Global,
        language: &Language,
        from: usize,
        to: usize,
    ) -> Result<(), AllocError>
        requires { IsPending language.now self.old }
        ensures text { OnOk result (pending_text self.new ≡ pending_text self.old) }
        ensures unit { OnOk result (pending_unit self.new ≡ pending_unit self.old) }
        ensures version { OnOk result (pending_version self.new ≡ pending_version self.old) }
        ensures number { OnOk result (pending_number self.new ≡ pending_number self.old) }
        ensures waits { let doc = with_text self.new.doc self.old.doc.text in
            let stays = (doc ≡ self.old.doc) × (self.new.edit ≡ self.old.edit) in
            let settles = IsSettledAs language.now self.old doc × HasNone self.new in
            OnOk result (stays ⊎ (IsApart self.old from to × settles)) }
        ensures pending { OnOk result (IsPending language.now self.new) }
        ensures refused { OnErr result (¬ HasNone self.old) }
    {
        if self.is_apart(from, to) {
            return self.settle(alloc, language);
        }
        Ok(())
    }

    /// Makes one change, as `Doc::change` does. Memory may be refused for the pending changes too.
    pub fn change(
        &mut self,
        alloc: Global,
        language: &Language,
        range: Option<Range>,
        new: &str,
    ) -> Result<(), DocFault>
        requires { IsPending language.now self.old }
        ensures text { let old = self.old in
            let text = changed (pending_unit old) (pending_text old) range (chars new.now) in
            OnOk result ((pending_text self.new ≡ text) × (fits text ≡ true)) }
        ensures unit { OnOk result (pending_unit self.new ≡ pending_unit self.old) }
        ensures version { OnOk result (pending_version self.new ≡ pending_version self.old) }
        ensures number { OnOk result
            (pending_number self.new ≡ min (pending_number self.old + 1) 18446744073709551615) }
        ensures waits { let change = next_pending self.old range (chars new.now) in
            OnOk result (Waits language.now self.old change self.new) }
        ensures pending { OnOk result (IsPending language.now self.new) }
        ensures too_large { let old = self.old in
            let text = changed (pending_unit old) (pending_text old) range (chars new.now) in
            result ≡ Err DocFault.TooLarge → fits text ≡ false }
        ensures memory { let old = self.old in
            let text = changed (pending_unit old) (pending_text old) range (chars new.now) in
            result ≡ Err DocFault.Memory → HasNone old → fits text ≡ true }
    {
        let (from, to) = self.doc.text.span(self.doc.unit, range);
        self.settle_apart(alloc, language, from, to)?;
        let number = self.number().saturating_add(1);
        let change = put(alloc, &mut self.doc.text, from, to, new, number)?;
        self.edit = Some(joined(self.edit, change));
        Ok(())
    }

    /// The document after the changes, scanned and parsed. Refuses for memory alone, and not where
    /// nothing is pending.
    pub fn finish(mut self, alloc: Global, language: &Language) -> Result<Doc, AllocError>
        requires { IsPending language.now self }
        ensures text { IfOk result (λ d. d.text ≡ pending_text self) }
        ensures unit { IfOk result (λ d. d.unit ≡ pending_unit self) }
        ensures version { IfOk result (λ d. d.version ≡ pending_version self) }
        ensures number { IfOk result (λ d. number_of (last_edit d) ≡ pending_number self) }
        ensures settled { IfOk result (IsSettledAs language.now self) }
        ensures current { IfOk result (IsCurrent language.now) }
        ensures refused { IfErr result (λ _. ¬ HasNone self) }
    {
        self.settle(alloc, language)?;
        Ok(self.doc)
    }
}
