//! A document that is open: its version and text, with the tokens of the text and their parse.

ghost use Rattle.std.specs.Prelude.{◌≡◌, ◌↔◌, Option, Err, None, Some, true, false, string_bytes, encode_utf8_all, length, map, option_map, IfOk, OnOk};
ghost use Rattle.std.specs.Str.{chars};
ghost use Rattle.definitions.specs.Answers.{Diagnostic as Fault};
ghost use Rattle.definitions.specs.Text.{changed, offset};
ghost use Rattle.definitions.specs.Tokens.{AreTokens};
ghost use Rattle.lexer.specs.Rescans.{significant_kinds};
ghost use Rattle.lexer.specs.Tokens.{plain};
ghost use Rattle.parser.specs.Parses.{IsParseOf};
ghost use Rattle.parser.specs.declared.parse.Verdict.TheVariants as Verdict;
ghost use Rattle.trees.specs.declared.store.NodeId.{NodeId};
ghost use Rattle.readings.specs.Contents.{AreFoldsOf, IsSelectionOf};
ghost use Rattle.views.specs.Roots.{trees_of_roots};
ghost use Rattle.views.specs.Views.{shared_bytes};
ghost use Rattle.readings.specs.Diagnostics.{IsDiagnosis};
ghost use Rattle.readings.specs.Answers.{AreSelections, IsReported, Reads, rows, written_tree};
ghost use Rattle.docs.specs.Changes.{IsChanged};
ghost use Rattle.docs.specs.Docs.{last_edit, open_document, IsCurrent};
ghost use Rattle.docs.specs.Settling.{IsAhead, IsSettled};
ghost use Rattle.readings.specs.Edits.{AreStats};
ghost use Rattle.docs.specs.Languages.{LanguageData};
ghost use Rattle.docs.specs.Outcomes.{IsOutcome};
ghost use Rattle.readings.specs.Texts.{fits};
ghost use Rattle.docs.specs.declared.doc.DocFault.TheVariants.{Memory};
ghost use Rattle.docs.specs.Faults.{doc_fault};

use crate::language::Language;
use crate::replacing::put;
use crate::significant::Significant;
use definitions::{Diagnostic, Edit, Position, Range, Row, Stats, Unit};
use lexer::Tokens;
use parser::laws::stack_has_the_nodes_of_the_document;
use parser::{Parse, Verdict};
use std::alloc::{AllocError, Global};
use text::{Text, TextFault};
use thiserror::Error;
use trees::Store;
use views::{diagnostic, folds, selection, shared_rows, tree_text};

/// Why a document was not opened, or is lost by a change.
#[derive(Clone, Copy, Debug, PartialEq, Eq, Error)]
pub enum DocFault {
    /// Its text would have more than 1,048,576 bytes in UTF-8.
    #[error("the text would have more than 1,048,576 bytes in UTF-8")]
    TooLarge,
    /// Memory was refused.
    #[error("memory was refused")]
    Memory,
}

impl From<AllocError> for DocFault {
    ghost from_gives = { λ _ e. e ≡ Memory };

    fn from(_: AllocError) -> DocFault {
        DocFault::Memory
    }
}

impl From<TextFault> for DocFault {
    ghost from_gives = { λ fault e. e ≡ doc_fault fault };

    fn from(fault: TextFault) -> DocFault {
        match fault {
            TextFault::TooLarge => DocFault::TooLarge,
            TextFault::Memory => DocFault::Memory,
        }
    }
}

/// What a text comes to.
#[derive(Debug, Drop)]
pub enum Outcome {
    /// The text of its tree.
    Tree(String),
    /// Its fault, where it has no tree.
    Fault(Diagnostic),
}

/// A document of a language. Its positions count one unit. The tokens are those of the text, and
/// the parse is that of the tokens.
///
/// A language that is handed in is always the one by which the document was opened.
#[derive(Drop)]
pub struct Doc {
    pub(crate) unit: Unit,
    version: i32,
    pub(crate) text: Text,
    pub(crate) tokens: Tokens,
    /// The nodes of the parse.
    pub(crate) store: Store,
    pub(crate) parse: Parse,
}

impl Doc {
    /// A document of this text, whose positions count this unit. `TooLarge` exactly where the text
    /// has more than 1,048,576 bytes in UTF-8.
    pub fn open(
        alloc: Global,
        language: &Language,
        unit: Unit,
        version: i32,
        text: &str,
    ) -> Result<Doc, DocFault>
        ensures is { IfOk result (λ d.
            open_document d
            ≡ record { unit = unit; version = version; text = chars text.now; last = None }) }
        ensures fits { IfOk result (λ _. fits (chars text.now) ≡ true) }
        ensures current { IfOk result (IsCurrent language.now) }
        ensures too_large { (result ≡ Err DocFault.TooLarge) ↔ (fits (chars text.now) ≡ false) }
    {
        let made = Text::open(alloc, text)?;
        // The read opens what a language says of its tables.
        let _tables = language.tables();
        let tokens = language.scan(alloc, &made, text)?;
        // With this room a store of few nodes for each token doesn't grow, and isn't copied, while
        // it is filled. A sum has one node more than tokens.
        let mut store = Store::with_capacity(alloc, tokens.significant().saturating_add(1))?;
        let kinds = Significant(&tokens);
        let parse = Parse::whole(alloc, language.tables(), &mut store, &kinds)?;
        Ok(Doc {
            unit,
            version,
            text: made,
            tokens,
            store,
            parse,
        })
    }

    /// The document after a change (LSP 3.17, "TextDocumentContentChangeEvent"): `new` stands in
    /// the place of the range, or of the whole text where there is none. The ends of a range may
    /// stand in either order. The change is the edit after the last one: tokens and nodes that it
    /// keeps have the stamps that they had, all others its number. `TooLarge` exactly where the
    /// text would have more than 1,048,576 bytes in UTF-8. Where it is refused, the document is
    /// lost.
    pub fn change(
        mut self,
        alloc: Global,
        language: &Language,
        range: Option<Range>,
        new: &str,
    ) -> Result<Doc, DocFault>
        requires { IsCurrent language.now self }
        ensures changed { IfOk result (IsChanged language.now range (chars new.now) self) }
        ensures too_large { let text = changed self.unit self.text range (chars new.now) in
            (result ≡ Err DocFault.TooLarge) ↔ (fits text ≡ false) }
    {
        let (from, to) = self.text.span(self.unit, range);
        let number = self.parse.number().saturating_add(1);
        let edit = put(alloc, &mut self.text, from, to, new, number)?;
        self.settle(alloc, language, edit)?;
        Ok(self)
    }

    /// Scans and parses the text after an edit that it has already. Refuses for memory alone: then
    /// text, tokens and parse don't agree, and the document is lost.
    pub(crate) fn settle(
        &mut self,
        alloc: Global,
        language: &Language,
        edit: Edit,
    ) -> Result<(), AllocError>
        requires { IsAhead language.now edit self.old }
        ensures same { OnOk result ((self.new.unit ≡ self.old.unit)
            × (self.new.version ≡ self.old.version) × (self.new.text ≡ self.old.text)) }
        ensures settled { OnOk result (IsSettled language.now edit self.old self.new) }
    {
        let splice = language.rescan(alloc, &mut self.tokens, &self.text, edit)?;
        let kinds = Significant(&self.tokens);
        let (tables, store) = (language.tables(), &mut self.store);
        self.parse
            .change(alloc, tables, store, &kinds, splice, edit.number)?;
        Ok(())
    }

    /// The version that the document has.
    pub fn version(&self) -> i32
        ensures { result ≡ self.now.version }
    {
        self.version
    }

    /// Gives the document another version.
    pub fn set_version(&mut self, version: i32)
        ensures is { let last = last_edit self.old in
            let unit = self.old.unit in
            open_document self.new
            ≡ record { unit = unit; version = version; text = self.old.text; last = last } }
        ensures current { (language : LanguageData)
            → IsCurrent language self.old → IsCurrent language self.new }
    {
        self.version = version;
    }

    /// The unit that the document's positions count.
    pub fn unit(&self) -> Unit
        ensures { result ≡ self.now.unit }
    {
        self.unit
    }

    /// The text itself, lent.
    pub fn characters(&self) -> &Text
        ensures { result.now ≡ self.now.text }
    {
        &self.text
    }

    /// The tokens of the text, lent: those of the definitions.
    pub fn tokens(&self) -> &Tokens
        ensures is { result.now ≡ self.now.tokens }
        ensures tokens { (language : LanguageData) → IsCurrent language self.now
            → AreTokens language.file.patterns self.now.text (map plain result.now.items) }
    {
        &self.tokens
    }

    /// The parse of the tokens, lent: that of their kinds by the tables of the language.
    pub fn parse(&self) -> &Parse
        ensures is { result.now ≡ self.now.parse }
        ensures parse { (language : LanguageData) → IsCurrent language self.now
            → IsParseOf language.tables (significant_kinds self.now.tokens.items) self.now.store
            result.now }
    {
        &self.parse
    }

    /// The store that has the nodes of the parse, lent.
    pub fn nodes(&self) -> &Store
        ensures { result.now ≡ self.now.store }
    {
        &self.store
    }

    /// The text in UTF-8. Refuses for memory alone.
    pub fn text(&self, alloc: Global) -> Result<String, AllocError>
        ensures { IfOk result (λ text. string_bytes text ≡ encode_utf8_all self.now.text) }
    {
        self.text.to_string(alloc)
    }

    /// The names and ranges of the tokens, where the tokens of a rule share its name. Refuses for
    /// memory alone.
    pub fn rows(&self, alloc: Global, language: &Language) -> Result<Vec<Row>, AllocError>
        requires { IsCurrent language.now self.now }
        ensures { let file = language.now.file in let text = self.now.text in
            IfOk result (λ reported. Reads file text (λ reading.
            map shared_bytes reported.items ≡ rows self.now.unit file text reading.tokens)) }
    {
        let grammar = language.grammar();
        shared_rows(alloc, grammar, self.unit, &self.text, &self.tokens)
    }

    /// The text of the tree, where there is one. Refuses for memory alone.
    pub fn tree(&self, alloc: Global, language: &Language) -> Result<Option<String>, AllocError>
        requires { IsCurrent language.now self.now }
        ensures { let file = language.now.file in
            IfOk result (λ reported. Reads file self.now.text (λ reading.
            option_map string_bytes reported ≡ written_tree file reading.verdict)) }
    {
        match self.parse.verdict() {
            Verdict::Tree(root) => {
                let text = tree_text(alloc, language.grammar(), &self.store, root)?;
                Ok(Some(text))
            }
            Verdict::FaultAt(_) | Verdict::FaultAtEnd => Ok(None),
        }
    }

    /// The fault of the text, where it has one: the first token with which no sentence goes on, or
    /// the end. Refuses for memory alone.
    pub fn diagnostic(
        &self,
        alloc: Global,
        language: &Language,
    ) -> Result<Option<Diagnostic>, AllocError>
        requires { IsCurrent language.now self.now }
        ensures reported { let file = language.now.file in
            let text = self.now.text in
            IfOk result (λ reported. Reads file text (λ reading. (fault : Option Fault)
            × IsDiagnosis self.now.unit file text reading.tokens reading.verdict fault
            × IsReported reported fault)) }
        ensures tree { IfOk result (λ reported.
            reported ≡ None → (root : NodeId) × (self.now.parse.verdict ≡ Verdict.Tree root)) }
    {
        diagnostic(
            alloc,
            language.grammar(),
            language.tables(),
            self.unit,
            &self.text,
            &self.tokens,
            &self.parse,
        )
    }

    /// The text of the tree, or where there is none, the fault. Refuses for memory alone.
    pub fn outcome(&self, alloc: Global, language: &Language) -> Result<Outcome, AllocError>
        requires { IsCurrent language.now self.now }
        ensures { IfOk result (IsOutcome self.now.unit language.now.file self.now.text) }
    {
        if let Some(fault) = self.diagnostic(alloc, language)? {
            return Ok(Outcome::Fault(fault));
        }
        let Verdict::Tree(root) = self.parse.verdict() else {
            unreachable!();
        };
        let text = tree_text(alloc, language.grammar(), &self.store, root)?;
        Ok(Outcome::Tree(text))
    }

    /// The first and last lines of what can be folded, in ascending order. Refuses for memory
    /// alone.
    pub fn folds(&self, alloc: Global, language: &Language) -> Result<Vec<(u32, u32)>, AllocError>
        requires { IsCurrent language.now self.now }
        ensures { let file = language.now.file in
            IfOk result (λ pairs. Reads file self.now.text (λ reading.
            AreFoldsOf file self.now.text reading.tokens reading.trees pairs.items)) }
    {
        stack_has_the_nodes_of_the_document();
        folds(
            alloc,
            language.grammar(),
            &self.text,
            &self.tokens,
            &self.store,
            self.parse.stack(),
        )
    }

    /// How much there is of the document, and how much its last edit has made.
    pub fn stats(&self) -> Stats
        ensures is { (language : LanguageData) → IsCurrent language self.now
            → AreStats language.file (open_document self.now) result }
        ensures nodes { result.nodes ≡ length self.now.store }
    {
        let (branches, built) = self.parse.counts();
        Stats {
            edit: self.parse.number(),
            scanned: self.tokens.scanned() as u64,
            tokens: self.tokens.count() as u64,
            branches: branches as u64,
            built: built as u64,
            nodes: self.store.len() as u64,
        }
    }

    /// What can be selected around each of these positions, from inner to outer. Refuses for
    /// memory alone.
    pub fn selections(
        &self,
        alloc: Global,
        positions: &[Position],
    ) -> Result<Vec<Vec<Range>>, AllocError>
        requires { (language : LanguageData) × IsCurrent language self.now }
        ensures { let text = self.now.text in
            (language : LanguageData) → IsCurrent language self.now
            → IfOk result (λ found. Reads language.file text (λ reading.
            let ranges = map (λ ranges. ranges.items) found.items in
            AreSelections self.now.unit language.file text reading positions.now ranges)) }
    {
        stack_has_the_nodes_of_the_document();
        let mut selections = Vec::with_capacity(alloc, positions.len())?;
        for position in positions {
            selections.push(self.selection(alloc, *position)?)?;
        }
        Ok(selections)
    }

    /// What can be selected around a position, from inner to outer.
    fn selection(&self, alloc: Global, position: Position) -> Result<Vec<Range>, AllocError>
        requires { (language : LanguageData) × IsCurrent language self.now }
        ensures { let text = self.now.text in
            let tokens = map plain self.now.tokens.items in
            let trees = trees_of_roots self.now.store self.now.parse.stack in
            let at = offset self.now.unit text position in
            (language : LanguageData) → IsCurrent language self.now
            → IfOk result (λ ranges.
            IsSelectionOf self.now.unit language.file text tokens trees at ranges.items) }
    {
        stack_has_the_nodes_of_the_document();
        selection(
            alloc,
            self.unit,
            &self.text,
            &self.tokens,
            &self.store,
            self.parse.stack(),
            self.text.offset(self.unit, position),
        )
    }
}
