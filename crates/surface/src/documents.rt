//! Documents: `docs`.

ghost use Rattle.std.specs.Prelude.{IfOk, IfErr, ◌≡◌, ◌↔◌, Err, None, true, false, string_bytes, encode_utf8_all, length, Option, map, option_map, ◌+◌, OnOk, OnErr, All, min, IsTrue};
ghost use Rattle.docs.specs.Languages.{IsLanguageOf, IsLoadFault, LanguageData};
ghost use Rattle.std.specs.Str.{chars};
ghost use Rattle.docs.specs.Docs.{open_document, IsCurrent, last_edit};
ghost use Rattle.readings.specs.Texts.{fits};
ghost use Rattle.definitions.specs.Text.{changed};
ghost use Rattle.definitions.specs.TokenEdits.{plain_splice};
ghost use Rattle.grammar.specs.Grammars.{lexicon_of};
ghost use Rattle.lexer.specs.Rescans.{AreTokensAfter, IsEdited};
ghost use Rattle.lexer.specs.Tokens.{AreTokensOf};
ghost use Rattle.docs.specs.Changes.{IsChanged};
ghost use Rattle.readings.specs.Edits.{AreStats, number_of, AlwaysCounts, CountsOnce};
ghost use Rattle.definitions.specs.Answers.{Diagnostic as Fault};
ghost use Rattle.parser.specs.declared.parse.Verdict.TheVariants as Verdict;
ghost use Rattle.trees.specs.declared.store.NodeId.{NodeId};
ghost use Rattle.readings.specs.Diagnostics.{IsDiagnosis};
ghost use Rattle.readings.specs.Answers.{IsReported, Reads, rows, written_tree, AreSelections, AlwaysAnswers, AnswersOnce};
ghost use Rattle.readings.specs.Contents.{AreFoldsOf};
ghost use Rattle.views.specs.Views.{shared_bytes};
ghost use Rattle.docs.specs.Outcomes.{IsOutcome};
ghost use Rattle.docs.specs.Pending.{HasNone, IsPending, pending_document, pending_number, pending_text, pending_unit, pending_version, Waits, next_pending, IsSettledAs};
ghost use Rattle.docs.specs.declared.doc.DocFault.TheVariants.{Memory};
ghost use Rattle.docs.specs.declared.doc.DocFault.{DocFault as DocumentFault};

use docs::{
    Diagnostic, Doc, DocFault, Language, LoadFault, Outcome, Pending, Position, Range, Stats, Unit,
};
use grammar::{Grammar, GrammarFault};
use lexer::{Edit, KindSplice, Tokens};
use std::alloc::{AllocError, Global};
use std::rc::Rc;
use tables::Conflict;
use text::Text;
use trees::Store;

/// `docs::Row`.
pub fn sent_row(row: docs::Row) -> (Rc<String>, Range) {
    let docs::Row { name, range } = row;
    (name, range)
}

/// `Language::load`.
pub fn load(alloc: Global, text: &str) -> Result<Language, LoadFault>
    ensures language { IfOk result (λ l. IsLanguageOf text.now l.file) }
    ensures fault { IfErr result (IsLoadFault text.now) }
{
    Language::load(alloc, text)
}

/// `Language::grammar`.
pub fn grammar(language: &Language) -> &Grammar
    ensures { result.now ≡ language.now.file }
{
    language.grammar()
}

/// `Language::scan`.
pub fn scan(
    language: &Language,
    alloc: Global,
    text: &Text,
    utf8: &str,
) -> Result<Tokens, AllocError>
    requires { text.now ≡ chars utf8.now }
    ensures tokens { IfOk result
        (λ r. AreTokensOf (lexicon_of language.now.file) text.now r.items) }
    ensures born { IfOk result (λ r. All (λ x. x.born ≡ 0) r.items) }
    ensures scanned { IfOk result (λ r. r.scanned ≡ length r.items) }
{
    language.scan(alloc, text, utf8)
}

/// `Language::rescan`.
pub fn rescan(
    language: &Language,
    alloc: Global,
    tokens: &mut Tokens,
    text: &Text,
    edit: Edit,
) -> Result<KindSplice, AllocError>
    requires { IsEdited (lexicon_of language.now.file) edit tokens.old.items text.now }
    ensures after { IfOk result (λ s. AreTokensAfter (lexicon_of language.now.file) edit text.now
        (plain_splice s) tokens.old tokens.new) }
    ensures err { OnErr result (tokens.new ≡ tokens.old) }
{
    language.rescan(alloc, tokens, text, edit)
}

/// `LoadFault`: the fault of the grammar file, or the conflict with the grammar that has it.
pub fn load_fault(fault: LoadFault) -> Option<Result<(Grammar, Conflict), GrammarFault>> {
    match fault {
        LoadFault::Grammar(fault) => Some(Err(fault)),
        LoadFault::Conflict(grammar, conflict) => Some(Ok((grammar, conflict))),
        LoadFault::TooManyStates | LoadFault::TooManySets | LoadFault::Memory => None,
    }
}

/// `Doc::open`.
pub fn open(
    alloc: Global,
    language: &Language,
    unit: Unit,
    version: i32,
    text: &str,
) -> Result<Doc, DocFault>
    ensures is { IfOk result (λ d.
        open_document d
        ≡ record { unit = unit; version = version; text = chars text.now; last = None }) }
    ensures fits { IfOk result (λ _. fits (chars text.now) ≡ true) }
    ensures current { IfOk result (IsCurrent language.now) }
    ensures too_large { (result ≡ Err DocFault.TooLarge) ↔ (fits (chars text.now) ≡ false) }
{
    Doc::open(alloc, language, unit, version, text)
}

/// `DocFault`.
pub fn doc_fault(fault: DocFault) -> u8 {
    match fault {
        DocFault::TooLarge => 1,
        DocFault::Memory => 2,
    }
}

/// `Doc::change`.
pub fn change(
    doc: Doc,
    alloc: Global,
    language: &Language,
    range: Option<Range>,
    new: &str,
) -> Result<Doc, DocFault>
    requires { IsCurrent language.now doc }
    ensures changed { IfOk result (IsChanged language.now range (chars new.now) doc) }
    ensures too_large { let text = changed doc.unit doc.text range (chars new.now) in
        (result ≡ Err DocFault.TooLarge) ↔ (fits text ≡ false) }
{
    doc.change(alloc, language, range, new)
}

/// `Doc::set_version`.
pub fn set_version(doc: &mut Doc, version: i32)
    ensures is { let last = last_edit doc.old in
        let unit = doc.old.unit in
        open_document doc.new
        ≡ record { unit = unit; version = version; text = doc.old.text; last = last } }
    ensures current { (language : LanguageData)
        → IsCurrent language doc.old → IsCurrent language doc.new }
{
    doc.set_version(version);
}

/// `Doc::version`.
pub fn version(doc: &Doc) -> i32
    ensures { result ≡ doc.now.version }
{
    doc.version()
}

/// `Doc::text`.
pub fn text(doc: &Doc, alloc: Global) -> Result<String, AllocError>
    ensures { IfOk result (λ text. string_bytes text ≡ encode_utf8_all doc.now.text) }
{
    doc.text(alloc)
}

/// `Doc::nodes`.
pub fn nodes(doc: &Doc) -> &Store
    ensures { result.now ≡ doc.now.store }
{
    doc.nodes()
}

/// `Doc::stats`.
pub fn stats(doc: &Doc) -> Stats
    ensures is { (language : LanguageData) → IsCurrent language doc.now
        → AreStats language.file (open_document doc.now) result }
    ensures nodes { result.nodes ≡ length doc.now.store }
{
    doc.stats()
}

/// `Stats`.
pub fn counts(stats: Stats) -> [u64; 6] {
    let Stats {
        edit,
        scanned,
        tokens,
        branches,
        built,
        nodes,
    } = stats;
    [edit, scanned, tokens, branches, built, nodes]
}

/// `Doc::diagnostic`.
pub fn fault(
    doc: &Doc,
    alloc: Global,
    language: &Language,
) -> Result<Option<Diagnostic>, AllocError>
    requires { IsCurrent language.now doc.now }
    ensures reported { let file = language.now.file in
        let text = doc.now.text in
        IfOk result (λ reported. Reads file text (λ reading. (fault : Option Fault)
        × IsDiagnosis doc.now.unit file text reading.tokens reading.verdict fault
        × IsReported reported fault)) }
    ensures tree { IfOk result (λ reported.
        reported ≡ None → (root : NodeId) × (doc.now.parse.verdict ≡ Verdict.Tree root)) }
{
    doc.diagnostic(alloc, language)
}

/// `Doc::folds`.
pub fn doc_folds(
    doc: &Doc,
    alloc: Global,
    language: &Language,
) -> Result<Vec<(u32, u32)>, AllocError>
    requires { IsCurrent language.now doc.now }
    ensures { let file = language.now.file in
        IfOk result (λ pairs. Reads file doc.now.text (λ reading.
        AreFoldsOf file doc.now.text reading.tokens reading.trees pairs.items)) }
{
    doc.folds(alloc, language)
}

/// `Doc::rows`.
pub fn rows(doc: &Doc, alloc: Global, language: &Language) -> Result<Vec<docs::Row>, AllocError>
    requires { IsCurrent language.now doc.now }
    ensures { let file = language.now.file in let text = doc.now.text in
        IfOk result (λ reported. Reads file text (λ reading.
        map shared_bytes reported.items ≡ rows doc.now.unit file text reading.tokens)) }
{
    doc.rows(alloc, language)
}

/// `Doc::tree`.
pub fn tree(doc: &Doc, alloc: Global, language: &Language) -> Result<Option<String>, AllocError>
    requires { IsCurrent language.now doc.now }
    ensures { let file = language.now.file in
        IfOk result (λ reported. Reads file doc.now.text (λ reading.
        option_map string_bytes reported ≡ written_tree file reading.verdict)) }
{
    doc.tree(alloc, language)
}

/// `Doc::selections`.
pub fn selections(
    doc: &Doc,
    alloc: Global,
    positions: &[Position],
) -> Result<Vec<Vec<Range>>, AllocError>
    requires { (language : LanguageData) × IsCurrent language doc.now }
    ensures { let text = doc.now.text in
        (language : LanguageData) → IsCurrent language doc.now
        → IfOk result (λ found. Reads language.file text (λ reading.
        let ranges = map (λ ranges. ranges.items) found.items in
        AreSelections doc.now.unit language.file text reading positions.now ranges)) }
{
    doc.selections(alloc, positions)
}

/// `Doc::outcome`.
pub fn outcome(doc: &Doc, alloc: Global, language: &Language) -> Result<Outcome, AllocError>
    requires { IsCurrent language.now doc.now }
    ensures { IfOk result (IsOutcome doc.now.unit language.now.file doc.now.text) }
{
    doc.outcome(alloc, language)
}

/// `Outcome`.
pub fn what_comes(outcome: Outcome) -> Result<String, Diagnostic> {
    match outcome {
        Outcome::Tree(text) => Ok(text),
        Outcome::Fault(fault) => Err(fault),
    }
}

/// `Pending::new`.
pub fn pending(doc: Doc) -> Pending
    ensures text { pending_text result ≡ doc.text }
    ensures unit { pending_unit result ≡ doc.unit }
    ensures version { pending_version result ≡ doc.version }
    ensures number { pending_number result ≡ number_of (last_edit doc) }
    ensures none { HasNone result }
    ensures document { pending_document result ≡ doc }
    ensures fits { fits doc.text ≡ true }
    ensures pending { (language : LanguageData)
        → IsCurrent language doc → IsPending language result }
{
    Pending::new(doc)
}

/// `Pending::change`.
pub fn change_pending(
    pending: &mut Pending,
    alloc: Global,
    language: &Language,
    range: Option<Range>,
    new: &str,
) -> Result<(), DocFault>
    requires { IsPending language.now pending.old }
    ensures text { let old = pending.old in
        let text = changed (pending_unit old) (pending_text old) range (chars new.now) in
        OnOk result ((pending_text pending.new ≡ text) × (fits text ≡ true)) }
    ensures unit { OnOk result (pending_unit pending.new ≡ pending_unit pending.old) }
    ensures version { OnOk result (pending_version pending.new ≡ pending_version pending.old) }
    ensures number { OnOk result
        (pending_number pending.new ≡ min (pending_number pending.old + 1) 18446744073709551615) }
    ensures waits { let change = next_pending pending.old range (chars new.now) in
        OnOk result (Waits language.now pending.old change pending.new) }
    ensures pending { OnOk result (IsPending language.now pending.new) }
    ensures too_large { let old = pending.old in
        let text = changed (pending_unit old) (pending_text old) range (chars new.now) in
        result ≡ Err DocFault.TooLarge → fits text ≡ false }
    ensures memory { let old = pending.old in
        let text = changed (pending_unit old) (pending_text old) range (chars new.now) in
        result ≡ Err DocFault.Memory → HasNone old → fits text ≡ true }
{
    pending.change(alloc, language, range, new)
}

/// `Pending::finish`.
pub fn finish(pending: Pending, alloc: Global, language: &Language) -> Result<Doc, AllocError>
    requires { IsPending language.now pending }
    ensures text { IfOk result (λ d. d.text ≡ pending_text pending) }
    ensures unit { IfOk result (λ d. d.unit ≡ pending_unit pending) }
    ensures version { IfOk result (λ d. d.version ≡ pending_version pending) }
    ensures number { IfOk result (λ d. number_of (last_edit d) ≡ pending_number pending) }
    ensures settled { IfOk result (IsSettledAs language.now pending) }
    ensures current { IfOk result (IsCurrent language.now) }
    ensures refused { IfErr result (λ _. ¬ HasNone pending) }
{
    pending.finish(alloc, language)
}

/// `always_answers`.
pub fn always_answers(language: &Language)
    ensures always { AlwaysAnswers language.now.file }
    ensures once { AnswersOnce language.now.file }
    ensures counts { CountsOnce language.now.file }
    ensures counted { AlwaysCounts language.now.file }
{
    docs::laws::always_answers(language);
}

/// `equal_faults_are_the_same`.
pub fn equal_docs_faults_are_the_same()
    ensures { (a b : DocumentFault) → IsTrue (⟦<docs::DocFault as PartialEq>⟧.eq a b) ↔ (a ≡ b) }
{
    docs::laws::equal_faults_are_the_same();
}
