//! The server and the program: `sessions`, `server` and `commands`.

ghost use Rattle.std.specs.Prelude.{◌≡◌, false, true, IfOk, OnOk, OnErr, IsErr, ◌↔◌, ℕ, List, All, IsErrOf, map, string_bytes, IfErr, IsTrue, []};
ghost use Rattle.sessions.specs.Steps.{first_state, StepOn};
ghost use Rattle.server.specs.States.{has_failed, language_of, state_view};
ghost use Rattle.rpc.specs.Messages.{received_of, Received};
ghost use Rattle.sessions.specs.Sent.{sent};
ghost use Rattle.rpc.specs.Reading.{Receives};
ghost use Rattle.rpc.specs.Texts.{IsSpelled, texts_of};
ghost use Rattle.sessions.specs.Alone.{EachDocumentIsAlone, EachRunHasAHistory, HistoriesDecide, OthersCanBeLeftOut};
ghost use Rattle.sessions.specs.Fresh.{EveryAnswerIsFresh, EachTextIsItsEdits};
ghost use Rattle.sessions.specs.Replies.{EachRequestIsAnswered, NoNotificationIsAnswered, NothingIsSentAfterExit};
ghost use Rattle.sessions.specs.Sessions.{Session};
ghost use Rattle.sessions.specs.Sizes.{TooLargeIsExact};
ghost use Rattle.commands.specs.CommandLines.{IsRead};
ghost use Rattle.commands.specs.Conflicts.{conflict_text};
ghost use Rattle.commands.specs.Texts.{PrintsFault};
ghost use Rattle.tables.specs.Reports.{IsReport};
ghost use Rattle.std.specs.Str.{IsUtf8};
ghost use Rattle.docs.specs.Languages.{IsLanguageOf};
ghost use Rattle.commands.specs.Refusals.{IsRefused};
ghost use Rattle.commands.specs.Reporting.{IsChecked};
ghost use Rattle.commands.specs.Parsing.{IsParsed};
ghost use Rattle.serving.specs.Serving.{IsServed, failed_reading, failed_writing};
ghost use Rattle.readings.specs.Answers.{AlwaysAnswers, AnswersOnce};
ghost use Rattle.readings.specs.Grammars.{FileGrammar};
ghost use Rattle.readings.specs.Edits.{CountsOnce};
ghost use Rattle.sessions.specs.declared.fault.RunFault.{RunFault as Ending};
ghost use Rattle.sessions.specs.declared.phase.Phase.{Phase as Stage};

use commands::{Fault, Printed, Words};
use docs::{Doc, Language};
use frames::{FrameFault, Input, Output};
use grammar::Grammar;
use rpc::{Message, Reply, RpcFault};
use server::{Out, RunFault, Server};
use serving::Served;
use std::alloc::{AllocError, Global};
use tables::Conflict;

/// `Server::new`.
pub fn new(alloc: Global, language: Language) -> Server
    ensures state { state_view result ≡ first_state language.file }
    ensures works { has_failed result ≡ false }
{
    Server::new(alloc, language)
}

/// `Server::handle`.
pub fn handle(
    server: &mut Server,
    alloc: Global,
    message: Result<Message, RpcFault>,
) -> Result<Out, AllocError>
    ensures step { IfOk result (λ out.
        StepOn (received_of message) (state_view server.old) (sent out) out.stop
        (state_view server.new)) }
    ensures failed { has_failed server.old ≡ true → IsErr result }
    ensures err { OnErr result (has_failed server.new ≡ true) }
    ensures ok { OnOk result (has_failed server.new ≡ false) }
    ensures language { language_of server.new ≡ language_of server.old }
{
    server.handle(alloc, message)
}

/// `Out`.
pub fn out(out: Out) -> (Vec<Reply>, Option<u8>) {
    let Out { replies, stop } = out;
    (replies, stop)
}

/// `run`.
pub fn run<R: Input, W: Output>(
    alloc: Global,
    language: Language,
    input: &mut R,
    output: &mut W,
) -> Result<u8, RunFault>
    requires input { R.failures input.old ≡ 0 }
    requires output { W.failures output.old ≡ 0 }
    ensures session { let old = W.contents output.old in
        let new = W.contents output.new in
        Session language.file (R.remaining input.old) (R.remaining input.new) old new result }
    ensures fresh { EveryAnswerIsFresh language.file }
    ensures edits { EachTextIsItsEdits }
    ensures unicode { (content : List ℕ) (received : Received) → Receives content received →
        All IsSpelled (texts_of received) }
    ensures too_large { TooLargeIsExact language.file }
    ensures alone { EachDocumentIsAlone language.file }
    ensures histories { EachRunHasAHistory }
    ensures by_history { HistoriesDecide language.file }
    ensures left_out { OthersCanBeLeftOut language.file }
    ensures replies { EachRequestIsAnswered }
    ensures notifications { NoNotificationIsAnswered }
    ensures exit { NothingIsSentAfterExit }
    ensures read { IsErrOf result RunFault.Read ↔ R.failures input.new ≡ 1 }
    ensures write { IsErrOf result RunFault.Write ↔ W.failures output.new ≡ 1 }
{
    server::run(alloc, language, input, output)
}

/// `RunFault`.
pub fn run_fault(fault: RunFault) -> Option<FrameFault> {
    match fault {
        RunFault::Frame(fault) => Some(fault),
        RunFault::Read | RunFault::Write | RunFault::Memory => None,
    }
}

/// `words`.
pub fn words(alloc: Global, given: &[String]) -> Result<Option<Words>, AllocError>
    ensures { IfOk result (IsRead (map string_bytes given.now)) }
{
    commands::words(alloc, given)
}

/// `Words`.
pub fn asked(asked: Words) -> (String, Option<String>) {
    match asked {
        Words::Check(grammar) | Words::Serve(grammar) => (grammar, None),
        Words::Parse(grammar, text) => (grammar, Some(text)),
    }
}

/// `load`.
pub fn load(alloc: Global, bytes: &[u8]) -> Result<Result<Language, Printed>, AllocError>
    ensures utf8 { IfOk result (λ loaded. IfOk loaded (λ _. IsUtf8 bytes.now)) }
    ensures language { IfOk result (λ loaded. IfOk loaded (λ l. IsLanguageOf bytes.now l.file)) }
    ensures refused { IfOk result (λ loaded. IfErr loaded (IsRefused bytes.now)) }
{
    commands::load(alloc, bytes)
}

/// `check`.
pub fn check(alloc: Global, language: &Language) -> Result<Printed, AllocError>
    ensures { IfOk result (IsChecked language.now.file) }
{
    commands::check(alloc, language)
}

/// `parse`.
pub fn parse(alloc: Global, language: &Language, bytes: &[u8]) -> Result<Printed, AllocError>
    ensures { IfOk result (IsParsed language.now.file bytes.now) }
{
    commands::parse(alloc, language, bytes)
}

/// `Printed`.
pub fn printed(printed: Printed) -> (Vec<u8>, Vec<u8>, u8) {
    let Printed { out, err, status } = printed;
    (out, err, status)
}

/// `Printed::text`.
pub fn text(alloc: Global, text: String, status: u8) -> Printed
    ensures out { result.out.items ≡ string_bytes text }
    ensures err { result.err.items ≡ [] }
    ensures status { result.status ≡ status }
{
    Printed::text(alloc, text, status)
}

/// `Printed::fault`.
pub fn fault(alloc: Global, fault: &Fault) -> Result<Printed, AllocError>
    ensures { IfOk result (PrintsFault fault.now) }
{
    Printed::fault(alloc, fault)
}

/// `Printed::conflict`.
pub fn conflict(
    alloc: Global,
    grammar: &Grammar,
    conflict: &Conflict,
) -> Result<Printed, AllocError>
    requires { IsReport grammar.now.grammar conflict.now }
    ensures out { IfOk result (λ printed. printed.out.items ≡ []) }
    ensures status { IfOk result (λ printed. printed.status ≡ 2) }
    ensures conflict { IfOk result (λ printed.
        printed.err.items ≡ conflict_text grammar.now conflict.now) }
{
    Printed::conflict(alloc, grammar, conflict)
}

/// `server::Doc` and `server::Language`.
pub fn handed_on(doc: server::Doc, language: server::Language) -> (Doc, Language) {
    (doc, language)
}

/// `every_answer_is_fresh`.
pub fn every_answer_is_fresh()
    ensures { (file : FileGrammar) → AlwaysAnswers file → AnswersOnce file
        → EveryAnswerIsFresh file }
{
    sessions::laws::every_answer_is_fresh();
}

/// `each_text_is_its_edits`.
pub fn each_text_is_its_edits()
    ensures { EachTextIsItsEdits }
{
    sessions::laws::each_text_is_its_edits();
}

/// `each_document_is_alone`.
pub fn each_document_is_alone()
    ensures alone { (file : FileGrammar) → AnswersOnce file → CountsOnce file
        → EachDocumentIsAlone file }
    ensures histories { EachRunHasAHistory }
    ensures by_history { (file : FileGrammar) → AnswersOnce file → CountsOnce file
        → HistoriesDecide file }
    ensures left_out { (file : FileGrammar) → AnswersOnce file → CountsOnce file
        → OthersCanBeLeftOut file }
{
    sessions::laws::each_document_is_alone();
}

/// `each_request_is_answered`.
pub fn each_request_is_answered()
    ensures replies { EachRequestIsAnswered }
    ensures notifications { NoNotificationIsAnswered }
    ensures exit { NothingIsSentAfterExit }
{
    sessions::laws::each_request_is_answered();
}

/// `too_large_is_exact`.
pub fn too_large_is_exact()
    ensures { (file : FileGrammar) → TooLargeIsExact file }
{
    sessions::laws::too_large_is_exact();
}

/// `equal_run_faults_are_the_same`.
pub fn equal_run_faults_are_the_same()
    ensures { (a b : Ending) → IsTrue (⟦<sessions::RunFault as PartialEq>⟧.eq a b) ↔ (a ≡ b) }
{
    sessions::laws::equal_run_faults_are_the_same();
}

/// `equal_phases_are_the_same`.
pub fn equal_phases_are_the_same()
    ensures { (a b : Stage) → IsTrue (⟦<sessions::Phase as PartialEq>⟧.eq a b) ↔ (a ≡ b) }
{
    sessions::laws::equal_phases_are_the_same();
}

/// `Served`.
pub fn served(served: Served) -> Result<Result<u8, RunFault>, Printed> {
    match served {
        Served::Ended(outcome) => Ok(outcome),
        Served::Refused(printed) => Err(printed),
    }
}

/// `serving::serve`.
pub fn serve<R: Input, W: Output>(
    alloc: Global,
    grammar: &[u8],
    input: &mut R,
    output: &mut W,
) -> Result<Served, AllocError>
    requires input { R.failures input.old ≡ 0 }
    requires output { W.failures output.old ≡ 0 }
    ensures served { let old = W.contents output.old in
        let new = W.contents output.new in
        IfOk result
        (IsServed grammar.now (R.remaining input.old) (R.remaining input.new) old new) }
    ensures nothing { OnErr result ((R.remaining input.new ≡ R.remaining input.old)
        × (W.contents output.new ≡ W.contents output.old)) }
    ensures read { IfOk result (λ s. failed_reading s ↔ (R.failures input.new ≡ 1)) }
    ensures write { IfOk result (λ s. failed_writing s ↔ (W.failures output.new ≡ 1)) }
{
    serving::serve(alloc, grammar, input, output)
}
