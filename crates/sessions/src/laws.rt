//! What is proved of sessions, as contracts of functions that do nothing, or only call such.

ghost use Rattle.std.specs.Prelude.{◌≡◌, ◌↔◌, IsTrue};
ghost use Rattle.readings.specs.Answers.{AlwaysAnswers, AnswersOnce};
ghost use Rattle.readings.specs.Edits.{CountsOnce};
ghost use Rattle.readings.specs.Grammars.{FileGrammar};
ghost use Rattle.sessions.specs.Alone.{EachDocumentIsAlone, EachRunHasAHistory, HistoriesDecide, OthersCanBeLeftOut};
ghost use Rattle.sessions.specs.Fresh.{EveryAnswerIsFresh, EachTextIsItsEdits};
ghost use Rattle.sessions.specs.Replies.{EachRequestIsAnswered, NoNotificationIsAnswered, NothingIsSentAfterExit};
ghost use Rattle.sessions.specs.Sizes.{TooLargeIsExact};
ghost use Rattle.sessions.specs.declared.fault.RunFault.{RunFault as Ending};
ghost use Rattle.sessions.specs.declared.phase.Phase.{Phase as Stage};

use rpc::each_text_is_unicode;

/// In a session by a file that has one answer to each question, whatever was read before: there is
/// a fresh server for each open document, and to each question about the document it and the
/// server have one answer, the same; and the diagnostics that it published are those that the
/// server published last.
pub fn every_answer_is_fresh()
    ensures { (file : FileGrammar) → AlwaysAnswers file → AnswersOnce file
        → EveryAnswerIsFresh file }
{}

/// A document's text after a change is its text before, edited by the changes in turn, unless
/// memory was refused.
pub fn each_text_is_its_edits()
    ensures { EachTextIsItsEdits }
{}

/// In a session by a file that has at most one answer to each question, whatever is held: a
/// message that does not name a document leaves it as it was, and sends no diagnostics of it. What
/// is sent on one that names it, and what the document becomes, depends on the phase, on what is
/// held under its URI, on the room for it where it is opened, and on whether memory was refused
/// within its changes.
///
/// So what a run sends about a document is a function of what it receives about it: of the
/// messages that name it, the phase at each, whether there was room for it where it was opened,
/// and whether memory was refused in its changes. Messages about other documents, or about none,
/// can be left out, but for `initialize`, `shutdown` and `exit`.
pub fn each_document_is_alone()
    ensures alone { (file : FileGrammar) → AnswersOnce file → CountsOnce file
        → EachDocumentIsAlone file }
    ensures histories { EachRunHasAHistory }
    ensures by_history { (file : FileGrammar) → AnswersOnce file → CountsOnce file
        → HistoriesDecide file }
    ensures left_out { (file : FileGrammar) → AnswersOnce file → CountsOnce file
        → OthersCanBeLeftOut file }
{}

/// In every run each request gets one reply, with its id and in order, a notification none, and
/// nothing is sent after `exit` (JSON-RPC 2.0; LSP 3.17). A content that can't be read as a
/// message gets one reply too, with its id where that can be read.
pub fn each_request_is_answered()
    ensures replies { EachRequestIsAnswered }
    ensures notifications { NoNotificationIsAnswered }
    ensures exit { NothingIsSentAfterExit }
{}

/// In every session a document is lost as too large exactly where a text has more than 1,048,576
/// bytes: the one that is opened, where there is room, or one on the way of a change, unless the
/// document is lost because memory was refused.
pub fn too_large_is_exact()
    ensures { (file : FileGrammar) → TooLargeIsExact file }
{
    each_text_is_unicode();
}

/// Reasons why a session ends are equal by `==` exactly where they are the same: no part of them
/// is left out.
pub fn equal_run_faults_are_the_same()
    ensures { (a b : Ending) → IsTrue (⟦<crate::RunFault as PartialEq>⟧.eq a b) ↔ (a ≡ b) }
{}

/// Phases are equal by `==` exactly where they are the same, with their units.
pub fn equal_phases_are_the_same()
    ensures { (a b : Stage) → IsTrue (⟦<crate::Phase as PartialEq>⟧.eq a b) ↔ (a ≡ b) }
{}
