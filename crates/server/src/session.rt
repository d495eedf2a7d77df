//! A whole session of a language.

ghost use Rattle.std.specs.Prelude.{◌≡◌, ◌↔◌, ℕ, List, All, IsErrOf};
ghost use Rattle.rpc.specs.Messages.{Received};
ghost use Rattle.rpc.specs.Reading.{Receives};
ghost use Rattle.rpc.specs.Texts.{IsSpelled, texts_of};
ghost use Rattle.sessions.specs.Alone.{EachDocumentIsAlone, EachRunHasAHistory, HistoriesDecide, OthersCanBeLeftOut};
ghost use Rattle.sessions.specs.Fresh.{EveryAnswerIsFresh, EachTextIsItsEdits};
ghost use Rattle.sessions.specs.Replies.{EachRequestIsAnswered, NoNotificationIsAnswered, NothingIsSentAfterExit};
ghost use Rattle.sessions.specs.Sessions.{Session};
ghost use Rattle.sessions.specs.Sizes.{TooLargeIsExact};

use crate::state::Server;
use crate::stream::serve;
use docs::Language;
use docs::laws::always_answers;
use frames::{Input, Output};
use rpc::each_text_is_unicode;
use sessions::RunFault;
use sessions::laws::{
    each_document_is_alone, each_request_is_answered, each_text_is_its_edits,
    every_answer_is_fresh, too_large_is_exact,
};
use std::alloc::Global;

/// A session from its first byte to `exit`, to the end of the input, or to a fault.
pub fn run<R: Input, W: Output>(
    alloc: Global,
    language: Language,
    input: &mut R,
    output: &mut W,
) -> Result<u8, RunFault>
    requires input { R.failures input.old ≡ 0 }
    requires output { W.failures output.old ≡ 0 }
    // What is read and written is a session, whatever ends it.
    ensures session { let old = W.contents output.old in
        let new = W.contents output.new in
        Session language.file (R.remaining input.old) (R.remaining input.new) old new result }
    // In each session the one answer to each question about an open document, `lr/stats` aside, is
    // that of a fresh server on its text, and so are its last diagnostics.
    ensures fresh { EveryAnswerIsFresh language.file }
    // The text of an open document is its edits, applied in turn.
    ensures edits { EachTextIsItsEdits }
    // What is received is in UTF-8.
    ensures unicode { (content : List ℕ) (received : Received) → Receives content received →
        All IsSpelled (texts_of received) }
    // A document is lost as too large exactly where its text has too many bytes.
    ensures too_large { TooLargeIsExact language.file }
    // What a run sends about a document is a function of what it receives about it, and no other
    // message changes the document.
    ensures alone { EachDocumentIsAlone language.file }
    ensures histories { EachRunHasAHistory }
    ensures by_history { HistoriesDecide language.file }
    // Messages about other documents, or about none, can be left out, but for those of the phase.
    ensures left_out { OthersCanBeLeftOut language.file }
    // In each run a request gets one reply, with its id and in order, a notification none, and
    // nothing is sent after `exit`.
    ensures replies { EachRequestIsAnswered }
    ensures notifications { NoNotificationIsAnswered }
    ensures exit { NothingIsSentAfterExit }
    // A device fault is answered exactly where the device failed.
    ensures read { IsErrOf result RunFault.Read ↔ R.failures input.new ≡ 1 }
    ensures write { IsErrOf result RunFault.Write ↔ W.failures output.new ≡ 1 }
{
    always_answers(&language);
    every_answer_is_fresh();
    each_text_is_its_edits();
    each_document_is_alone();
    each_request_is_answered();
    each_text_is_unicode();
    too_large_is_exact();
    let mut server = Server::new(alloc, language);
    serve(alloc, &mut server, input, output)
}
