//! What is answered to a request.

ghost use Rattle.std.specs.Prelude.{◌≡◌, Some, IfOk, IfErr};
ghost use Rattle.std.specs.FinMap.{get};
ghost use Rattle.docs.specs.Docs.{open_document, IsCurrent};
ghost use Rattle.rpc.specs.Ids.{Ident, id_view};
ghost use Rattle.rpc.specs.Messages.{Question as Asking, call_view};
ghost use Rattle.rpc.specs.Replies.{reply_view, error_reply};
ghost use Rattle.sessions.specs.Answers.{IsAnswer, IsCount};
ghost use Rattle.sessions.specs.Documents.{is_open};
ghost use Rattle.sessions.specs.Sent.{sent};
ghost use Rattle.sessions.specs.Steps.{OnRequest};
ghost use Rattle.server.specs.Questions.{question_view};
ghost use Rattle.server.specs.States.{language_of, state_view};

use crate::answers::answer;
use crate::entry::Entry;
use crate::out::{one_error, one_reply};
use crate::question::Question;
use crate::state::Server;
use docs::Doc;
use rpc::{Call, Id, Refusal, Reply};
use sessions::{Out, Phase};
use std::alloc::{AllocError, Global};

impl Server {
    /// The document of this URI, or the refusal of what is asked about it where it isn't open.
    pub fn document(&self, uri: &str) -> Result<&Doc, Refusal>
        ensures open { let held = (state_view self.now).documents in
            IfOk result (λ doc. IsCurrent (language_of self.now) doc.now
            × (get held uri.now ≡ Some (is_open (open_document doc.now)))) }
        ensures refusal { let state = state_view self.now in
            let document = get state.documents uri.now in
            IfErr result (λ refusal. (id : Ident) → let answer = error_reply (Some id) refusal in
            ((question : Asking) → IsAnswer state.file id document question answer)
            × IsCount state.file id document answer) }
    {
        match self.documents.get(uri) {
            Some(Entry::Open(doc)) => Ok(doc),
            Some(Entry::Lost(loss)) => Err(Refusal::DocumentLost(*loss)),
            None => Err(Refusal::DocumentNotOpen),
        }
    }

    /// The reply to a question about the document of this URI.
    fn answer(
        &self,
        alloc: Global,
        id: Id,
        uri: &str,
        question: &Question,
    ) -> Result<Reply, AllocError>
        ensures { IfOk result (λ reply.
            let held = self.now.documents in
            let document = get held.documents uri.now in
            let question = question_view question.now in
            IsAnswer (held.language.file) (id_view id) document question (reply_view reply)) }
    {
        match self.document(uri) {
            Ok(doc) => answer(alloc, self.documents.language(), doc, id, question),
            Err(refusal) => Ok(Reply::Error {
                id: Some(id),
                refusal,
            }),
        }
    }

    /// The reply that says how much there is of the document of this URI, and how much its last
    /// edit has made.
    fn stats(&self, id: Id, uri: &str) -> Reply
        ensures { let held = self.now.documents in
            let document = get held.documents uri.now in
            IsCount (held.language.file) (id_view id) document (reply_view result) }
    {
        match self.document(uri) {
            Ok(doc) => Reply::Stats {
                id,
                stats: doc.stats(),
            },
            Err(refusal) => Reply::Error {
                id: Some(id),
                refusal,
            },
        }
    }

    /// A request that fits its method.
    pub(crate) fn on_request(
        &mut self,
        alloc: Global,
        id: Id,
        call: Call,
    ) -> Result<Out, AllocError>
        ensures step { IfOk result (λ out.
            let old = state_view self.old in
            OnRequest self.old.phase old (id_view id) (call_view call) (sent out) out.stop
            (state_view self.new)) }
        ensures language { language_of self.new ≡ language_of self.old }
    {
        let (uri, question) = match (self.phase, call) {
            (Phase::New, Call::Initialize { unit }) => {
                self.phase = Phase::Ready(unit);
                return one_reply(alloc, Reply::Capabilities { id, unit });
            }
            (Phase::Ready(_), Call::Shutdown) => {
                self.phase = Phase::Down;
                return one_reply(alloc, Reply::Null { id });
            }
            (Phase::New, _) => return one_error(alloc, Some(id), Refusal::NotInitialized),
            (Phase::Ready(_), Call::Initialize { .. }) | (Phase::Down, _) => {
                return one_error(alloc, Some(id), Refusal::InvalidRequest);
            }
            (Phase::Ready(_), Call::Text { uri }) => (uri, Question::Text),
            (Phase::Ready(_), Call::Tokens { uri }) => (uri, Question::Tokens),
            (Phase::Ready(_), Call::Tree { uri }) => (uri, Question::Tree),
            (Phase::Ready(_), Call::Stats { uri }) => {
                return one_reply(alloc, self.stats(id, uri.as_str()));
            }
            (Phase::Ready(_), Call::FoldingRange { uri }) => (uri, Question::Folds),
            (Phase::Ready(_), Call::SelectionRange { uri, positions }) => {
                (uri, Question::Selections(positions))
            }
        };
        let reply = self.answer(alloc, id, uri.as_str(), &question)?;
        one_reply(alloc, reply)
    }
}
