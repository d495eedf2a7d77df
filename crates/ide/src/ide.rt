//! The server: the core, and what is answered besides.

ghost use Rattle.std.specs.Prelude.{◌≡◌, [], ◌∷◌, ◌++◌, Some, None, true, map, option_map, IfOk};
ghost use Rattle.rpc.specs.Ids.{Ident};
ghost use Rattle.rpc.specs.Messages.{received_of, Received};
ghost use Rattle.sessions.specs.declared.phase.Phase.TheVariants.{Ready};
ghost use Rattle.editor_replies.specs.Sent.{is_remark, message_view};
ghost use Rattle.questions.specs.Asked.{Asked as Request};
ghost use Rattle.questions.specs.Cancels.{later_view};
ghost use Rattle.questions.specs.Own.{own_view};
ghost use Rattle.shown.specs.Shown.{shown_data};
ghost use Rattle.own_replies.specs.States.{first_of};
ghost use Rattle.ide.specs.Servers.{sent, state_of, written_view};
ghost use Rattle.ide.specs.Steps.{AnswersItself, StepOnContent, StepsAsShown};
ghost use Rattle.ide.specs.Written.{AfterLook, AreRemarks, IsReplaced};

use crate::looked::{Looked, Notice, Written};
use crate::sending::Sending;
use definitions::Unit;
use docs::Language;
use editor_replies::{Sent, watching_value};
use own_replies::{Results, reply};
use questions::{
    Asked, Content, Own, Question, Subject, copy_of, is_cancelled, question_id, read_content,
    subject_in, subject_of,
};
use reopening::{Core, open_uris, opened_by, reopened};
use rpc::{Id, Message, RpcFault};
use server::Phase;
use shown::{Known, Shown};
use std::alloc::{AllocError, Global};

/// A server of a language for an editor, between two messages.
#[derive(Drop)]
pub struct Ide {
    known: Known,
    /// The results with the colours of whole documents that were sent.
    results: Results,
    /// The URIs of the open documents, and of some that were closed.
    uris: Vec<String>,
    /// The editor was asked to watch the files of the language.
    is_watched: bool,
}

/// One message alone.
fn one(alloc: Global, message: Sent) -> Result<Sending, AllocError>
    ensures messages { IfOk result (λ s. sent s ≡ message_view message ∷ []) }
    ensures stop { IfOk result (λ s. s.stop ≡ None) }
{
    let mut messages = Vec::new(alloc);
    messages.push(message)?;
    Ok(Sending {
        messages,
        stop: None,
    })
}

/// The notifications as they are sent.
fn all_sent(alloc: Global, notices: Vec<Notice>) -> Result<Vec<Sent>, AllocError>
    ensures { IfOk result (λ messages. AreRemarks (map message_view messages.items)) }
{
    let mut messages = Vec::new(alloc);
    for notice in notices {
        let Notice { method, params } = notice;
        messages.push(Sent::Notice { method, params })?;
    }
    Ok(messages)
}

/// All of these messages, in order.
fn joined(
    mut first: Vec<Sent>,
    mut second: Vec<Sent>,
    mut third: Vec<Sent>,
) -> Result<Vec<Sent>, AllocError>
    ensures { IfOk result (λ all. all.items ≡ first.items ++ second.items ++ third.items) }
{
    second.append(&mut third)?;
    first.append(&mut second)?;
    Ok(first)
}

/// Whether a mended copy is asked for in answering a question.
fn needs_copy(question: &Question) -> bool {
    match question {
        Question::Outline
        | Question::Offers(_)
        | Question::Hover(_)
        | Question::Brackets(_)
        | Question::Fixes(_)
        | Question::Nodes(..) => true,
        Question::Colours | Question::Changes(_) | Question::Lines(..) | Question::Rows(..) => {
            false
        }
    }
}

/// The request to watch the files of these paths
/// (LSP 3.17, "DidChangeWatchedFiles Notification").
fn watch(alloc: Global, paths: &[String]) -> Result<Sent, AllocError>
    ensures { IfOk result (λ message. is_remark (message_view message) ≡ true) }
{
    Ok(Sent::Call {
        id: "lrls-ide watch",
        method: "client/registerCapability",
        params: Some(watching_value(alloc, paths)?),
    })
}

impl Ide {
    /// A server that no message has reached.
    pub fn new(alloc: Global, language: Language, shown: Shown) -> Ide
        ensures { state_of result ≡ first_of language.file (shown_data shown) }
    {
        Ide {
            known: Known::new(alloc, language, shown),
            results: Results::new(),
            uris: Vec::new(alloc),
            is_watched: false,
        }
    }

    /// Keeps the mended copy that is asked for in answering a message.
    fn keep_copy_of(&mut self, alloc: Global, about: &Subject) -> Result<(), AllocError>
        ensures { state_of self.new ≡ state_of self.old }
    {
        if about.uri.is_empty() {
            return Ok(());
        }
        self.known.keep_copy(alloc, about.uri.as_str())
    }

    /// Whether it is initialized, and isn't shut down.
    pub fn is_ready(&self) -> bool {
        matches!(self.known.core.server().phase(), Phase::Ready(_))
    }

    /// What comes of a request that is answered here.
    fn answer(&mut self, alloc: Global, request: Own) -> Result<Sending, AllocError>
        ensures answers { let asked : Ident × Request = own_view request in
            IfOk result (λ s.
            AnswersItself (state_of self.old) asked (sent s) s.stop (state_of self.new)) }
    {
        if let Asked::About(uri, question) = &request.asked
            && needs_copy(question)
        {
            self.known.keep_copy(alloc, uri.as_str())?;
        }
        one(
            alloc,
            reply(alloc, &self.known, &mut self.results, request)?,
        )
    }

    /// Notes that the document of this URI is open now, where it is.
    fn note_opened(&mut self, alloc: Global, opened: Option<String>) -> Result<String, AllocError>
        ensures { state_of self.new ≡ state_of self.old }
    {
        match opened {
            Some(uri) => {
                self.uris = open_uris(alloc, self.known.core.server(), &self.uris, uri.as_str())?;
                Ok(uri)
            }
            None => Ok(String::new(alloc)),
        }
    }

    /// A step of the core on a message.
    fn step(
        &mut self,
        alloc: Global,
        message: Result<Message, RpcFault>,
    ) -> Result<Sending, AllocError>
        ensures { let old = state_of self.old in
            let new = state_of self.new in
            IfOk result (λ s. (received : Received) × (received_of message ≡ Some received)
            × StepsAsShown old received (sent s) s.stop new) }
    {
        let opened = opened_by(alloc, &message)?;
        let about = subject_of(alloc, &message)?;
        let out = self.known.core.handle(alloc, message)?;
        let uri = self.note_opened(alloc, opened)?;
        self.keep_copy_of(alloc, &about)?;
        let messages = self.known.show(alloc, out.replies, uri.as_str(), &about)?;
        Ok(Sending {
            messages,
            stop: out.stop,
        })
    }

    /// Takes the content of one frame. Each content that was read after it cancels the request
    /// with its id in `later`, if it cancels one. Refuses for memory alone.
    pub fn handle(
        &mut self,
        alloc: Global,
        content: Vec<u8>,
        later: &[Option<Id>],
    ) -> Result<Sending, AllocError>
        ensures { IfOk result (λ s.
            StepOnContent (state_of self.old) content.items (later_view later.now) (sent s) s.stop
            (state_of self.new)) }
    {
        let phase = self.known.core.server().phase();
        let Content {
            message,
            own,
            client,
        } = read_content(alloc, phase, content)?;
        if let Some(id) = question_id(phase, &message)
            && is_cancelled(id, later)
        {
            let id = copy_of(alloc, id)?;
            return one(alloc, Sent::Cancelled { id });
        }
        match own {
            Some(request) => self.answer(alloc, request),
            None => {
                self.known.client = client.unwrap_or(self.known.client);
                self.step(alloc, message)
            }
        }
    }

    /// A core of the language of these files takes the place of this one, with the open documents.
    fn turn_to(
        &mut self,
        alloc: Global,
        unit: Unit,
        written: Written,
    ) -> Result<Vec<Sent>, AllocError>
        ensures { let old = state_of self.old in
            let files = written_view written in
            IfOk result (λ messages. IsReplaced unit old files (map message_view messages.items)
            (state_of self.new)) }
    {
        let Written { language, shown } = written;
        let Core { server, replies } = reopened(
            alloc,
            self.known.core.server(),
            &self.uris,
            unit,
            language,
        )?;
        self.known.core.replace(server);
        self.known.shown = shown;
        self.results.forget();
        self.known.show(alloc, replies, "", &subject_in(alloc, "")?)
    }

    /// The notifications as they are sent, and the request to watch the files of these paths,
    /// where the editor can and wasn't asked yet.
    fn remarks(
        &mut self,
        alloc: Global,
        paths: &[String],
        notices: Vec<Notice>,
    ) -> Result<Vec<Sent>, AllocError>
        ensures remarks { IfOk result (λ messages.
            AreRemarks (map message_view messages.items)) }
        ensures same { state_of self.new ≡ state_of self.old }
    {
        let mut messages = all_sent(alloc, notices)?;
        if self.known.client.watches && !self.is_watched {
            messages.push(watch(alloc, paths)?)?;
            self.is_watched = true;
        }
        Ok(messages)
    }

    /// The request to ask for the colours again, where the editor can.
    fn refreshing(&self, alloc: Global) -> Result<Vec<Sent>, AllocError>
        ensures { IfOk result (λ messages. AreRemarks (map message_view messages.items)) }
    {
        let mut messages = Vec::new(alloc);
        if self.known.client.refreshes {
            messages.push(Sent::Call {
                id: "lrls-ide refresh",
                method: "workspace/semanticTokens/refresh",
                params: None,
            })?;
        }
        Ok(messages)
    }

    /// What comes of a look at the files of the language, in the ready phase.
    fn turned(
        &mut self,
        alloc: Global,
        unit: Unit,
        paths: &[String],
        looked: Looked,
    ) -> Result<Vec<Sent>, AllocError>
        ensures { let old = state_of self.old in
            let files = option_map written_view looked.written in
            IfOk result (λ messages. AfterLook (Ready unit) old files
            (map message_view messages.items) (state_of self.new)) }
    {
        let Looked { notices, written } = looked;
        let messages = self.remarks(alloc, paths, notices)?;
        match written {
            Some(written) => {
                let shown = self.turn_to(alloc, unit, written)?;
                let calls = self.refreshing(alloc)?;
                joined(messages, shown, calls)
            }
            None => Ok(messages),
        }
    }

    /// Takes what a look at the files of the language has found, which have these paths. Before
    /// `initialize` and after `shutdown` nothing comes of it. Refuses for memory alone.
    pub fn look(
        &mut self,
        alloc: Global,
        paths: &[String],
        looked: Looked,
    ) -> Result<Vec<Sent>, AllocError>
        ensures { let old = state_of self.old in
            let files = option_map written_view looked.written in
            IfOk result (λ messages. AfterLook old.core.phase old files
            (map message_view messages.items) (state_of self.new)) }
    {
        match self.known.core.server().phase() {
            Phase::Ready(unit) => self.turned(alloc, unit, paths, looked),
            Phase::New | Phase::Down => Ok(Vec::new(alloc)),
        }
    }
}
