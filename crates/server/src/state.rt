//! One step: phases, and what comes of a message in each.

ghost use Rattle.std.specs.Prelude.{◌≡◌, true, false, IfOk, OnOk, OnErr, IsErr};
ghost use Rattle.rpc.specs.Messages.{received_of};
ghost use Rattle.sessions.specs.Sent.{sent};
ghost use Rattle.sessions.specs.Steps.{first_state, unknown_in, params_in, StepOn};
ghost use Rattle.server.specs.States.{has_failed, language_of, state_view};

use crate::documents::Documents;
use crate::out::{nothing, one_error};
use docs::Language;
use rpc::{Message, Refusal, RpcFault};
use sessions::{Out, Phase};
use std::alloc::{AllocError, Global};

/// A server of documents of a language, between two messages.
#[derive(Drop)]
pub struct Server {
    pub(crate) phase: Phase,
    pub(crate) documents: Documents,
    has_failed: bool,
}

fn unknown_in(phase: Phase) -> Refusal
    ensures { result ≡ unknown_in phase }
{
    match phase {
        Phase::New => Refusal::NotInitialized,
        Phase::Ready(_) => Refusal::MethodNotFound,
        Phase::Down => Refusal::InvalidRequest,
    }
}

fn params_in(phase: Phase, is_initialize: bool) -> Refusal
    ensures { result ≡ params_in phase is_initialize }
{
    match (phase, is_initialize) {
        (Phase::New, true) | (Phase::Ready(_), false) => Refusal::InvalidParams,
        (Phase::New, false) => Refusal::NotInitialized,
        (Phase::Ready(_), true) | (Phase::Down, _) => Refusal::InvalidRequest,
    }
}

impl Server {
    /// A server that no message has reached.
    pub fn new(alloc: Global, language: Language) -> Server
        ensures state { state_view result ≡ first_state language.file }
        ensures works { has_failed result ≡ false }
    {
        Server {
            phase: Phase::New,
            documents: Documents::new(alloc, language),
            has_failed: false,
        }
    }

    /// Where the session stands (LSP 3.17, "Server lifecycle").
    pub fn phase(&self) -> Phase
        ensures { result ≡ (state_view self.now).phase }
    {
        self.phase
    }

    /// The language of the documents.
    pub fn language(&self) -> &Language
        ensures is { result.now ≡ language_of self.now }
        ensures file { (state_view self.now).file ≡ (language_of self.now).file }
    {
        self.documents.language()
    }

    /// The step on a message.
    fn step(&mut self, alloc: Global, message: Result<Message, RpcFault>) -> Result<Out, AllocError>
        ensures step { IfOk result (λ out.
            StepOn (received_of message) (state_view self.old) (sent out) out.stop
            (state_view self.new)) }
        ensures language { language_of self.new ≡ language_of self.old }
    {
        match message {
            Ok(Message::Request(id, call)) => self.on_request(alloc, id, call),
            Ok(Message::Notice(note)) => self.on_notification(alloc, note),
            Ok(Message::Ignored) => Ok(nothing(alloc)),
            Err(RpcFault::Parse) => one_error(alloc, None, Refusal::ParseError),
            Err(RpcFault::Invalid { id }) => one_error(alloc, id, Refusal::InvalidRequest),
            Err(RpcFault::Unknown { id }) => one_error(alloc, Some(id), unknown_in(self.phase)),
            Err(RpcFault::Params { id, initialize }) => {
                one_error(alloc, Some(id), params_in(self.phase, initialize))
            }
            Err(RpcFault::Memory) => Err(AllocError),
        }
    }

    /// Takes one message, or what stands in its place. Once memory was refused the server has
    /// failed, and refuses every message.
    pub fn handle(
        &mut self,
        alloc: Global,
        message: Result<Message, RpcFault>,
    ) -> Result<Out, AllocError>
        ensures step { IfOk result (λ out.
            StepOn (received_of message) (state_view self.old) (sent out) out.stop
            (state_view self.new)) }
        ensures failed { has_failed self.old ≡ true → IsErr result }
        ensures err { OnErr result (has_failed self.new ≡ true) }
        ensures ok { OnOk result (has_failed self.new ≡ false) }
        ensures language { language_of self.new ≡ language_of self.old }
    {
        if self.has_failed {
            return Err(AllocError);
        }
        let outcome = self.step(alloc, message);
        self.has_failed = outcome.is_err();
        outcome
    }
}
