//! The core, with a mended copy of one of its documents.

ghost use Rattle.std.specs.Prelude.{◌≡◌, true, false, IfOk, IfSome, IsErr, List, OnErr, OnOk};
ghost use Rattle.definitions.specs.declared.Kind.{Kind};
ghost use Rattle.docs.specs.Docs.{IsCurrent};
ghost use Rattle.lexer.specs.Rescans.{significant_kinds};
ghost use Rattle.mending.specs.Mendings.{IsMendingOf};
ghost use Rattle.rpc.specs.Messages.{received_of};
ghost use Rattle.sessions.specs.Sent.{sent};
ghost use Rattle.sessions.specs.Steps.{StepOn, first_state};
ghost use Rattle.server.specs.States.{has_failed, language_of, state_view};
ghost use Rattle.shown.specs.Kept.{IsCopyBy};

use docs::{Doc, Language, Significant};
use faults::{followed, mended};
use mending::Mending;
use parser::Verdict;
use rpc::{Message, RpcFault};
use server::{Out, Server};
use settings::RuleText;
use std::alloc::{AllocError, Global};
use std::marker::Model;

/// A mended copy of the document of a URI, as it is or as it was.
#[derive(Drop)]
struct Copied {
    uri: String,
    mending: Mending,
}

/// The server of the documents, with the last mended copy that was asked for. When it is asked for
/// again, it follows what has changed of the document, though this had no fault in between.
#[derive(Drop)]
pub struct Kept {
    server: Server,
    copied: Option<Copied>,
}

impl Model for Kept {
    ghost use Rattle.std.specs.Coded.{codes};
    ghost use Rattle.definitions.specs.contracts.expression.Expression as e;
    ghost use Rattle.server.specs.declared.state.Server.{Server as PlainServer};
    ghost use Rattle.server.specs.States.{language_of};
    ghost use Rattle.sessions.specs.Stored.{held_code};
    ghost use Rattle.shown.specs.Kept.{IsKeptBy};

    ghost Value = { PlainServer };

    ghost coded = { Prim.hlevel (codes, held_code, e.the_row.coded) };

    ghost view = { λ k. k.server };

    ghost invariant = { λ k. IsKeptBy (language_of k.server) k.copied };
}

/// Whether a document has a fault.
fn has_fault(doc: &Doc) -> bool {
    !matches!(doc.parse().verdict(), Verdict::Tree(_))
}

/// The mended copy of a document, by one of a text that it may have had before; this one, where
/// the document has no fault, or those that it was mended of.
fn kept_up(
    alloc: Global,
    language: &Language,
    texts: &[Option<RuleText>],
    doc: &Doc,
    before: Mending,
) -> Result<Mending, AllocError>
    requires doc { IsCurrent language.now doc.now }
    requires before { (kinds : List Kind) × IsMendingOf language.now.tables kinds before }
    ensures { IfOk result (λ m. (kinds : List Kind) × IsMendingOf language.now.tables kinds m) }
{
    if !has_fault(doc) || before.is_of(&Significant(doc.tokens())) {
        return Ok(before);
    }
    followed(alloc, language, texts, doc, before)
}

/// The mended copy of a document, by the last one, if there is one.
fn copy_of(
    alloc: Global,
    language: &Language,
    texts: &[Option<RuleText>],
    doc: &Doc,
    before: Option<Mending>,
) -> Result<Option<Mending>, AllocError>
    requires doc { IsCurrent language.now doc.now }
    requires before { IsCopyBy language.now before }
    ensures { IfOk result (IsCopyBy language.now) }
{
    match before {
        Some(mending) => Ok(Some(kept_up(alloc, language, texts, doc, mending)?)),
        None => mended(alloc, language, texts, doc),
    }
}

impl Kept {
    /// A server that no message has reached.
    pub fn new(alloc: Global, language: Language) -> Kept
        ensures { state_view result ≡ first_state language.file }
    {
        Kept {
            server: Server::new(alloc, language),
            copied: None,
        }
    }

    /// The server.
    pub fn server(&self) -> &Server
        ensures { result.now ≡ self.now }
    {
        &self.server
    }

    /// A step of the server, as `Server::handle` promises it.
    pub fn handle(
        &mut self,
        alloc: Global,
        message: Result<Message, RpcFault>,
    ) -> Result<Out, AllocError>
        ensures step { IfOk result (λ out.
            StepOn (received_of message) (state_view self.old) (sent out) out.stop
            (state_view self.new)) }
        ensures failed { has_failed self.old ≡ true → IsErr result }
        ensures err { OnErr result (has_failed self.new ≡ true) }
        ensures ok { OnOk result (has_failed self.new ≡ false) }
        ensures language { language_of self.new ≡ language_of self.old }
    {
        self.server.handle(alloc, message)
    }

    /// Another server takes the place of this one.
    pub fn replace(&mut self, server: Server)
        ensures { self.new ≡ server }
    {
        self.copied = None;
        self.server = server;
    }

    /// The last mended copy of the document of this URI, which isn't kept any more; that of
    /// another document is let go of.
    fn take_copy(&mut self, uri: &str) -> Option<Mending>
        ensures server { self.new ≡ self.old }
        ensures copy { IsCopyBy (language_of self.old) result }
    {
        match self.copied.take() {
            Some(copied) if copied.uri.as_str() == uri => Some(copied.mending),
            _ => None,
        }
    }

    /// Keeps the mended copy of the document of this URI, if it is open and has a fault. `texts`
    /// are those of the rules of its language. Refuses for memory alone.
    pub fn keep_copy(
        &mut self,
        alloc: Global,
        texts: &[Option<RuleText>],
        uri: &str,
    ) -> Result<(), AllocError>
        ensures { self.new ≡ self.old }
    {
        let before = self.take_copy(uri);
        let Ok(doc) = self.server.document(uri) else {
            return Ok(());
        };
        let mending = copy_of(alloc, self.server.language(), texts, doc, before)?;
        if let Some(mending) = mending {
            let uri = String::from_str(alloc, uri)?;
            self.copied = Some(Copied { uri, mending });
        }
        Ok(())
    }

    /// The mended copy of a document, if it is kept; none of a document without a fault.
    pub(crate) fn copy(&self, doc: &Doc) -> Option<&Mending>
        ensures { IfSome result (λ m. IsMendingOf (language_of self.now).tables
            (significant_kinds doc.now.tokens.items) m.now) }
    {
        let copied = self.copied.as_ref()?;
        let is_kept = has_fault(doc) && copied.mending.is_of(&Significant(doc.tokens()));
        is_kept.then_some(&copied.mending)
    }
}
