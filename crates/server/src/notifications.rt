//! What a notification does to the documents.

ghost use Rattle.std.specs.Prelude.{◌≡◌, map, IfOk, string_bytes};
ghost use Rattle.std.specs.Str.{chars};
ghost use Rattle.std.specs.FinMap.{get, insert};
ghost use Rattle.rpc.specs.Messages.{note_view, malformed_view, change_view};
ghost use Rattle.sessions.specs.Documents.{has_room};
ghost use Rattle.sessions.specs.Sent.{sent};
ghost use Rattle.sessions.specs.Steps.{State, new_document, exit_status, Changes, Closes, Holds, OnMalformed, Opens, Spoils, OnNotification};
ghost use Rattle.server.specs.Holding.{entry_view, IsEntryOf};
ghost use Rattle.server.specs.States.{language_of, state_view};

use crate::answers::publish;
use crate::changes::apply_changes;
use crate::entry::{Entry, open_entry};
use crate::out::{no_diagnostics, nothing, one_log, one_reply, reply_and_log};
use crate::state::Server;
use rpc::{Change, Log, Loss, Malformed, Note, Unit};
use sessions::{Out, Phase};
use std::alloc::{AllocError, Global};

fn exit_status(phase: Phase) -> u8
    ensures { result ≡ exit_status phase }
{
    match phase {
        Phase::New | Phase::Ready(_) => 1,
        Phase::Down => 0,
    }
}

impl Server {
    /// Publishes an entry: its diagnostics if it is open, else empty ones, and the log message of
    /// the loss.
    fn announce(&self, alloc: Global, uri: &str, entry: &Entry) -> Result<Out, AllocError>
        requires { IsEntryOf self.now.documents.language entry.now }
        ensures { let old = state_view self.now in
            let state = entry_view entry.now in
            let held = insert old.documents uri.now state in
            let new : State = record { file = old.file; phase = old.phase; documents = held } in
            IfOk result (λ out. Holds old uri.now state (sent out) out.stop new) }
    {
        match entry {
            Entry::Open(doc) => {
                let language = self.documents.language();
                one_reply(alloc, publish(alloc, language, doc, uri)?)
            }
            Entry::Lost(loss) => reply_and_log(
                alloc,
                no_diagnostics(alloc, uri)?,
                Log::Lost(*loss),
            ),
        }
    }

    /// Holds what a document became, and publishes it.
    fn hold(&mut self, alloc: Global, uri: String, entry: Entry) -> Result<Out, AllocError>
        requires { IsEntryOf self.old.documents.language entry }
        ensures step { let state = entry_view entry in
            IfOk result (λ out.
            let old = state_view self.old in
            Holds old (string_bytes uri) state (sent out) out.stop (state_view self.new)) }
        ensures language { language_of self.new ≡ language_of self.old }
    {
        let out = self.announce(alloc, uri.as_str(), &entry);
        self.documents.insert(uri, entry)?;
        out
    }

    /// `textDocument/didOpen`, where positions count this unit.
    fn open(
        &mut self,
        alloc: Global,
        unit: Unit,
        uri: String,
        version: i32,
        text: String,
    ) -> Result<Out, AllocError>
        ensures step { let old = state_view self.old in
            let room = has_room (string_bytes uri) old.documents in
            let state = new_document unit version (chars (string_bytes text)) in
            IfOk result (λ out.
            Opens room old (string_bytes uri) state (sent out) out.stop (state_view self.new)) }
        ensures language { language_of self.new ≡ language_of self.old }
    {
        if !self.documents.has_room(uri.as_str()) {
            return one_log(alloc, Log::TooManyDocuments);
        }
        // The document that this one replaces goes first, since the two may not both have room.
        self.documents.remove(uri.as_str());
        let language = self.documents.language();
        let entry = open_entry(alloc, language, unit, version, text.as_str())?;
        self.hold(alloc, uri, entry)
    }

    /// `textDocument/didChange`.
    fn change(
        &mut self,
        alloc: Global,
        uri: String,
        version: i32,
        changes: &[Change],
    ) -> Result<Out, AllocError>
        ensures step { let old = state_view self.old in
            let uri = string_bytes uri in
            let changes = map change_view changes.now in
            IfOk result (λ out.
            Changes (get old.documents uri) old uri version changes (sent out) out.stop
            (state_view self.new)) }
        ensures language { language_of self.new ≡ language_of self.old }
    {
        match self.documents.get(uri.as_str()) {
            None => return one_log(alloc, Log::ChangeNotOpen),
            Some(Entry::Lost(_)) => return Ok(nothing(alloc)),
            Some(Entry::Open(_)) => {}
        }
        // what is held stays under its URI, so that no memory is needed for the document that
        // comes back
        let Some(Entry::Open(doc)) = self.documents.take(uri.as_str()) else {
            unreachable!();
        };
        let entry = apply_changes(alloc, self.documents.language(), doc, version, changes);
        self.hold(alloc, uri, entry)
    }

    /// A `textDocument/didChange` of this document that doesn't fit: an open document is lost.
    fn on_malformed_change(&mut self, alloc: Global, uri: String) -> Result<Out, AllocError>
        ensures step { let old = state_view self.old in
            let uri = string_bytes uri in
            IfOk result (λ out.
            Spoils (get old.documents uri) old uri (sent out) out.stop (state_view self.new)) }
        ensures language { language_of self.new ≡ language_of self.old }
    {
        match self.documents.get(uri.as_str()) {
            None => one_log(alloc, Log::ChangeNotOpen),
            Some(Entry::Lost(_)) => Ok(nothing(alloc)),
            Some(Entry::Open(_)) => self.hold(alloc, uri, Entry::Lost(Loss::MalformedChange)),
        }
    }

    /// `textDocument/didClose`.
    fn close(&mut self, alloc: Global, uri: String) -> Result<Out, AllocError>
        ensures step { let old = state_view self.old in
            let uri = string_bytes uri in
            IfOk result (λ out.
            Closes (get old.documents uri) old uri (sent out) out.stop (state_view self.new)) }
        ensures language { language_of self.new ≡ language_of self.old }
    {
        if !self.documents.remove(uri.as_str()) {
            return one_log(alloc, Log::CloseNotOpen);
        }
        one_reply(alloc, no_diagnostics(alloc, uri.as_str())?)
    }

    /// A notification whose parameters don't fit.
    fn on_malformed(&mut self, alloc: Global, malformed: Malformed) -> Result<Out, AllocError>
        ensures step { IfOk result (λ out.
            let unfit = malformed_view malformed in
            OnMalformed (state_view self.old) unfit (sent out) out.stop (state_view self.new)) }
        ensures language { language_of self.new ≡ language_of self.old }
    {
        match malformed {
            Malformed::DidOpen => one_log(alloc, Log::OpenMalformed),
            Malformed::DidChange { uri: None } => one_log(alloc, Log::ChangeMalformed),
            Malformed::DidChange { uri: Some(uri) } => self.on_malformed_change(alloc, uri),
            Malformed::DidClose => one_log(alloc, Log::CloseMalformed),
        }
    }

    /// Makes the step on a notification, whether or not it fits its method.
    pub(crate) fn on_notification(&mut self, alloc: Global, note: Note) -> Result<Out, AllocError>
        ensures step { IfOk result (λ out.
            OnNotification self.old.phase (state_view self.old) (note_view note) (sent out)
            out.stop (state_view self.new)) }
        ensures language { language_of self.new ≡ language_of self.old }
    {
        match (self.phase, note) {
            (phase, Note::Exit) => Ok(Out {
                replies: Vec::new(alloc),
                stop: Some(exit_status(phase)),
            }),
            (Phase::Ready(unit), Note::DidOpen { uri, version, text }) => {
                self.open(alloc, unit, uri, version, text)
            }
            (
                Phase::Ready(_),
                Note::DidChange {
                    uri,
                    version,
                    changes,
                },
            ) => self.change(alloc, uri, version, &changes),
            (Phase::Ready(_), Note::DidClose { uri }) => self.close(alloc, uri),
            (Phase::Ready(_), Note::Malformed(malformed)) => self.on_malformed(alloc, malformed),
            _ => Ok(nothing(alloc)),
        }
    }
}
