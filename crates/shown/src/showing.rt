//! The core's answers as they are sent.

ghost use Rattle.std.specs.Prelude.{◌≡◌, Some, map, option_map, string_bytes, IfOk, IfSome, OnOk};
ghost use Rattle.docs.specs.Docs.{IsCurrent};
ghost use Rattle.replies.specs.Ids.{id_view};
ghost use Rattle.rpc.specs.Replies.{diagnostic_view, folds_reply, published_diagnostics, reply_view, selections_reply};
ghost use Rattle.server.specs.States.{language_of};
ghost use Rattle.editor_replies.specs.Sent.{message_view};
ghost use Rattle.shown.specs.Shown.{comment_of, shown_data, AreShown, IsPushed, IsShown};

use crate::faulty::{ToldFault, more_folds, told_fault};
use crate::grown::{grown_folds, grown_selections};
use crate::known::Known;
use crate::losses::{lost_by, told_about};
use definitions::{Diagnostic, Range};
use docs::Doc;
use editor_replies::{Fault, Sent};
use mending::Mending;
use outline::mended_selections;
use questions::Subject;
use rpc::{Id, Reply};
use std::alloc::{AllocError, Global};

impl Known {
    /// What begins a comment; empty where nothing does.
    fn comment(&self, alloc: Global) -> Result<String, AllocError>
        ensures { let comment = comment_of self.now.shown.settings in
            IfOk result (λ text. string_bytes text ≡ comment) }
    {
        match &self.shown.settings.comment {
            Some(comment) => String::from_str(alloc, comment.as_str()),
            None => Ok(String::new(alloc)),
        }
    }

    /// The open document of this URI that has a fault, with its mended copy, where it is kept.
    fn mended(&self, uri: &str) -> Option<(&Doc, &Mending)>
        ensures { IfSome result (λ found. IsCurrent (language_of self.now.core) found.0.now) }
    {
        let doc = self.core.server().document(uri).ok()?;
        Some((doc, self.kept(doc)?))
    }

    /// What is said of the fault of the document of this URI, and of those behind it; where it has
    /// none, the core's text.
    fn told_of(&self, alloc: Global, uri: &str, text: &str) -> Result<ToldFault, AllocError> {
        if let Ok(doc) = self.core.server().document(uri)
            && let Some(told) = told_fault(
                alloc,
                self.core.server().language(),
                &self.shown,
                doc,
                uri,
                self.kept(doc),
                self.client.related,
            )?
        {
            return Ok(told);
        }
        Ok(ToldFault {
            message: String::from_str(alloc, text)?,
            related: None,
            behind: Vec::new(alloc),
        })
    }

    /// A fault that the core publishes, as it is shown.
    fn fault(
        &self,
        alloc: Global,
        uri: String,
        version: Option<i32>,
        fault: Diagnostic,
    ) -> Result<Sent, AllocError>
        ensures { let published = Some (diagnostic_view fault) in
            let answer = published_diagnostics (string_bytes uri) version published in
            IfOk result (λ s. IsShown (shown_data self.now.shown) answer (message_view s)) }
    {
        let Diagnostic { range, message } = fault;
        let ToldFault {
            message: words,
            related,
            behind,
        } = self.told_of(alloc, uri.as_str(), message.as_str())?;
        let fault = Fault {
            uri,
            version,
            range,
            words,
            related,
            behind,
        };
        Ok(Sent::Fault {
            fault,
            text: message,
        })
    }

    /// Diagnostics that the core publishes, as they are shown.
    fn published(
        &self,
        alloc: Global,
        uri: String,
        version: Option<i32>,
        diagnostic: Option<Diagnostic>,
    ) -> Result<Sent, AllocError>
        ensures { let fault = option_map diagnostic_view diagnostic in
            let answer = published_diagnostics (string_bytes uri) version fault in
            IfOk result (λ s. IsShown (shown_data self.now.shown) answer (message_view s)) }
    {
        match diagnostic {
            Some(fault) => self.fault(alloc, uri, version, fault),
            None => Ok(Sent::Core(Reply::Diagnostics {
                uri,
                version,
                diagnostic: None,
            })),
        }
    }

    /// Folds of the core as they are sent: with those that the mended copy of the document has
    /// besides.
    fn folds(
        &self,
        alloc: Global,
        id: Id,
        pairs: Vec<(u32, u32)>,
        about: &Subject,
    ) -> Result<Sent, AllocError>
        ensures { let answer = folds_reply (id_view id) pairs.items in
            IfOk result (λ s. IsShown (shown_data self.now.shown) answer (message_view s)) }
    {
        let uri = about.uri.as_str();
        let more = match self.mended(uri) {
            Some((doc, mending)) => {
                more_folds(alloc, self.core.server().language(), doc, mending, &pairs)?
            }
            None => Vec::new(alloc),
        };
        if more.is_empty() {
            return Ok(Sent::Core(Reply::Folds { id, pairs }));
        }
        grown_folds(alloc, id, pairs, more)
    }

    /// Selections of the core as they are sent: in their place those of the mended copy of the
    /// document, where it has one.
    fn selections(
        &self,
        alloc: Global,
        id: Id,
        selections: Vec<Vec<Range>>,
        about: &Subject,
    ) -> Result<Sent, AllocError>
        ensures { let ranges = map (λ r. r.items) selections.items in
            let answer = selections_reply (id_view id) ranges in
            IfOk result (λ s. IsShown (shown_data self.now.shown) answer (message_view s)) }
    {
        let (uri, positions) = (about.uri.as_str(), &about.positions);
        let others = match self.mended(uri) {
            Some((doc, mending)) => {
                let language = self.core.server().language();
                Some(mended_selections(alloc, language, doc, mending, positions)?)
            }
            None => None,
        };
        match others {
            Some(others) if others.len() == selections.len() => {
                grown_selections(alloc, id, selections, others)
            }
            _ => Ok(Sent::Core(Reply::Selections { id, selections })),
        }
    }

    /// An answer of the core as it is sent, where the message is about this.
    fn shown_of(&self, alloc: Global, reply: Reply, about: &Subject) -> Result<Sent, AllocError>
        ensures { IfOk result (λ s.
            IsShown (shown_data self.now.shown) (reply_view reply) (message_view s)) }
    {
        match reply {
            Reply::Capabilities { id, unit } => Ok(Sent::Capabilities {
                id,
                unit,
                name: String::from_str(alloc, self.shown.name.as_str())?,
                comment: self.comment(alloc)?,
                types: self.shown.types,
            }),
            Reply::Diagnostics {
                uri,
                version,
                diagnostic,
            } => self.published(alloc, uri, version, diagnostic),
            Reply::Folds { id, pairs } => self.folds(alloc, id, pairs, about),
            Reply::Selections { id, selections } => self.selections(alloc, id, selections, about),
            reply => Ok(Sent::Core(reply)),
        }
    }

    /// An answer of the core as it is sent, and after it what who edits is told of it. `uri` is
    /// that of the document that may be lost.
    fn push_shown(
        &self,
        alloc: Global,
        messages: &mut Vec<Sent>,
        reply: Reply,
        uri: &str,
        about: &Subject,
    ) -> Result<(), AllocError>
        ensures { let old = map message_view messages.old.items in
            let new = map message_view messages.new.items in
            OnOk result (IsPushed (shown_data self.now.shown) (reply_view reply) old new) }
    {
        let told = told_about(alloc, &reply, uri)?;
        messages.push(self.shown_of(alloc, reply, about)?)?;
        if let Some(told) = told {
            messages.push(told)?;
        }
        Ok(())
    }

    /// What the core has answered as it is sent, each answer with what who edits is told of it.
    /// `uri` is that of the document that the message opens, where it opens one, and `about` what
    /// the message is about. Refuses for memory alone.
    pub fn show(
        &self,
        alloc: Global,
        replies: Vec<Reply>,
        uri: &str,
        about: &Subject,
    ) -> Result<Vec<Sent>, AllocError>
        ensures { let answers = map reply_view replies.items in
            IfOk result (λ messages. AreShown (shown_data self.now.shown) answers
            (map message_view messages.items)) }
    {
        let mut messages = Vec::new(alloc);
        let mut lost = String::from_str(alloc, uri)?;
        for reply in replies {
            if let Some(uri) = lost_by(alloc, &reply)? {
                lost = uri;
            }
            self.push_shown(alloc, &mut messages, reply, lost.as_str(), about)?;
        }
        Ok(messages)
    }
}
