//! The replies to the requests that the core doesn't know.

ghost use Rattle.std.specs.Prelude.{◌≡◌, Some, option_map, string_bytes, IfOk};
ghost use Rattle.std.specs.FinMap.{get};
ghost use Rattle.docs.specs.Docs.{open_document, IsCurrent};
ghost use Rattle.replies.specs.Ids.{id_view};
ghost use Rattle.rpc.specs.Replies.{error_reply};
ghost use Rattle.server.specs.States.{language_of};
ghost use Rattle.editor_replies.specs.Sent.{colours, message_view, own};
ghost use Rattle.questions.specs.Asked.{asked_view, question_view};
ghost use Rattle.own_replies.specs.Replies.{next_name, since, tells, AreBracketsAt, AreChanges, AreOffersAt, AreRepairsOf, IsHover, IsNoneOr, IsOutline, IsReply, IsReplyAbout, IsReplyOf, IsSomeResultIfFit};
ghost use Rattle.own_replies.specs.Servers.{after, replying_state, state_with};

use crate::grammars::grammar_reply;
use crate::offered::all_offered;
use crate::results::{Results, Told, change, since};
use crate::ways::ways_in;
use colours::{full, lines};
use completion::{Offers, offers_at};
use definitions::{Position, Range};
use docs::{Doc, Language};
use editor_replies::{Sent, Value, fixes_value, nodes_value, rows_value};
use faults::About;
use flat_trees::{following, looked_at};
use hover::{Markup, brackets, hover};
use mending::Repair;
use outline::outline;
use questions::{Asked, Own, Question};
use rpc::{Id, Refusal, Reply};
use shown::Known;
use std::alloc::{AllocError, Global};
use token_rows::token_rows;
use wording::{END, word};

/// A reply about a document, and the colours that are told by it, where they are a whole
/// document's.
#[derive(Drop)]
struct Replied {
    message: Sent,
    told: Option<Told>,
}

/// What a reply is made of.
#[derive(Clone, Copy)]
struct Replying<'a> {
    known: &'a Known,
    results: &'a Results,
}

/// The refusal of a request that the core doesn't know.
fn refused(id: Id, refusal: Refusal) -> Sent
    ensures { message_view result ≡ own (error_reply (Some (id_view id)) refusal) }
{
    Sent::Own(Reply::Error {
        id: Some(id),
        refusal,
    })
}

impl<'a> Replying<'a> {
    /// The name of the next result with the colours of a whole document.
    fn next_name(&self, alloc: Global) -> Result<String, AllocError>
        ensures { let old = replying_state self.now in
            IfOk result (λ name. string_bytes name ≡ next_name old) }
    {
        let number = self.results.number.saturating_add(1);
        format!(in alloc; "{number}")
    }

    /// The reply with these colours of a whole document.
    fn whole(
        &self,
        alloc: Global,
        id: Id,
        uri: &str,
        numbers: Vec<u32>,
    ) -> Result<Replied, AllocError>
        ensures { let old = replying_state self.now in
            let new = tells old uri.now numbers.items in
            IfOk result (λ r.
            (message_view r.message ≡ colours (id_view id) (Some (next_name old)) numbers.items)
            × (after old r.told ≡ new)) }
    {
        Ok(Replied {
            message: Sent::Colours {
                id,
                name: Some(self.next_name(alloc)?),
                numbers: numbers.clone()?,
            },
            told: Some(Told {
                uri: String::from_str(alloc, uri)?,
                name: self.next_name(alloc)?,
                numbers,
            }),
        })
    }

    /// The reply with what has changed to these colours of a whole document since a result; where
    /// that isn't the last one of the document, with all of them.
    fn changed(
        &self,
        alloc: Global,
        id: Id,
        uri: &str,
        previous: &str,
        numbers: Vec<u32>,
    ) -> Result<Replied, AllocError>
        ensures { let old = replying_state self.now in
            let new = tells old uri.now numbers.items in
            let before = since old.told uri.now previous.now in
            IfOk result (λ r.
            AreChanges (id_view id) (next_name old) before numbers.items
            (message_view r.message) × (after old r.told ≡ new)) }
    {
        let Some(before) = since(&self.results.last, uri, previous) else {
            return self.whole(alloc, id, uri, numbers);
        };
        Ok(Replied {
            message: Sent::Changes {
                id,
                name: self.next_name(alloc)?,
                change: change(alloc, before, &numbers)?,
            },
            told: Some(Told {
                uri: String::from_str(alloc, uri)?,
                name: self.next_name(alloc)?,
                numbers,
            }),
        })
    }

    /// The language of the documents.
    fn language(&self) -> &Language
        ensures { result.now ≡ language_of self.now.known.now.core }
    {
        self.known.core.server().language()
    }

    /// What mends a document, where a copy is kept.
    fn repairs(&self, doc: &Doc) -> &[Repair]
        requires { IsCurrent (language_of self.now.known.now.core) doc.now }
        ensures { let file = (replying_state self.now).core.file in
            AreRepairsOf file doc.now.text result.now }
    {
        match self.known.kept(doc) {
            Some(mending) => mending.repairs(),
            None => &[],
        }
    }

    /// The reply with what may follow at a position of an open document.
    fn offers(
        &self,
        alloc: Global,
        id: Id,
        uri: &str,
        doc: &Doc,
        position: Position,
    ) -> Result<Sent, AllocError>
        requires { IsCurrent (language_of self.now.known.now.core) doc.now }
        ensures { let document = open_document doc.now in
            IfOk result (λ message.
            AreOffersAt (replying_state self.now) (id_view id) document position
            (message_view message)) }
    {
        let (text, unit, language) = (doc.characters(), doc.unit(), self.language());
        let offset = text.offset(unit, position);
        let (texts, repairs) = (&self.known.shown.texts, self.repairs(doc));
        let Offers { start, offers } = offers_at(alloc, language, texts, doc, repairs, offset)?;
        let range = Range {
            start: text.position(unit, start),
            end: text.position(unit, offset),
        };
        let palette = &self.known.shown.settings.colours;
        let found = all_offered(alloc, language.grammar(), palette, &offers)?;
        Ok(Sent::Offers { id, range, found })
    }

    /// The URI of a document whose symbols are sent one after another, since the editor knows no
    /// others.
    fn list_of(&self, alloc: Global, uri: &str) -> Result<Option<String>, AllocError>
        ensures { IfOk result (λ list_of. IsNoneOr uri.now
            (option_map (λ text. string_bytes text) list_of)) }
    {
        if self.known.client.nested {
            Ok(None)
        } else {
            Ok(Some(String::from_str(alloc, uri)?))
        }
    }

    /// The reply with the outline of an open document, in the form that the editor knows.
    fn outline(&self, alloc: Global, id: Id, uri: &str, doc: &Doc) -> Result<Sent, AllocError>
        requires { IsCurrent (language_of self.now.known.now.core) doc.now }
        ensures { let document = open_document doc.now in
            IfOk result (λ message.
            IsOutline (replying_state self.now) (id_view id) uri.now document
            (message_view message)) }
    {
        let (language, settings) = (self.language(), &self.known.shown.settings);
        let list_of = self.list_of(alloc, uri)?;
        let symbols = outline(alloc, language, settings, doc, self.known.kept(doc))?;
        Ok(Sent::Outline {
            id,
            list_of,
            symbols,
        })
    }

    /// The reply with the text about what stands at a position of an open document, in the form
    /// that the editor likes.
    fn hover(
        &self,
        alloc: Global,
        id: Id,
        doc: &Doc,
        position: Position,
    ) -> Result<Sent, AllocError>
        requires { IsCurrent (language_of self.now.known.now.core) doc.now }
        ensures { let document = open_document doc.now in
            IfOk result (λ message.
            IsHover (id_view id) document position (message_view message)) }
    {
        let form = if self.known.client.markdown {
            Markup::Markdown
        } else {
            Markup::Plain
        };
        let (language, settings) = (self.language(), &self.known.shown.settings);
        let copy = self.known.kept(doc);
        let found = hover(alloc, language, settings, doc, copy, position, form)?;
        Ok(Sent::Hover { id, found, form })
    }

    /// The reply with the brackets of a node of an open document, one of which is at a position.
    fn brackets(
        &self,
        alloc: Global,
        id: Id,
        doc: &Doc,
        position: Position,
    ) -> Result<Sent, AllocError>
        ensures { let document = open_document doc.now in
            IfOk result (λ message.
            AreBracketsAt (id_view id) document position (message_view message)) }
    {
        let pair = brackets(alloc, self.language(), doc, self.known.kept(doc), position)?;
        Ok(Sent::Brackets { id, pair })
    }

    /// What mends the faults at a range of an open document.
    fn fixes(&self, alloc: Global, uri: &str, doc: &Doc, range: Range) -> Result<Value, AllocError>
        requires { IsCurrent (language_of self.now.known.now.core) doc.now }
    {
        let Some(mending) = self.known.kept(doc) else {
            return fixes_value(alloc, uri, &[]);
        };
        let about = About {
            alloc,
            language: self.language(),
            settings: &self.known.shown.settings,
            texts: &self.known.shown.texts,
            doc,
            mending,
        };
        fixes_value(alloc, uri, &about.fixes(range)?)
    }

    /// The tokens of an open document on the lines from one up to another.
    fn rows(&self, alloc: Global, doc: &Doc, from: u32, to: u32) -> Result<Value, AllocError> {
        let rows = token_rows(alloc, self.language(), doc, from, to)?;
        rows_value(alloc, doc.version(), &rows)
    }

    /// What may follow at a position of an open document, in words.
    fn follow(
        &self,
        alloc: Global,
        doc: &Doc,
        position: Position,
    ) -> Result<Vec<String>, AllocError>
        requires { IsCurrent (language_of self.now.known.now.core) doc.now }
    {
        let (language, settings) = (self.language(), &self.known.shown.settings);
        let copy = self.known.kept(doc);
        let mut words = Vec::new(alloc);
        for look in following(alloc, language, doc, copy, position)? {
            let word = match look {
                Some(rule) => word(alloc, language.grammar(), settings, rule)?,
                None => String::from_str(alloc, END)?,
            };
            words.push(word)?;
        }
        Ok(words)
    }

    /// The reply with the nodes around a position of an open document, and those that a value
    /// names, and with what may follow there.
    fn nodes(
        &self,
        alloc: Global,
        id: Id,
        doc: &Doc,
        position: Position,
        open: &Value,
    ) -> Result<Sent, AllocError>
        requires { IsCurrent (language_of self.now.known.now.core) doc.now }
        ensures { IfOk result (λ message.
            IsSomeResultIfFit (id_view id) (message_view message)) }
    {
        let Some(named) = ways_in(alloc, open)? else {
            return Ok(refused(id, Refusal::InvalidParams));
        };
        let copy = self.known.kept(doc);
        let looked = looked_at(alloc, self.language(), doc, copy, position, &named)?;
        let follow = self.follow(alloc, doc, position)?;
        Ok(Sent::Result {
            id,
            value: nodes_value(alloc, doc.version(), &looked, &follow)?,
        })
    }

    /// The reply to a question about an open document.
    fn reply_of(
        &self,
        alloc: Global,
        id: Id,
        uri: &str,
        doc: &Doc,
        question: &Question,
    ) -> Result<Replied, AllocError>
        requires { IsCurrent (language_of self.now.known.now.core) doc.now }
        ensures { let old = replying_state self.now in
            let document = open_document doc.now in
            let question = question_view question.now in
            IfOk result (λ r.
            IsReplyOf old (id_view id) uri.now document question
            (message_view r.message) (after old r.told)) }
    {
        let palette = &self.known.shown.settings.colours;
        let message = match question {
            Question::Colours => {
                return self.whole(alloc, id, uri, full(alloc, palette, doc)?);
            }
            Question::Changes(previous) => {
                let numbers = full(alloc, palette, doc)?;
                return self.changed(alloc, id, uri, previous.as_str(), numbers);
            }
            Question::Lines(first, end) => Sent::Colours {
                id,
                name: None,
                numbers: lines(alloc, palette, doc, *first, *end)?,
            },
            Question::Offers(position) => self.offers(alloc, id, uri, doc, *position)?,
            Question::Outline => self.outline(alloc, id, uri, doc)?,
            Question::Hover(position) => self.hover(alloc, id, doc, *position)?,
            Question::Brackets(position) => self.brackets(alloc, id, doc, *position)?,
            Question::Fixes(range) => Sent::Result {
                id,
                value: self.fixes(alloc, uri, doc, *range)?,
            },
            Question::Rows(from, to) => Sent::Result {
                id,
                value: self.rows(alloc, doc, *from, *to)?,
            },
            Question::Nodes(position, open) => self.nodes(alloc, id, doc, *position, open)?,
        };
        Ok(Replied {
            message,
            told: None,
        })
    }

    /// The reply to a question about the document of this URI.
    fn reply_about(
        &self,
        alloc: Global,
        id: Id,
        uri: &str,
        question: &Question,
    ) -> Result<Replied, AllocError>
        ensures { let old = replying_state self.now in
            let document = get old.core.documents uri.now in
            let question = question_view question.now in
            IfOk result (λ r.
            IsReplyAbout old (id_view id) uri.now document question
            (message_view r.message) (after old r.told)) }
    {
        match self.known.core.server().document(uri) {
            Ok(doc) => self.reply_of(alloc, id, uri, doc, question),
            Err(refusal) => Ok(Replied {
                message: refused(id, refusal),
                told: None,
            }),
        }
    }

    /// The reply to a request that is answered here.
    fn reply(&self, alloc: Global, id: Id, asked: Asked) -> Result<Replied, AllocError>
        ensures { let old = replying_state self.now in
            IfOk result (λ r.
            IsReply old (id_view id) (asked_view asked)
            (message_view r.message) (after old r.told)) }
    {
        match asked {
            Asked::About(uri, question) => self.reply_about(alloc, id, uri.as_str(), &question),
            Asked::Grammar(text) => Ok(Replied {
                message: grammar_reply(alloc, id, text.as_str())?,
                told: None,
            }),
            Asked::Misfit => Ok(Replied {
                message: refused(id, Refusal::InvalidParams),
                told: None,
            }),
        }
    }
}

/// The reply to a request that the core doesn't know. Colours of a whole document that are told by
/// it are the last result from then on. Refuses for memory alone.
pub fn reply(
    alloc: Global,
    known: &Known,
    results: &mut Results,
    request: Own,
) -> Result<Sent, AllocError>
    ensures { let core = known.now.core in
        let shown = known.now.shown in
        let old = state_with core shown results.old in
        let new = state_with core shown results.new in
        IfOk result (λ message.
        IsReply old (id_view request.id) (asked_view request.asked) (message_view message) new) }
{
    let Own { id, asked } = request;
    let replying = Replying { known, results };
    let Replied { message, told } = replying.reply(alloc, id, asked)?;
    results.add(told);
    Ok(message)
}
