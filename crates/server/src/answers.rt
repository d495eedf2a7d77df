//! What is answered about a document, and published of it.

ghost use Rattle.std.specs.Prelude.{IfOk};
ghost use Rattle.docs.specs.Docs.{open_document, IsCurrent};
ghost use Rattle.rpc.specs.Ids.{id_view};
ghost use Rattle.rpc.specs.Replies.{reply_view};
ghost use Rattle.sessions.specs.Answers.{IsAnswerOf, IsPublished};
ghost use Rattle.server.specs.Questions.{question_view};

use crate::question::Question;
use docs::{Doc, Language};
use rpc::{Id, Reply};
use std::alloc::{AllocError, Global};

/// The reply to a question about an open document. Refuses for memory alone.
pub fn answer(
    alloc: Global,
    language: &Language,
    doc: &Doc,
    id: Id,
    question: &Question,
) -> Result<Reply, AllocError>
    requires { IsCurrent language.now doc.now }
    ensures { let document = open_document doc.now in
        let question = question_view question.now in
        IfOk result (λ reply.
        IsAnswerOf language.now.file (id_view id) document question (reply_view reply)) }
{
    match question {
        Question::Text => Ok(Reply::Text {
            id,
            version: doc.version(),
            text: doc.text(alloc)?,
        }),
        Question::Tokens => Ok(Reply::Tokens {
            id,
            rows: doc.rows(alloc, language)?,
        }),
        Question::Tree => match doc.tree(alloc, language)? {
            Some(text) => Ok(Reply::Tree { id, text }),
            None => Ok(Reply::Null { id }),
        },
        Question::Folds => Ok(Reply::Folds {
            id,
            pairs: doc.folds(alloc, language)?,
        }),
        Question::Selections(positions) => Ok(Reply::Selections {
            id,
            selections: doc.selections(alloc, positions)?,
        }),
    }
}

/// The diagnostics of an open document, with its version. Refuses for memory alone.
pub fn publish(
    alloc: Global,
    language: &Language,
    doc: &Doc,
    uri: &str,
) -> Result<Reply, AllocError>
    requires { IsCurrent language.now doc.now }
    ensures { let document = open_document doc.now in
        IfOk result (λ reply. IsPublished language.now.file uri.now document (reply_view reply)) }
{
    Ok(Reply::Diagnostics {
        uri: String::from_str(alloc, uri)?,
        version: Some(doc.version()),
        diagnostic: doc.diagnostic(alloc, language)?,
    })
}
