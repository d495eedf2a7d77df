//! What who edits is told of a document that isn't looked at.

ghost use Rattle.std.specs.Prelude.{[], ◌∷◌, IfOk};
ghost use Rattle.editor_replies.specs.Sent.{message_view};
ghost use Rattle.shown.specs.Shown.{told_messages, AreTold, IsTold};
ghost use Rattle.replies.specs.Replies.{log_message, reply_view};

use editor_replies::{Sent, told_value};
use percent_encoding::percent_decode_str;
use rpc::{Log, Loss, Reply};
use std::alloc::{AllocError, Global};

/// The protocol's number of errors (LSP 3.17, "MessageType").
const ERROR: u32 = 1;

/// The name of a document: the last part of its URI.
fn name_of(alloc: Global, uri: &str) -> Result<String, AllocError> {
    let last = match uri.rsplit_once('/') {
        Some((_, last)) if !last.is_empty() => last,
        _ => uri,
    };
    percent_decode_str(last)
        .decode_utf8_lossy(alloc)?
        .into_owned(alloc)
}

/// What to do about a document that is lost.
fn loss_words(loss: Loss) -> &'static str {
    match loss {
        Loss::TooLarge => "has more than 1,048,576 bytes: make it shorter, close it",
        Loss::Memory => "has too little memory: close other files, close it",
        Loss::MalformedChange => "was changed by a malformed message of the editor: close it",
    }
}

/// What who edits is told of the document of this URI, and what to do.
fn warning(alloc: Global, uri: &str, words: &str) -> Result<Sent, AllocError>
    ensures { IfOk result (λ message. IsTold (message_view message ∷ [])) }
{
    let name = name_of(alloc, uri)?;
    let text = format!(in alloc;
        "lrls: {name} {words}, and open it again; until then it isn't looked at"
    )?;
    Ok(Sent::Notice {
        method: "window/showMessage",
        params: told_value(alloc, ERROR, text.as_str())?,
    })
}

/// What who edits is told of the document of this URI, where this is logged of it.
fn told_of(alloc: Global, uri: &str, log: Log) -> Result<Option<Sent>, AllocError>
    ensures { IfOk result (λ told. AreTold (log_message log) (told_messages told)) }
{
    match log {
        Log::Lost(loss) => Ok(Some(warning(alloc, uri, loss_words(loss))?)),
        Log::TooManyDocuments => {
            let words = "is the 65th document: close another one";
            Ok(Some(warning(alloc, uri, words)?))
        }
        _ => Ok(None),
    }
}

/// What who edits is told of what the core answers about the document of this URI.
pub(crate) fn told_about(
    alloc: Global,
    reply: &Reply,
    uri: &str,
) -> Result<Option<Sent>, AllocError>
    ensures { IfOk result (λ told. AreTold (reply_view reply.now) (told_messages told)) }
{
    match reply {
        Reply::Log { log } => told_of(alloc, uri, *log),
        _ => Ok(None),
    }
}

/// The URI of a document that the core has closed or lost by this answer, if it has.
pub(crate) fn lost_by(alloc: Global, reply: &Reply) -> Result<Option<String>, AllocError> {
    match reply {
        Reply::Diagnostics {
            uri,
            version: None,
            ..
        } => Ok(Some(String::from_str(alloc, uri.as_str())?)),
        _ => Ok(None),
    }
}
