//! The answers to a message, as they are made.

ghost use Rattle.std.specs.Prelude.{◌≡◌, [], ◌∷◌, None, option_map, IfOk};
ghost use Rattle.rpc.specs.Ids.{id_view};
ghost use Rattle.rpc.specs.Replies.{reply_view, error_reply, log_message, published_diagnostics};
ghost use Rattle.sessions.specs.Sent.{sent};

use rpc::{Id, Log, Refusal, Reply};
use sessions::Out;
use std::alloc::{AllocError, Global};

/// No answers.
pub(crate) fn nothing(alloc: Global) -> Out
    ensures replies { sent result ≡ [] }
    ensures stop { result.stop ≡ None }
{
    Out {
        replies: Vec::new(alloc),
        stop: None,
    }
}

/// One answer. Refuses for memory alone, as all that follow.
pub(crate) fn one_reply(alloc: Global, reply: Reply) -> Result<Out, AllocError>
    ensures replies { IfOk result (λ out. sent out ≡ reply_view reply ∷ []) }
    ensures stop { IfOk result (λ out. out.stop ≡ None) }
{
    let mut replies = Vec::new(alloc);
    replies.push(reply)?;
    Ok(Out {
        replies,
        stop: None,
    })
}

/// An error reply, to the request with this id.
pub(crate) fn one_error(alloc: Global, id: Option<Id>, refusal: Refusal) -> Result<Out, AllocError>
    ensures replies { IfOk result (λ out.
        sent out ≡ error_reply (option_map id_view id) refusal ∷ []) }
    ensures stop { IfOk result (λ out. out.stop ≡ None) }
{
    one_reply(alloc, Reply::Error { id, refusal })
}

/// One log message.
pub(crate) fn one_log(alloc: Global, log: Log) -> Result<Out, AllocError>
    ensures replies { IfOk result (λ out. sent out ≡ log_message log ∷ []) }
    ensures stop { IfOk result (λ out. out.stop ≡ None) }
{
    one_reply(alloc, Reply::Log { log })
}

/// An answer, and a log message after it.
pub(crate) fn reply_and_log(alloc: Global, reply: Reply, log: Log) -> Result<Out, AllocError>
    ensures replies { IfOk result (λ out. sent out ≡ reply_view reply ∷ log_message log ∷ []) }
    ensures stop { IfOk result (λ out. out.stop ≡ None) }
{
    let mut out = one_reply(alloc, reply)?;
    out.replies.push(Reply::Log { log })?;
    Ok(out)
}

/// No diagnostics, of a document that is not open any more.
pub(crate) fn no_diagnostics(alloc: Global, uri: &str) -> Result<Reply, AllocError>
    ensures { IfOk result (λ reply. reply_view reply ≡ published_diagnostics uri.now None None) }
{
    Ok(Reply::Diagnostics {
        uri: String::from_str(alloc, uri)?,
        version: None,
        diagnostic: None,
    })
}
