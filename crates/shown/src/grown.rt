//! Answers of the core with what the mended copy of a document has besides.

ghost use Rattle.std.specs.Prelude.{◌≡◌, ◌++◌, map, IfOk};
ghost use Rattle.replies.specs.Ids.{id_view};
ghost use Rattle.replies.specs.Replies.{folds_reply, selections_reply};
ghost use Rattle.editor_replies.specs.Sent.{grown, message_view};

use definitions::Range;
use editor_replies::Sent;
use questions::copy_of;
use rpc::{Id, Reply};
use std::alloc::{AllocError, Global};

/// The core's folds with these behind them.
pub(crate) fn grown_folds(
    alloc: Global,
    id: Id,
    mut pairs: Vec<(u32, u32)>,
    mut more: Vec<(u32, u32)>,
) -> Result<Sent, AllocError>
    ensures { let core = folds_reply (id_view id) pairs.items in
        let all = folds_reply (id_view id) (pairs.items ++ more.items) in
        IfOk result (λ s. message_view s ≡ grown core all) }
{
    let reply = Reply::Folds {
        id: copy_of(alloc, &id)?,
        pairs: Vec::from_slice(alloc, &pairs)?,
    };
    pairs.append(&mut more)?;
    Ok(Sent::Grown {
        reply,
        sent: Reply::Folds { id, pairs },
    })
}

/// The core's selections, in whose place these are sent.
pub(crate) fn grown_selections(
    alloc: Global,
    id: Id,
    selections: Vec<Vec<Range>>,
    others: Vec<Vec<Range>>,
) -> Result<Sent, AllocError>
    ensures { let core = selections_reply (id_view id) (map (λ r. r.items) selections.items) in
        let sent = selections_reply (id_view id) (map (λ r. r.items) others.items) in
        IfOk result (λ s. message_view s ≡ grown core sent) }
{
    let reply = Reply::Selections {
        id: copy_of(alloc, &id)?,
        selections,
    };
    Ok(Sent::Grown {
        reply,
        sent: Reply::Selections {
            id,
            selections: others,
        },
    })
}
