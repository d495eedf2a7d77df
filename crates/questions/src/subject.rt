//! Which document a message is about.

use definitions::Position;
use rpc::{Call, Message, Note, RpcFault};
use std::alloc::{AllocError, Global};

/// What a message is about, where a document's mended copy is asked for in answering it.
#[derive(Debug, Drop)]
pub struct Subject {
    /// The document; empty where no copy is asked for.
    pub uri: String,
    /// The positions around which it is asked what can be selected.
    pub positions: Vec<Position>,
}

/// A document that is changed or asked about.
pub fn subject_in(alloc: Global, uri: &str) -> Result<Subject, AllocError> {
    Ok(Subject {
        uri: String::from_str(alloc, uri)?,
        positions: Vec::new(alloc),
    })
}

/// What a message is about.
pub fn subject_of(
    alloc: Global,
    message: &Result<Message, RpcFault>,
) -> Result<Subject, AllocError> {
    match message {
        Ok(Message::Request(_, Call::SelectionRange { uri, positions })) => Ok(Subject {
            uri: String::from_str(alloc, uri.as_str())?,
            positions: positions.clone()?,
        }),
        Ok(
            Message::Request(_, Call::FoldingRange { uri })
            | Message::Notice(Note::DidOpen { uri, .. } | Note::DidChange { uri, .. }),
        ) => subject_in(alloc, uri.as_str()),
        _ => subject_in(alloc, ""),
    }
}
