//! Which documents are open.

use rpc::{Message, Note, RpcFault};
use server::Server;
use std::alloc::{AllocError, Global};

/// The URI of the document that a message opens, if it opens one.
pub fn opened_by(
    alloc: Global,
    message: &Result<Message, RpcFault>,
) -> Result<Option<String>, AllocError> {
    match message {
        Ok(Message::Notice(Note::DidOpen { uri, .. })) => {
            Ok(Some(String::from_str(alloc, uri.as_str())?))
        }
        _ => Ok(None),
    }
}

/// Those of the URIs, and the one more, whose documents are open; each once.
pub fn open_uris(
    alloc: Global,
    core: &Server,
    uris: &[String],
    opened: &str,
) -> Result<Vec<String>, AllocError> {
    let mut open = Vec::new(alloc);
    for uri in uris {
        if uri.as_str() != opened && core.document(uri.as_str()).is_ok() {
            open.push(String::from_str(alloc, uri.as_str())?)?;
        }
    }
    if core.document(opened).is_ok() {
        open.push(String::from_str(alloc, opened)?)?;
    }
    Ok(open)
}
