//! What a message says.

ghost use Rattle.std.specs.Prelude.{◌≡◌};
ghost use Rattle.rpc.specs.declared.message.RpcFault.TheVariants.{Memory};

use definitions::{Position, Range, Unit};
use replies::Id;
use std::alloc::{AllocError, AllocFailed};
use thiserror::Error;

/// A text for a range, or for the whole document where there is none
/// (LSP 3.17, "TextDocumentContentChangeEvent").
#[derive(Debug, Drop)]
pub struct Change {
    pub range: Option<Range>,
    pub text: String,
}

/// What a request asks.
#[derive(Debug, Drop)]
pub enum Call {
    /// `initialize` (LSP 3.17, "Initialize Request"). The unit is the first of those that the
    /// client names, and UTF-16 where it names none.
    Initialize {
        unit: Unit,
    },
    /// `shutdown` (LSP 3.17, "Shutdown Request").
    Shutdown,
    /// `textDocument/foldingRange` (LSP 3.17, "Folding Range Request").
    FoldingRange {
        uri: String,
    },
    /// `textDocument/selectionRange` (LSP 3.17, "Selection Range Request").
    SelectionRange {
        uri: String,
        positions: Vec<Position>,
    },
    /// `lr/text`: the text of a document.
    Text {
        uri: String,
    },
    /// `lr/tokens`: the tokens of a document.
    Tokens {
        uri: String,
    },
    /// `lr/tree`: the tree of a document.
    Tree {
        uri: String,
    },
    /// `lr/stats`: how much there is of a document, and what its last edit made.
    Stats {
        uri: String,
    },
}

/// A notification whose parameters don't fit.
#[derive(Debug, Drop)]
pub enum Malformed {
    DidOpen,
    /// The URI is given where it is a text.
    DidChange { uri: Option<String> },
    DidClose,
}

/// What a notification carries.
#[derive(Debug, Drop)]
pub enum Note {
    /// `initialized` (LSP 3.17, "Initialized Notification").
    Initialized,
    /// `exit` (LSP 3.17, "Exit Notification").
    Exit,
    /// `textDocument/didOpen` (LSP 3.17, "DidOpenTextDocument Notification").
    DidOpen {
        uri: String,
        version: i32,
        text: String,
    },
    /// `textDocument/didChange` (LSP 3.17, "DidChangeTextDocument Notification"). The changes
    /// apply in their order.
    DidChange {
        uri: String,
        version: i32,
        changes: Vec<Change>,
    },
    /// `textDocument/didClose` (LSP 3.17, "DidCloseTextDocument Notification").
    DidClose {
        uri: String,
    },
    Malformed(Malformed),
}

/// What a content is.
#[derive(Debug, Drop)]
pub enum Message {
    Request(Id, Call),
    Notice(Note),
    /// A reply, or a notification of an unknown method.
    Ignored,
}

/// Why a content is no message.
#[derive(Debug, Drop, Error)]
pub enum RpcFault {
    /// It is no JSON value.
    #[error("the content is no JSON value")]
    Parse,
    /// The value is no request, notification or reply. Its id is given where it can be read.
    #[error("the content is no request, notification or reply")]
    Invalid { id: Option<Id> },
    /// A request of an unknown method.
    #[error("the request has an unknown method")]
    Unknown { id: Id },
    /// A request whose parameters don't fit. `initialize` says whether that is its method.
    #[error("the parameters of the request don't fit its method")]
    Params { id: Id, initialize: bool },
    /// There was no memory to read it.
    #[error("memory was refused")]
    Memory,
}

impl From<AllocError> for RpcFault {
    ghost from_gives = { λ _ e. e ≡ Memory };

    fn from(_e: AllocError) -> RpcFault {
        RpcFault::Memory
    }
}

impl<T: Drop> From<AllocFailed<T>> for RpcFault {
    ghost from_gives = { λ _ e. e ≡ Memory };

    fn from(_e: AllocFailed<T>) -> RpcFault {
        RpcFault::Memory
    }
}
