//! What is replied (JSON-RPC 2.0, "Response object"), and its numbers and texts.

ghost use Rattle.std.specs.Prelude.{◌≡◌};
ghost use Rattle.replies.specs.Replies.{code_of, loss_text, log_text, message_text, unit_name};

use crate::id::Id;
use definitions::{Diagnostic, Range, Row, Stats, Unit};

/// Why a document was lost.
#[derive(Clone, Copy, Debug, PartialEq, Eq)]
pub enum Loss {
    /// A text would have been too large.
    TooLarge,
    /// A change didn't fit its method.
    MalformedChange,
    /// Memory was refused within a change.
    Memory,
}

/// What is logged of a notification (LSP 3.17, "LogMessage Notification").
#[derive(Clone, Copy, Debug, PartialEq, Eq)]
pub enum Log {
    OpenMalformed,
    /// A change that doesn't fit, and of which document it is can't be read.
    ChangeMalformed,
    CloseMalformed,
    ChangeNotOpen,
    CloseNotOpen,
    TooManyDocuments,
    /// The document is lost.
    Lost(Loss),
}

/// Why a request is refused (JSON-RPC 2.0, "Error object"; LSP 3.17, "ErrorCodes").
#[derive(Clone, Copy, Debug, PartialEq, Eq)]
pub enum Refusal {
    ParseError,
    InvalidRequest,
    MethodNotFound,
    InvalidParams,
    /// The request names a document that isn't open.
    DocumentNotOpen,
    /// The request names a document that is lost.
    DocumentLost(Loss),
    NotInitialized,
}

/// What is sent: the reply to a request, diagnostics, or what is logged.
#[derive(Debug, Drop)]
pub enum Reply {
    /// What the server can do, and the unit that positions count, for `initialize` (LSP 3.17,
    /// "InitializeResult").
    Capabilities {
        id: Id,
        unit: Unit,
    },
    /// The result is `null`.
    Null {
        id: Id,
    },
    /// A document's text and version, for `lr/text`.
    Text {
        id: Id,
        version: i32,
        text: String,
    },
    /// A document's tokens, for `lr/tokens`.
    Tokens {
        id: Id,
        rows: Vec<Row>,
    },
    /// The text of a document's tree, for `lr/tree`.
    Tree {
        id: Id,
        text: String,
    },
    /// How much there is of a document, for `lr/stats`.
    Stats {
        id: Id,
        stats: Stats,
    },
    /// The first and last lines of what can be folded, for `textDocument/foldingRange`.
    Folds {
        id: Id,
        pairs: Vec<(u32, u32)>,
    },
    /// For each position the ranges that can be selected around it, from inner to outer, for
    /// `textDocument/selectionRange`.
    Selections {
        id: Id,
        selections: Vec<Vec<Range>>,
    },
    /// The diagnostics of a document, which no request asks for (LSP 3.17, "PublishDiagnostics
    /// Notification").
    Diagnostics {
        uri: String,
        version: Option<i32>,
        diagnostic: Option<Diagnostic>,
    },
    /// What is logged of a notification (LSP 3.17, "LogMessage Notification").
    Log {
        log: Log,
    },
    /// There is no id where the request's can't be read.
    Error {
        id: Option<Id>,
        refusal: Refusal,
    },
}

/// The number of a refusal (JSON-RPC 2.0, "Error object"; LSP 3.17, "ErrorCodes").
pub(crate) fn code_of(refusal: Refusal) -> i32
    ensures { result ≡ code_of refusal }
{
    match refusal {
        Refusal::ParseError => -32700,
        Refusal::InvalidRequest => -32600,
        Refusal::MethodNotFound => -32601,
        Refusal::InvalidParams => -32602,
        Refusal::DocumentNotOpen => -32602,
        Refusal::DocumentLost(_) => -32803,
        Refusal::NotInitialized => -32002,
    }
}

/// The text of why a document was lost.
pub(crate) fn loss_text(loss: Loss) -> &'static str
    ensures { result.now ≡ loss_text loss }
{
    match loss {
        Loss::TooLarge => "document lost: too large",
        Loss::MalformedChange => "document lost: malformed change",
        Loss::Memory => "document lost: no memory",
    }
}

/// The text of what is logged.
pub(crate) fn log_text(log: Log) -> &'static str
    ensures { result.now ≡ log_text log }
{
    match log {
        Log::OpenMalformed => "didOpen: malformed",
        Log::ChangeMalformed => "didChange: malformed",
        Log::CloseMalformed => "didClose: malformed",
        Log::ChangeNotOpen => "didChange: document not open",
        Log::CloseNotOpen => "didClose: document not open",
        Log::TooManyDocuments => "didOpen: too many documents",
        Log::Lost(loss) => loss_text(loss),
    }
}

/// The text of a refusal.
pub(crate) fn message_text(refusal: Refusal) -> &'static str
    ensures { result.now ≡ message_text refusal }
{
    match refusal {
        Refusal::ParseError => "parse error",
        Refusal::InvalidRequest => "invalid request",
        Refusal::MethodNotFound => "method not found",
        Refusal::InvalidParams => "invalid params",
        Refusal::DocumentNotOpen => "document not open",
        Refusal::DocumentLost(loss) => loss_text(loss),
        Refusal::NotInitialized => "server not initialized",
    }
}

/// The name of a unit (LSP 3.17, "PositionEncodingKind").
pub fn unit_name(unit: Unit) -> &'static str
    ensures { result.now ≡ unit_name unit }
{
    match unit {
        Unit::Utf8 => "utf-8",
        Unit::Utf16 => "utf-16",
        Unit::Utf32 => "utf-32",
    }
}
