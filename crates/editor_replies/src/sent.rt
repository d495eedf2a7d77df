//! What the editor's server sends.

use definitions::{Range, Unit};
use hover::{BracketPair, HoverText, Markup};
use outline::OutlineSymbol;
use replies::{Id, Reply};
use serde_json::Value;

/// The fault of a document as it is shown (LSP 3.17, "Diagnostic").
#[derive(Debug, Drop)]
pub struct Fault {
    pub uri: String,
    /// The version of the document, if one was given.
    pub version: Option<i32>,
    /// Where the fault is, in the session's unit of positions.
    pub range: Range,
    /// The message, in the words of the language.
    pub words: String,
    /// What stands beside the message (LSP 3.17, "DiagnosticRelatedInformation").
    pub related: Option<String>,
    /// The diagnostics of the faults behind it. `null` is sent in place of one that has a number
    /// with a fraction.
    pub behind: Vec<Value>,
}

/// A change of a list of numbers: from place `start` on, `delete_count` of them give way to others
/// (LSP 3.17, "SemanticTokensEdit").
#[derive(Debug, Drop)]
pub struct Change {
    pub start: usize,
    pub delete_count: usize,
    pub numbers: Vec<u32>,
}

/// What may stand in the place of a word (LSP 3.17, "CompletionItem").
#[derive(Debug, Drop)]
pub struct Offered {
    /// The name of its rule.
    pub name: String,
    /// Its number among the protocol's kinds (LSP 3.17, "CompletionItemKind").
    pub kind: u32,
    pub text: String,
}

/// What is sent.
#[derive(Debug, Drop)]
pub enum Sent {
    /// What the core sends, as it is.
    Core(Reply),
    /// The reply to `initialize`: what the core can do and what is answered here besides, with the
    /// name of the server, what begins a comment in the language, and the types of tokens
    /// (LSP 3.17, "InitializeResult").
    Capabilities {
        id: Id,
        unit: Unit,
        name: String,
        comment: String,
        types: &'static [&'static str],
    },
    /// The colours of a document, with the name of the result, or those of some of its lines,
    /// without one (LSP 3.17, "SemanticTokens").
    Colours {
        id: Id,
        name: Option<String>,
        numbers: Vec<u32>,
    },
    /// What has changed of the colours of a document, if anything has, with the name of the
    /// result (LSP 3.17, "SemanticTokensDelta").
    Changes {
        id: Id,
        name: String,
        change: Option<Change>,
    },
    /// What may stand at this range of a document (LSP 3.17, "Completion Request").
    Offers {
        id: Id,
        range: Range,
        found: Vec<Offered>,
    },
    /// The symbols of a document, each with those that lie in it; or, where `list_of` has the URI
    /// of the document, one after another, for an editor that knows no others
    /// (LSP 3.17, "Document Symbols Request").
    Outline {
        id: Id,
        list_of: Option<String>,
        symbols: Vec<OutlineSymbol>,
    },
    /// The text about what stands at a position, in this form, if there is one
    /// (LSP 3.17, "Hover Request").
    Hover {
        id: Id,
        found: Option<HoverText>,
        form: Markup,
    },
    /// The brackets of a node, if any (LSP 3.17, "Document Highlights Request").
    Brackets {
        id: Id,
        pair: Option<BracketPair>,
    },
    /// The fault of a document as it is shown, and the text that the core has for it
    /// (LSP 3.17, "PublishDiagnostics Notification").
    Fault {
        fault: Fault,
        text: String,
    },
    /// Another reply in the place of one of the core: with what a mended copy has besides.
    Grown {
        reply: Reply,
        sent: Reply,
    },
    /// A result that is this JSON value. `null` is sent in place of one that has a number with a
    /// fraction.
    Result {
        id: Id,
        value: Value,
    },
    /// Another reply to a request that the core doesn't know.
    Own(Reply),
    /// The reply to a request that the editor has cancelled
    /// (LSP 3.17, "Cancellation Support").
    Cancelled {
        id: Id,
    },
    /// A notification of the server's own accord. `null` is sent in place of parameters that have
    /// a number with a fraction.
    Notice {
        method: &'static str,
        params: Value,
    },
    /// A request to the editor, with its parameters where it has some, which are sent as those of
    /// a notification are. The editor's reply is read and ignored.
    Call {
        id: &'static str,
        method: &'static str,
        params: Option<Value>,
    },
}
