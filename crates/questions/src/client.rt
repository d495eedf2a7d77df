//! What the editor can show, as its `initialize` says it.

use serde_json::Value;

/// What the editor can show (LSP 3.17, "ClientCapabilities"). What it doesn't name, it can't.
#[derive(Clone, Copy, Debug, Default)]
pub struct Client {
    /// Related information beside a diagnostic.
    pub related: bool,
    /// Symbols that lie in symbols.
    pub nested: bool,
    /// Markdown, rather than plain text.
    pub markdown: bool,
    /// It asks for colours again when it is asked to.
    pub refreshes: bool,
    /// It watches files that it is asked to watch.
    pub watches: bool,
}

impl Client {
    /// What the editor can show, by the JSON value of its `initialize`.
    pub(crate) fn of(initialize: &Value) -> Client {
        let Some(can) = initialize.pointer("/params/capabilities") else {
            return Client::default();
        };
        let nested = "/textDocument/documentSymbol/hierarchicalDocumentSymbolSupport";
        Client {
            related: has(can, "/textDocument/publishDiagnostics/relatedInformation"),
            nested: has(can, nested),
            markdown: likes_markdown(can),
            refreshes: has(can, "/workspace/semanticTokens/refreshSupport"),
            watches: has(can, "/workspace/didChangeWatchedFiles/dynamicRegistration"),
        }
    }
}

/// Whether `true` stands at this path of a JSON value.
fn has(value: &Value, path: &str) -> bool {
    value
        .pointer(path)
        .and_then(Value::as_bool)
        .unwrap_or(false)
}

/// Whether Markdown is the first form of hovers that the editor names
/// (LSP 3.17, "HoverClientCapabilities").
fn likes_markdown(can: &Value) -> bool {
    let first = can
        .pointer("/textDocument/hover/contentFormat/0")
        .and_then(Value::as_str);
    first == Some("markdown")
}
