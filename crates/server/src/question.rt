//! What can be asked about a document.

use rpc::Position;

/// What can be asked about a document.
#[derive(Debug, Drop)]
pub enum Question {
    /// `lr/text`: its version and text.
    Text,
    /// `lr/tokens`: the names and ranges of its tokens.
    Tokens,
    /// `lr/tree`: its tree.
    Tree,
    /// `textDocument/foldingRange`: the lines that can be folded.
    Folds,
    /// `textDocument/selectionRange`: what can be selected around each of these positions.
    Selections(Vec<Position>),
}
