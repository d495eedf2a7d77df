//! The symbols of a document.

use definitions::Range;

/// A symbol of a document (LSP 3.17, "DocumentSymbol"). Positions count the document's unit.
#[derive(Debug, Drop)]
pub struct OutlineSymbol {
    /// The text of its name, each run of blanks as one space, without quotes around it.
    pub name: String,
    /// The protocol's number of its kind, from 1 (LSP 3.17, "SymbolKind").
    pub kind: u32,
    /// How many symbols it lies in.
    pub depth: usize,
    /// Where it stands.
    pub range: Range,
    /// Where its name stands.
    pub selection: Range,
}
