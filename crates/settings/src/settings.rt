//! What the settings of a language are.

use definitions::Symbol;

/// What a language's settings say, by the numbers that its grammar has for rules and nonterminals.
/// The lists have one entry for each rule, in file order.
#[derive(Debug, Drop)]
pub struct Settings {
    /// What begins a comment up to the end of the line.
    pub comment: Option<String>,
    /// The number in `TOKEN_TYPES` of the type of a rule's tokens.
    pub colours: Vec<Option<u32>>,
    /// What messages call a rule.
    pub words: Vec<Option<String>>,
    /// The text that completion offers for a rule that is no literal.
    pub texts: Vec<Option<String>>,
    /// Which nodes are symbols. The first that fits counts.
    pub symbols: Vec<SymbolRule>,
}

/// Which nodes are symbols, and where their names stand.
#[derive(Debug, Drop)]
pub struct SymbolRule {
    /// The number of the nonterminal whose nodes are symbols.
    pub node: usize,
    /// Only nodes with a token of this rule among their parts.
    pub with: Option<usize>,
    /// The parts that the name stands in. Several name parts that stand side by side.
    pub name: Vec<NamePart>,
    /// The protocol's number of the kind of symbol, from 1 (LSP 3.17, "SymbolKind").
    pub kind: u32,
}

/// A part of a node that its name stands in.
#[derive(Clone, Copy, Debug, PartialEq, Eq)]
pub enum NamePart {
    /// A part of the node.
    Whole(Symbol),
    /// The first token or node `name` in the part `part` of the node.
    Within { part: Symbol, name: Symbol },
}
