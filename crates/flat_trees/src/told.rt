//! What is told of a flat tree.

use definitions::Range;

/// A line of a flat tree.
#[derive(Debug, Drop)]
pub struct Line {
    /// The names of its nodes from outer to inner, and of its token.
    pub names: Vec<String>,
    /// Whether it ends with a node, not a token.
    pub is_node: bool,
    /// Whether this node has parts.
    pub has_parts: bool,
    /// Whether the text has a token of it, or it has none: otherwise all of it is put in.
    pub is_there: bool,
    /// What its tokens in the text stand on, in the document's unit, where it has some.
    pub range: Option<Range>,
    /// The text of its token, where it ends with one that is in the text; of more than 60
    /// characters the first 60.
    pub text: Option<String>,
}

/// A node that is named by the way to it, and the part that is looked at.
#[derive(Debug, Drop)]
pub struct Way {
    pub path: Vec<u32>,
    pub part: u32,
}

/// A page of the parts of a node.
#[derive(Debug, Drop)]
pub struct NodePage {
    /// The way to the node.
    pub path: Vec<usize>,
    /// How many parts it has.
    pub count: usize,
    /// The number of the first part on this page.
    pub first: usize,
    /// The parts on this page.
    pub parts: Vec<Line>,
}

/// What is looked at of a tree.
#[derive(Debug, Drop)]
pub struct Looked {
    /// The first line; none where there is no tree.
    pub root: Option<Line>,
    /// The way to the token at a position, or to the smallest node around it.
    pub way: Vec<usize>,
    /// The nodes on the way, and then those that were named.
    pub nodes: Vec<NodePage>,
}
