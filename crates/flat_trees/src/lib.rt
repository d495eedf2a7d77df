//! The tree of a document as one looks at it, page by page.
//!
//! In a flat tree lists don't nest, and a node with one part stands in the line of that part.
//! `looked_at` has the way down it to a position, the nodes on this way, and others that are named
//! by the ways to them: of each a page of its parts. It is the tree of the text, or, where that
//! has a fault, the tree of its mended copy (`mending`). `following` is what may follow there.
//!
//! Words: a *line* is a node or a token, with the nodes around it that have no other part. The
//! *parts* of a node are the lines below it; of a node that begins with a node of the same
//! nonterminal, first those of that one. A *way* has the numbers of the parts that lead from the
//! first line down to a node, counted from 0.
//!
//! Limits: a page has 100 parts, and of a token 60 characters are told. Of a way of more than 80
//! nodes the first 8 and the last 72 are told; beside these, 60 nodes. A call costs, for each node
//! on the ways, the parts of that node, and of a copy its kinds; `following` the nodes on one way,
//! or the kinds of a copy. In the example `language` is loaded from the grammar file in README.md.
//!
//! ```
//! let doc = Doc::open(alloc, language, Unit::Utf16, 1, "1+2+3").ok()?;
//! let position = Position { line: 0, character: 2 };
//! let found = looked_at(alloc, language, &doc, None, position, &[]).ok()?;
//! let sum = found.nodes.first()?;
//! println!(rt; "part {} of {}", found.way.first()?, sum.count).ok()
//! // part 2 of 5
//! ```
#![tactic(auto)]

mod flat;
mod follow;
mod looking;
mod told;

pub use follow::following;
pub use looking::looked_at;
pub use told::{Line, Looked, NodePage, Way};
