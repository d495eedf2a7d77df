//! The nodes of parse trees: each is named by a number above those of its children, and means one
//! tree for as long as it stays in its store.
//!
//! `Store::new` is an empty store, and `branch` adds a node over children that are in the store.
//! `production`, `born`, `tokens`, `size` and `children` describe a node. `truncate` cuts the
//! store back to its first nodes, and `compact` keeps the trees of some roots, under new names.
//!
//! Words: a `Child` is a token's kind or a `NodeId`; `born` is the number of the edit that made a
//! node.
//!
//! Limits: `tokens` and `size` saturate at the greatest `u64`; otherwise memory is the only limit.
//! A node takes 48 bytes with up to four children. `branch` costs the number of children, and
//! `compact` that of nodes.
//!
//! ```
//! let mut store = Store::new(alloc);
//! let number = Child::Token(Kind::Rule(0));
//! let atom = store.branch(alloc, 2, &[number], 0).ok()?;
//! let sum = store.branch(alloc, 1, &[Child::Node(atom)], 0).ok()?;
//! let (tokens, nodes) = (store.tokens(sum), store.size(sum));
//! println!(rt; "{tokens} token below {nodes} nodes").ok()?;
//! // 1 token below 2 nodes
//! ```
#![tactic(auto)]

mod children;
mod compaction;
mod kinds;
pub mod laws;
mod node;
mod slide;
mod store;

pub use children::Children;
pub use definitions::Kind;
pub use kinds::Kinds;
pub use store::{Child, NodeId, Store};
