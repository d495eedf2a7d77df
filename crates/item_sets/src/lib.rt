//! The canonical collection of sets of LR(1) items (Knuth 1965): the closure of a set, where
//! symbols lead from it, and all sets, each once.
//!
//! `States::new` begins the collection of a grammar with the start set. `close` adds to a kernel
//! what its closure has; `gotos` returns the states after each symbol, by the symbols' numbers,
//! and adds the new ones to the collection; `prefix` returns symbols that lead to a state, and
//! `next` the symbol after an item's dot.
//!
//! Words: an *item* is a production, a dot in its right side, and a lookahead; a *kernel* is a set
//! of items without those that its closure adds.
//!
//! Limits: none of its own; `tables` stops at 8,192 sets. A closure costs its items, each with
//! each of its lookaheads, so a grammar with many levels of operators that occur in many places,
//! such as `grammars/lua.lr`, takes by far the longest. In the example `augmented` is the grammar
//! of the example of `productions`.
//!
//! ```
//! let mut states = States::new(alloc, augmented).ok()?;
//! let start = StateNumber { index: 0 };
//! let items = close(alloc, augmented, states.kernel(start)).ok()?;
//! let gotos = states.gotos(alloc, augmented, &items, start).ok()?;
//! println!(rt; "{} symbols, {} states", gotos.len(), states.len()).ok()
//! // 2 symbols, 2 states
//! ```
#![tactic(auto)]

mod closure;
mod collection;
mod goto;
mod item;
mod kernels;
mod state_number;
mod worklist;

pub use closure::close;
pub use collection::States;
pub use item::Item;
pub use state_number::StateNumber;
