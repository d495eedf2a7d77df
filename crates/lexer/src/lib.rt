//! The tokens of a text by longest matches, and what an edit changes of them.
//!
//! `Tokens::scan` scans a text by the token rules of a grammar and their automaton, which a
//! `Scanner` owns; after an edit `rescan` changes the tokens to those of the new text, and returns
//! the splice of the kinds. The source is `Whole(&text)`; for a whole scan it is faster to read
//! `Characters` out of a vector, or ASCII out of `Bytes`. `token`, `start_of` and `count` are
//! about all tokens, by their places; `kind`, `place` and `significant` about those that aren't
//! skipped. `items` is the list, in which each token is a `PackedToken`, of 16 bytes.
//!
//! Words: a token's *stamp* is the number of the edit that made it; `scanned` counts the tokens
//! made by the last edit.
//!
//! Limits: those of `text`, and of `dfa` for the rules. A rescan reads from the first token whose
//! reach the edit meets to the first place where an old token begins again; the other tokens stay.
//! A scanner whose automaton would have more than 4,096 states is refused. In the example
//! `scanner` is that of the grammar file in README.md.
//!
//! ```
//! let text = Text::open(alloc, "1 + 2").ok()?;
//! let end = text.len();
//! let (grammar, automaton) = (scanner.grammar(), scanner.automaton());
//! let tokens = Tokens::scan(alloc, grammar, automaton, &Whole(&text)).ok()?;
//! let (all, read) = (tokens.count(), tokens.significant());
//! println!(rt; "{end} characters, {all} tokens, {read} significant").ok()
//! // 5 characters, 5 tokens, 3 significant
//! ```
#![tactic(auto)]

mod ahead;
mod characters;
mod laws;
mod packed;
mod scan;
mod scanner;
mod sums;
mod tokens;
mod walk;
mod whole;

pub use ahead::KindsAhead;
pub use characters::{Bytes, Characters};
pub use definitions::{Edit, Kind, KindSplice};
pub use dfa::Source;
pub use laws::{each_text_has_tokens, equal_tokens_are_the_same};
pub use packed::PackedToken;
pub use scanner::Scanner;
pub use sums::{MoreThan, ShortKind, Sums, Token};
pub use tokens::Tokens;
pub use whole::Whole;
