//! What callers rely on of grammars and parses: `definitions`, `theory`, `grammar`, `tables`,
//! `trees` and `parser`. It is written as `surface_texts` is.
#![tactic(auto)]

mod decisions;
mod grammars;
mod meanings;
mod nodes;
mod parses;
