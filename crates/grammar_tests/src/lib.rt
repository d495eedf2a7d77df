//! Tests of the public calls of grammar files and of their tables. The crate has nothing else.
#![tactic(auto)]

#[cfg(test)]
mod canonical_tables;
#[cfg(test)]
mod grammar_lines;
#[cfg(test)]
mod grammars;
#[cfg(test)]
mod marked_words;
