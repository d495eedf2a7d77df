//! Tests of the public calls of token patterns and of their automaton. The crate has nothing else.
#![tactic(auto)]

#[cfg(test)]
mod longest_matches;
#[cfg(test)]
mod token_patterns;
