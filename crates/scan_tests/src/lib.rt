//! Tests of the public calls of the lexer. The crate has nothing else.
#![tactic(auto)]

#[cfg(test)]
mod scans;
