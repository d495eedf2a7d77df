//! Tests of the public calls of the parser, and of rows of tokens and texts of trees. The crate
//! has nothing else.
#![tactic(auto)]

#[cfg(test)]
mod parses;
#[cfg(test)]
mod rows_and_trees;
