//! Tests of the public calls of stores of trees. The crate has nothing else.
#![tactic(auto)]

#[cfg(test)]
mod checks;
#[cfg(test)]
mod node_forms;
#[cfg(test)]
mod tree_stores;
