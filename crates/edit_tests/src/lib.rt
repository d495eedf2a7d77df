//! Tests of what an edit changes of tokens and trees. The crate has nothing else.
#![tactic(auto)]

#[cfg(test)]
mod document;
#[cfg(test)]
mod every_edit;
#[cfg(test)]
mod facts;
#[cfg(test)]
mod reads;
#[cfg(test)]
mod rows;
#[cfg(test)]
mod waiting;
