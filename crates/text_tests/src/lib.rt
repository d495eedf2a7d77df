//! Tests of the public calls of texts, and of the lists that they are made of. The crate has
//! nothing else.
#![tactic(auto)]

#[cfg(test)]
mod checks;
#[cfg(test)]
mod documents;
#[cfg(test)]
mod measured_lists;
#[cfg(test)]
mod measured_texts;
#[cfg(test)]
mod text_pieces;
#[cfg(test)]
mod units;
