//! Tests of the public calls of `mending`. The crate has nothing else.
#![tactic(auto)]

#[cfg(test)]
mod follows;
#[cfg(test)]
mod mendings;
#[cfg(test)]
mod neighbours;
#[cfg(test)]
mod ranks;
