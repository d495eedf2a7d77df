//! Tests of the public calls of frames and of messages. The crate has nothing else.
#![tactic(auto)]

#[cfg(test)]
mod adapters;
#[cfg(test)]
mod faults;
#[cfg(test)]
mod framed_streams;
#[cfg(test)]
mod messages;
