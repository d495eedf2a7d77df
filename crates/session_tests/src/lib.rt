//! Tests of the server's loop on devices that give and take bytes in pieces, and may fail. The
//! crate has nothing else.
#![tactic(auto)]

#[cfg(test)]
mod devices;
#[cfg(test)]
mod streams;
#[cfg(test)]
mod talks;
