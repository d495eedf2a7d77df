//! Tests of the program's commands: command lines, texts of faults, and what `check` and `parse`
//! print. The crate has nothing else.
#![tactic(auto)]

#[cfg(test)]
mod command_lines;
#[cfg(test)]
mod grammar_checks;
#[cfg(test)]
mod parses;
