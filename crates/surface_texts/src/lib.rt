//! What callers rely on of texts and tokens: `seqtree`, `pieces`, `text`, `patterns`, `dfa` and
//! `lexer`.
//!
//! For each public call there is a function that makes it, with the types, the order of arguments,
//! the conditions and the promise that it has; for each law one that has what it says; for each
//! public type one that takes it apart, with all of its fields or variants; and for each public
//! trait an implementation. So a call that is named otherwise, that takes or returns something
//! else, that asks more of its caller or promises less breaks a function here. Nothing here runs.
#![tactic(auto)]

mod automata;
mod expressions;
mod lists;
mod texts;
mod tokens;
