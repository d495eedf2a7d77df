//! What a text is by a grammar file, and what is reported of it: the definitions, and the laws
//! that answers exist and are unique.
//!
//! The *reading* of a text is its tokens, the verdict on their kinds, and its trees, or what is
//! settled before the fault. Of it are made the rows of the tokens, the text of the tree, the
//! diagnostic, the folds and the selections; and of the readings before and after an edit, how
//! much that edit makes. `docs` keeps documents that report so, and `sessions` says with these
//! words what a server answers.
//!
//! Nothing here runs: the functions of `laws` are theorems, with empty bodies. Call one in a
//! proof, or in code that needs its fact. `answers_are_unique` and `edits_are_counted_once` say
//! that there is at most one answer, and `answers_exist` and `edits_are_counted` that there is
//! one.
//!
//! ```
//! answers_are_unique();
//! ```
#![tactic(auto)]

pub mod laws;
