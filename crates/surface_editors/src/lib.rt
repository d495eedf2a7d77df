//! What callers rely on of what editors show: `settings`, `settings_files`, `wording`,
//! `completion`, `mending`, `faults`, `outline`, `forests`, `hover`, `flat_trees` and
//! `token_rows`. It is written as `surface_texts` is.
#![tactic(auto)]

mod behind;
mod documents;
mod faulty;
mod languages;
mod looked_at;
mod messages;
mod offers;
