//! What callers rely on of documents and sessions: `views`, `docs`, `frames`, `rpc`, `replies`,
//! `sessions`, `server`, `commands` and `serving`. It is written as `surface_texts` is.
#![tactic(auto)]

mod answers;
mod documents;
mod messages;
mod program;
mod streams;
