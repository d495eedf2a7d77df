//! What a request is named by.

/// What a request is named by, and its reply with it (JSON-RPC 2.0, "Request object").
#[derive(Debug, Drop)]
pub enum Id {
    Text(String),
    Number(i32),
}
