//! What is sent on a message.

use editor_replies::Sent;

/// What is sent on a message, in order, and the status with which the session stops, if it does.
#[derive(Debug, Drop)]
pub struct Sending {
    pub messages: Vec<Sent>,
    pub stop: Option<u8>,
}
