//! What a message is answered with.

use rpc::Reply;

/// What a message is answered with, in order, and the status with which the session stops, if it
/// does.
#[derive(Debug, Drop)]
pub struct Out {
    pub replies: Vec<Reply>,
    pub stop: Option<u8>,
}
