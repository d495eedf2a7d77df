//! Where a session stands.

use rpc::Unit;

/// Where the session stands (LSP 3.17, "Server lifecycle").
#[derive(Clone, Copy, Debug, PartialEq, Eq)]
pub enum Phase {
    /// Before the first accepted `initialize`.
    New,
    /// Positions count the unit that was chosen then.
    Ready(Unit),
    /// After `shutdown`.
    Down,
}
