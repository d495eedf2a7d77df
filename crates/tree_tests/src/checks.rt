//! Checks that tests share.

ghost use Rattle.std.specs.Prelude.{◌<◌, length};

use std::process::Abort;
use trees::{NodeId, Store};

/// This holds.
pub fn expect(rt: &impl Abort, holds: bool, what: &str) {
    assert!(rt; holds, "{what}");
}

/// This holds for a number.
pub fn expect_at(rt: &impl Abort, holds: bool, at: usize) {
    assert!(rt; holds, "at {at}");
}

/// A store has so many nodes.
pub fn expect_len(rt: &impl Abort, store: &Store, len: usize) {
    expect_at(rt, store.len() == len, len);
}

/// A store has this node.
pub fn expect_in(rt: &impl Abort, store: &Store, id: NodeId)
    ensures { id.index < length store.now }
{
    assert!(rt; id.index < store.len());
}
