//! What `parse` prints of texts: a tree and faults. `tests/program` has the texts that are
//! refused.

use crate::grammar_checks::{assert_printed, sums};
use commands::{Printed, parse};
use std::alloc::Global;
use std::process::Abort;

/// What `parse` prints of a text by the grammar of sums.
fn parsed(rt: &impl Abort, alloc: Global, text: &[u8]) -> Printed {
    let language = sums(rt, alloc);
    parse(alloc, &language, text).expect(rt, "memory")
}

/// The text of these bytes is a sum, or not: this is printed of it.
fn prints(rt: &impl Abort, alloc: Global, text: &[u8], out: &str, err: &str, status: u8) {
    let printed = parsed(rt, alloc, text);
    assert_printed(rt, &printed, out, err, status);
}

#[test]
fn trees_and_faults_are_printed(rt: HostRuntime) {
    let alloc = rt.alloc();
    let tree = "(Sum (Sum (Atom NUM)) PLUS (Atom NUM))\n";
    prints(&rt, alloc, b"1+2", tree, "", 0);
    let fault = "0:2-0:3: unexpected NUM; expected PLUS, end\n";
    prints(&rt, alloc, b"1 2", fault, "", 1);
    let end = "0:0-0:0: unexpected end; expected NUM, LP\n";
    prints(&rt, alloc, b"", end, "", 1);
}
