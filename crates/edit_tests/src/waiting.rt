//! Changes that wait, and are scanned and parsed together.

use crate::document::load;
use crate::reads::sum_of;
use definitions::{Position, Range, Unit};
use docs::{Doc, Pending};
use std::alloc::Global;
use std::process::Abort;
use worked::SUMS;

/// An empty range in the first line.
fn at(character: u32) -> Option<Range> {
    let place = Position { line: 0, character };
    Some(Range {
        start: place,
        end: place,
    })
}

/// Types `2` at the end of a sum of so many numbers, and `+3` after it. Returns the number of the
/// last edit, and how many tokens and nodes both made together.
fn made_at_the_end(rt: &impl Abort, alloc: Global, pluses: u32) -> (u64, u64, u64) {
    assert!(rt; pluses < 1_000_000);
    let language = load(rt, alloc, SUMS);
    let text = sum_of(rt, alloc, pluses as usize);
    let doc = Doc::open(alloc, &language, Unit::Utf16, 1, text.as_str()).expect(rt, "a document");
    let mut pending = Pending::new(doc);
    pending
        .change(alloc, &language, at(2 * pluses + 1), "2")
        .expect(rt, "a change");
    pending
        .change(alloc, &language, at(2 * pluses + 2), "+3")
        .expect(rt, "a change");
    let doc = pending.finish(alloc, &language).expect(rt, "a document");
    let stats = doc.stats();
    (stats.edit, stats.scanned, stats.built)
}

/// The tokens are `12`, `+` and `3`; the nodes an atom and a sum over each of the two numbers.
#[test]
fn two_changes_at_the_end_keep_50_000_tokens(rt: HostRuntime) {
    let made = made_at_the_end(&rt, rt.alloc(), 25_000);
    assert!(rt; made == (2, 3, 4), "{made:?}");
}
