//! What `check` prints of grammar files, once of each kind. `tests/program` has a row for each
//! fault.

use commands::{Printed, check, load};
use server::Language;
use std::alloc::Global;
use std::process::Abort;
use worked::{CHOICES, LISTS, SUMS};

/// The language of the grammar of sums.
pub fn sums(rt: &impl Abort, alloc: Global) -> Language {
    let Ok(Ok(language)) = load(alloc, SUMS.as_bytes()) else {
        panic!(rt; "no language");
    };
    language
}

/// What a command printed is this, and it ended with this status.
pub fn assert_printed(rt: &impl Abort, printed: &Printed, out: &str, err: &str, status: u8) {
    assert!(rt; printed.out.as_slice() == out.as_bytes());
    assert!(rt; printed.err.as_slice() == err.as_bytes());
    assert!(rt; printed.status == status);
}

/// What `check` prints of a file.
fn checked(rt: &impl Abort, alloc: Global, file: &str) -> Printed {
    match load(alloc, file.as_bytes()).expect(rt, "memory") {
        Ok(language) => check(alloc, &language).expect(rt, "memory"),
        Err(printed) => printed,
    }
}

/// `check` prints this of a file, and ends with this status.
fn prints(rt: &impl Abort, alloc: Global, file: &str, out: &str, err: &str, status: u8) {
    let printed = checked(rt, alloc, file);
    assert_printed(rt, &printed, out, err, status);
}

#[test]
fn grammars_are_accepted(rt: HostRuntime) {
    for file in [SUMS, LISTS] {
        prints(&rt, rt.alloc(), file, "ok\n", "", 0);
    }
}

#[test]
fn unused_names_are_noted(rt: HostRuntime) {
    let file = format!(in rt.alloc(); "{SUMS}token DOT = \".\"\n").expect(&rt, "memory");
    let notes = "note: unreachable DOT\nok\n";
    prints(&rt, rt.alloc(), file.as_str(), notes, "", 0);
}

#[test]
fn refusals_are_printed(rt: HostRuntime) {
    prints(&rt, rt.alloc(), "", "", "lrls: line 1: G1 first line\n", 2);
}

/// Which way leads to a conflict is open, and so is the terminal of the item that shifts.
/// `tests/program` walks the ways.
#[test]
fn conflicts_are_printed(rt: HostRuntime) {
    let printed = checked(&rt, rt.alloc(), CHOICES);
    let err = printed.err.as_slice();
    let items = " IF S\nitem: S = IF S ., ELSE\nitem: S = IF S . ELSE S,";
    let by_else = format!(in rt.alloc(); "{items} ELSE\n").expect(&rt, "memory");
    let by_end = format!(in rt.alloc(); "{items} end\n").expect(&rt, "memory");
    assert!(rt; printed.out.is_empty());
    assert!(rt; err.starts_with(b"lrls: conflict on ELSE\nafter: IF"));
    assert!(rt; err.ends_with(by_else.as_bytes()) || err.ends_with(by_end.as_bytes()));
    assert!(rt; printed.status == 2);
}
