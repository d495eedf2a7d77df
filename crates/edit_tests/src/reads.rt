//! How many kinds a change of a parse reads, and how often it looks for one among all.

ghost use Rattle.std.specs.Prelude.{◌≡◌, drop};
ghost use Rattle.grammar.specs.Grammars.{lexicon_of};
ghost use Rattle.lexer.specs.Tokens.{AreTokensOf};
ghost use Rattle.lexer.specs.Rescans.{significant_kinds};
ghost use Rattle.parser.specs.Parses.{IsParseOf};

use crate::document::{Change, Document, load, open, rescan};
use definitions::Kind;
use docs::{Language, Significant};
use lexer::KindsAhead;
use std::alloc::Global;
use std::cell::Cell;
use std::process::Abort;
use trees::Kinds;
use worked::SUMS;

/// The kinds of the significant tokens, with a count of those read, and of the places looked up
/// among all.
#[derive(Drop)]
struct Counted<'a> {
    whole: Significant<'a>,
    reads: Cell<usize>,
    places: Cell<usize>,
}

fn count(cell: &Cell<usize>) {
    cell.set(cell.get().saturating_add(1));
}

impl<'a> Kinds for Counted<'a> {
    type Ahead = KindsAhead<'a>;

    ghost kinds = { λ s. significant_kinds s.whole.0.now.items };

    ghost is_before = { λ s k ahead. ahead ≡ drop k (significant_kinds s.whole.0.now.items) };

    fn len(&self) -> usize {
        self.whole.len()
    }

    fn kind(&self, k: usize) -> Option<Kind> {
        count(&self.reads);
        count(&self.places);
        self.whole.kind(k)
    }

    fn ahead(&self, k: usize) -> KindsAhead<'a> {
        count(&self.places);
        self.whole.ahead(k)
    }

    fn next(&self, ahead: &mut KindsAhead<'a>, k: usize) -> Option<Kind> {
        count(&self.reads);
        self.whole.next(ahead, k)
    }
}

/// Makes a change, and returns how many kinds the parser reads for it, and how many places it
/// looks up.
fn reads_for(
    rt: &impl Abort,
    alloc: Global,
    language: &Language,
    document: &mut Document,
    change: &Change<'_>,
) -> (usize, usize)
    requires tokens { let d = document.old in
        AreTokensOf (lexicon_of language.now.file) d.text d.tokens.items }
    requires parse { IsParseOf language.now.tables (significant_kinds document.old.tokens.items)
        document.old.store document.old.parse }
    ensures tokens { let d = document.new in
        AreTokensOf (lexicon_of language.now.file) d.text d.tokens.items }
    ensures parse { IsParseOf language.now.tables (significant_kinds document.new.tokens.items)
        document.new.store document.new.parse }
{
    let (text, tokens) = (&mut document.text, &mut document.tokens);
    let splice = rescan(rt, alloc, language, text, tokens, change);
    let kinds = Counted {
        whole: Significant(&document.tokens),
        reads: Cell::new(0),
        places: Cell::new(0),
    };
    let (tables, store) = (language.tables(), &mut document.store);
    document
        .parse
        .change(alloc, tables, store, &kinds, splice, change.number)
        .expect(rt, "a change");
    (kinds.reads.get(), kinds.places.get())
}

/// Opens a text, makes the changes in turn, and returns what the last one reads.
fn reads_of(
    rt: &impl Abort,
    alloc: Global,
    language: &Language,
    text: &str,
    changes: &[Change<'_>],
) -> (usize, usize) {
    let mut document = open(rt, alloc, language, text);
    let mut reads = (0, 0);
    'changes: for change in changes {
        reads = reads_for(rt, alloc, language, &mut document, change);
    }
    reads
}

/// `1` and so many times `+1`.
pub fn sum_of(rt: &impl Abort, alloc: Global, count: usize) -> String {
    let mut text = String::from_str(alloc, "1").expect(rt, "memory");
    for _ in 0..count {
        text.push_str("+1").expect(rt, "memory");
    }
    text
}

fn expect_fewer(rt: &impl Abort, count: usize, bound: usize) {
    assert!(rt; count < bound, "{count}");
}

/// The last change of a sum with so many pluses reads fewer kinds than this, and looks up few
/// places.
fn check_reads(
    rt: &impl Abort,
    alloc: Global,
    pluses: usize,
    changes: &[Change<'_>],
    bound: usize,
) {
    let sums = load(rt, alloc, SUMS);
    let text = sum_of(rt, alloc, pluses);
    let (reads, places) = reads_of(rt, alloc, &sums, text.as_str(), changes);
    expect_fewer(rt, reads, bound);
    expect_fewer(rt, places, 10);
}

fn insertion(at: usize, piece: &str) -> Change<'_> {
    Change {
        at,
        removed: 0,
        piece,
        number: 1,
    }
}

/// What stands before a sum's end is taken over as one tree, and isn't read again.
#[test]
fn few_kinds_are_read(rt: HostRuntime) {
    check_reads(&rt, rt.alloc(), 9_999, &[insertion(19_999, "+1")], 10);
}

/// After an edit at the start all sums are made anew, over numbers that stand as they were: the
/// kind after each of these is that of the next tree, and isn't looked up.
#[test]
fn no_kind_is_looked_up_before_old_trees(rt: HostRuntime) {
    check_reads(&rt, rt.alloc(), 2_000, &[insertion(1, "+1")], 10);
}

/// After a fault there are no old trees. Its mending, which takes a second plus away, reads each
/// kind once, one after another.
#[test]
fn kinds_are_read_in_order(rt: HostRuntime) {
    let mend = Change {
        at: 2,
        removed: 1,
        piece: "",
        number: 2,
    };
    check_reads(&rt, rt.alloc(), 2_000, &[insertion(2, "+"), mend], 4_010);
}
