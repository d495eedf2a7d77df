//! Examples of tables and of the parser.

ghost use Rattle.std.specs.Prelude.{⊤};

use definitions::Kind;
use grammar::Grammar;
use parser::{Parse, Verdict};
use std::alloc::Global;
use tables::{Move, Tables};
use trees::{Kinds, Store};

/// A list of kinds, as a parser reads them.
#[derive(Drop)]
struct Listed<'a>(&'a [Kind]);

impl<'a> Kinds for Listed<'a> {
    type Ahead = ();

    ghost kinds = { λ s. s.0.now };

    ghost is_before = { λ s k ahead. ⊤ };

    fn len(&self) -> usize {
        self.0.len()
    }

    fn kind(&self, k: usize) -> Option<Kind> {
        self.0.get(k).copied()
    }

    fn ahead(&self, _k: usize) {}

    fn next(&self, _ahead: &mut (), k: usize) -> Option<Kind> {
        self.kind(k)
    }
}

/// The example of `tables`.
pub fn use_tables(rt: &HostRuntime, alloc: Global, grammar: &Grammar) -> Option<()> {
    let tables = Tables::build(alloc, grammar).ok()?;
    let action = tables.action(tables.start(), Some(Kind::Rule(0)));
    let shifts = matches!(action, Some(Move::Shift(_)));
    println!(rt; "a number is shifted: {shifts}").ok()
    // a number is shifted: true
}

/// The example of `parser`.
pub fn use_parser(rt: &HostRuntime, alloc: Global, tables: &Tables) -> Option<()> {
    let kinds = Listed(&[Kind::Rule(0), Kind::Rule(0)]);
    let mut store = Store::new(alloc);
    let parse = Parse::whole(alloc, tables, &mut store, &kinds).ok()?;
    let Verdict::FaultAt(k) = parse.verdict() else {
        return None;
    };
    println!(rt; "no sentence continues with kind {k}").ok()
    // no sentence continues with kind 1
}
