//! What a document's tokens and trees are, in flat lists.

ghost use Rattle.std.specs.Prelude.{List};
ghost use Rattle.definitions.specs.declared.Kind.{Kind as TokenKind};
ghost use Rattle.trees.specs.Cells.{Cell};
ghost use Rattle.lexer.specs.Rescans.{significant_kinds};
ghost use Rattle.parser.specs.Parses.{IsParseOf};

use crate::document::{Document, Ending, ending_of};
use definitions::Kind;
use docs::Language;
use lexer::{Token, Tokens};
use parser::Parse;
use std::alloc::Global;
use std::process::Abort;
use tables::Tables;
use trees::{Child, Children, NodeId, Store};

/// No walk over the trees of so short texts takes more steps.
const MOST_STEPS: usize = 1_000;

/// A token, and the offset at which it starts.
#[derive(Clone, Copy)]
pub struct Placed {
    pub start: usize,
    pub token: Token,
}

/// A branch with the tokens `from..to` as its yield. It and the branches below it are `size` ones.
#[derive(Clone, Copy)]
pub struct Branch {
    pub production: usize,
    pub from: usize,
    pub to: usize,
    pub size: usize,
    pub born: u64,
}

/// The tokens of a document, the branches of its trees in preorder, and what is reported of its
/// parse.
#[derive(Drop)]
pub struct Facts {
    pub tokens: Vec<Placed>,
    pub branches: Vec<Branch>,
    pub ending: Ending,
    pub expected: Vec<Option<usize>>,
}

fn placed_tokens(rt: &impl Abort, alloc: Global, tokens: &Tokens) -> Vec<Placed> {
    let mut all = Vec::new(alloc);
    let mut start: usize = 0;
    for i in 0..tokens.count() {
        if let Some(token) = tokens.token(i) {
            all.push(Placed { start, token }).expect(rt, "memory");
            start = start.saturating_add(token.length as usize);
        }
    }
    all
}

fn push_reversed(rt: &impl Abort, pending: &mut Vec<Child>, children: Children<'_>) {
    for child in children.rev() {
        pending.push(child).expect(rt, "memory");
    }
}

/// The branch of a node whose first token is this one. None where there is no such node.
fn branch_at(store: &Store, id: NodeId, from: usize) -> Option<Branch> {
    if id.index >= store.len() {
        return None;
    }
    Some(Branch {
        production: store.production(id),
        from,
        to: from.saturating_add(store.tokens(id) as usize),
        size: store.size(id) as usize,
        born: store.born(id),
    })
}

fn push_children(rt: &impl Abort, pending: &mut Vec<Child>, store: &Store, id: NodeId) {
    if id.index < store.len() {
        push_reversed(rt, pending, store.children(id));
    }
}

/// The branches of the trees, in preorder.
fn branches_of(rt: &impl Abort, alloc: Global, store: &Store, trees: &[Child]) -> Vec<Branch> {
    let mut pending = Vec::new(alloc);
    push_reversed(rt, &mut pending, Children::of(trees));
    let mut branches = Vec::new(alloc);
    let mut at: usize = 0;
    for _ in 0..MOST_STEPS {
        match pending.pop() {
            None => break,
            Some(Child::Token(_)) => at = at.saturating_add(1),
            Some(Child::Node(id)) => {
                if let Some(branch) = branch_at(store, id, at) {
                    branches.push(branch).expect(rt, "memory");
                }
                push_children(rt, &mut pending, store, id);
            }
        }
    }
    branches
}

/// What may stand at the fault.
fn expected_of(rt: &impl Abort, alloc: Global, tables: &Tables, parse: &Parse) -> Vec<Option<usize>>
    requires { (kinds : List TokenKind) × (cells : List Cell)
        × IsParseOf tables.now kinds cells parse.now }
{
    parse.expected(tables).collect(alloc).expect(rt, "memory")
}

/// What is so of a document.
pub fn facts_of(rt: &impl Abort, alloc: Global, language: &Language, document: &Document) -> Facts
    requires { IsParseOf language.now.tables (significant_kinds document.now.tokens.items)
        document.now.store document.now.parse }
{
    Facts {
        tokens: placed_tokens(rt, alloc, &document.tokens),
        branches: branches_of(rt, alloc, &document.store, document.parse.stack()),
        ending: ending_of(&document.parse),
        expected: expected_of(rt, alloc, language.tables(), &document.parse),
    }
}

/// The kinds of the significant ones of the tokens `from..to`.
pub fn kinds_in(
    rt: &impl Abort,
    alloc: Global,
    tokens: &[Placed],
    from: usize,
    to: usize,
) -> Vec<Kind> {
    let mut kinds = Vec::new(alloc);
    for (k, placed) in tokens.iter().enumerate() {
        if from <= k && k < to && !placed.token.skipped {
            kinds.push(placed.token.kind()).expect(rt, "memory");
        }
    }
    kinds
}
