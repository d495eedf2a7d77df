//! What callers rely on of what is looked at of a document: `forests`, `token_rows` and
//! `flat_trees`.

ghost use Rattle.std.specs.Prelude.{◌≡◌, ◌<◌, All, IfOk, None, Some, length, min};
ghost use Rattle.definitions.specs.Trees.{yield};
ghost use Rattle.docs.specs.Docs.{IsCurrent};
ghost use Rattle.definitions.specs.TreeEdits.{plain};
ghost use Rattle.trees.specs.Cells.{IsBelow, cell_of, most, tree};
ghost use Rattle.token_rows.specs.Rows.{IsRowOf};

use definitions::{Position, Range};
use docs::{Doc, Language};
use flat_trees::{Line, Looked, NodePage, Way};
use forests::{Branch, Forest, Numbers};
use mending::Mending;
use std::alloc::{AllocError, Global};
use tables::Expected;
use token_rows::TokenRow;
use trees::{Child, Children, NodeId};

/// `Branch`.
pub fn branch(branch: Branch) -> (NodeId, usize) {
    let Branch { id, from } = branch;
    (id, from)
}

/// `Forest::of_document`.
pub fn forest_of_document(doc: &Doc) -> Forest<'_>
    ensures { result.store.now ≡ doc.now.store }
{
    Forest::of_document(doc)
}

/// `Forest::of_copy`.
pub fn forest_of_copy(mending: &Mending) -> Forest<'_>
    ensures { result.store.now ≡ mending.now.store }
{
    Forest::of_copy(mending)
}

/// `Forest::count`.
pub fn forest_count(forest: Forest<'_>) -> usize
    ensures { result ≡ length forest.entry.store.now }
{
    forest.count()
}

/// `Forest::tokens`.
pub fn forest_tokens(forest: Forest<'_>, child: Child) -> usize
    ensures { let store = forest.entry.store.now in IsBelow (length store) child
        → result ≡ min most (length (yield (plain (tree store child)))) }
{
    forest.tokens(child)
}

/// `Forest::production`.
pub fn forest_production(forest: Forest<'_>, branch: Branch) -> Option<usize>
    ensures { let store = forest.entry.store.now in branch.id.index < length store
        → result ≡ Some (cell_of store branch.id).production }
{
    forest.production(branch)
}

/// `Forest::siblings`.
pub fn forest_siblings<'a>(forest: Forest<'a>, branch: Option<Branch>) -> Children<'a>
    ensures { branch ≡ None → result ≡ forest.entry.roots.now }
{
    forest.siblings(branch)
}

/// `Forest::branch`.
pub fn forest_branch(forest: Forest<'_>, child: Child, from: usize) -> Option<Branch> {
    forest.branch(child, from)
}

/// `Forest::below`.
pub fn forest_below(forest: Forest<'_>, branch: Option<Branch>, place: usize) -> Option<Branch> {
    forest.below(branch, place)
}

/// `Forest::innermost`.
pub fn forest_innermost(forest: Forest<'_>, place: usize) -> Option<Branch> {
    forest.innermost(place)
}

/// `Numbers::of`.
pub fn numbers_of(alloc: Global, mending: &Mending) -> Result<Numbers, AllocError> {
    Numbers::of(alloc, mending)
}

/// `Numbers::number`.
pub fn number_at(numbers: &Numbers, place: usize) -> Option<usize> {
    numbers.number(place)
}

/// `Numbers::place`.
pub fn place_of(numbers: &Numbers, number: usize) -> Option<usize> {
    numbers.place(number)
}

/// `Numbers::last_up_to`.
pub fn last_place_up_to(numbers: &Numbers, number: usize) -> Option<usize> {
    numbers.last_up_to(number)
}

/// `Numbers::first_from`.
pub fn first_place_from(numbers: &Numbers, number: usize) -> Option<usize> {
    numbers.first_from(number)
}

/// `TokenRow`.
pub fn token_row(row: TokenRow) -> (String, Range, String, bool) {
    let TokenRow {
        name,
        range,
        text,
        is_skipped,
    } = row;
    (name, range, text, is_skipped)
}

/// `token_rows::token_rows`.
pub fn token_rows(
    alloc: Global,
    language: &Language,
    doc: &Doc,
    from: u32,
    to: u32,
) -> Result<Vec<TokenRow>, AllocError>
    ensures { IfOk result (λ rows.
        All (IsRowOf doc.now.unit doc.now.text to) rows.items) }
{
    token_rows::token_rows(alloc, language, doc, from, to)
}

/// `Line`.
pub fn line(line: Line) -> (Vec<String>, [bool; 3], Option<Range>, Option<String>) {
    let Line {
        names,
        is_node,
        has_parts,
        is_there,
        range,
        text,
    } = line;
    (names, [is_node, has_parts, is_there], range, text)
}

/// `Way`.
pub fn way(path: Vec<u32>, part: u32) -> Way {
    Way { path, part }
}

/// `NodePage`.
pub fn page(page: NodePage) -> (Vec<usize>, usize, usize, Vec<Line>) {
    let NodePage {
        path,
        count,
        first,
        parts,
    } = page;
    (path, count, first, parts)
}

/// `Looked`.
pub fn looked(looked: Looked) -> (Option<Line>, Vec<usize>, Vec<NodePage>) {
    let Looked { root, way, nodes } = looked;
    (root, way, nodes)
}

/// `flat_trees::following`.
pub fn following<'a>(
    alloc: Global,
    language: &'a Language,
    doc: &Doc,
    mending: Option<&Mending>,
    position: Position,
) -> Result<Expected<'a>, AllocError>
    requires { IsCurrent language.now doc.now }
{
    flat_trees::following(alloc, language, doc, mending, position)
}

/// `flat_trees::looked_at`.
pub fn looked_at(
    alloc: Global,
    language: &Language,
    doc: &Doc,
    mending: Option<&Mending>,
    position: Position,
    named: &[Way],
) -> Result<Looked, AllocError> {
    flat_trees::looked_at(alloc, language, doc, mending, position, named)
}
