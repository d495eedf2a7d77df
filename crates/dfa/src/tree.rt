//! The positions of a rule as a tree of little depth, in which what lies apart from a set of
//! positions is passed over.
ghost use Rattle.std.specs.Prelude.{◌≡◌, ◌+◌, ◌-◌, ◌<◌, ◌≤◌, ◌^◌, ◌++◌, true, false, length, IfOk};
ghost use Rattle.definitions.specs.Spelling.{IsWellMade};
ghost use Rattle.dfa.specs.Marks.{mark, marks_of};
ghost use Rattle.dfa.specs.Positions.{positions};
ghost use Rattle.dfa.specs.Sets.{AreMarksOf, Rises};
ghost use Rattle.dfa.specs.Trees.{any_mark, count, IsCounted, IsJoined, IsLiteralTree, IsOptional, IsPlus, IsTreeOf, tree_ends, tree_next};

use definitions::Expression;
use std::alloc::{AllocError, Global};
use std::mem;

/// The greatest count of positions of a part that is walked through where it might be passed over:
/// looking for one of its positions in the set takes longer.
const SMALL: usize = 8;

/// A rule, or a part of one. What it says of characters is left out, and a literal is a sequence
/// of its characters.
#[derive(Drop)]
pub enum Tree {
    /// One character.
    Position,
    /// The first part or the second if the flag is set, and otherwise the first, then the second.
    /// The number is how many positions they have.
    Pair(bool, usize, Box<Tree>, Box<Tree>),
    /// One or more repetitions of a part, and how many positions that has.
    Plus(usize, Box<Tree>),
    /// A part that may be left out, and how many positions it has.
    Optional(usize, Box<Tree>),
}

impl Tree {
    /// How many positions it has.
    pub fn count(&self) -> usize
        ensures { result ≡ count self.now }
    {
        match self {
            Tree::Position => 1,
            Tree::Pair(_, n, _, _) | Tree::Plus(n, _) | Tree::Optional(n, _) => *n,
        }
    }

    /// Puts a part after this one: as the other choice if the flag is set, and otherwise as the
    /// rest of a sequence. It goes down to the right while it finds a smaller part there, so that
    /// the tree stays balanced.
    fn join(&mut self, alloc: Global, is_choice: bool, last: Tree) -> Result<(), AllocError>
        requires fits { count self.old + count last < 2 ^ 64 }
        requires counted { IsCounted self.old }
        requires last_counted { IsCounted last }
        ensures { IfOk result (λ _. IsJoined is_choice self.old last self.new) }
    {
        let all = self.count() + last.count();
        match self {
            Tree::Pair(is_same, n, a, b)
                if *is_same == is_choice && b.count() + last.count() <= a.count() => {
                *n = all;
                b.join(alloc, is_choice, last)
            }
            _ => {
                let first = Box::new(alloc, mem::replace(self, Tree::Position))?;
                *self = Tree::Pair(is_choice, all, first, Box::new(alloc, last)?);
                Ok(())
            }
        }
    }

    /// Whether the part is passed over: nothing begins in it, and the set has none of its
    /// positions, which begin at `at`. A small part is rather walked through.
    fn is_apart(&self, set: &[usize], at: usize, start: bool) -> bool
        requires rises { Rises 0 set.now }
        requires within { at + count self.now < 2 ^ 64 }
        ensures { result ≡ true
            → (start ≡ false) × (any_mark (marks_of set.now) at (count self.now) ≡ false) }
    {
        !start && self.count() > SMALL && !meets(set, at, self.count())
    }

    /// Whether what was read can end with a text of this part, whose positions begin at `at`. The
    /// set, of which the marks are, says where the last character that was read can stand, and
    /// `start` says that the part can begin after it.
    #[tactic(auto, using(crate::proofs::Trees::no_end, crate::proofs::MarkedSets::same_mark))]
    pub fn ends(&self, set: &[usize], marks: &[bool], at: usize, start: bool) -> bool
        requires rises { Rises 0 set.now }
        requires marks { AreMarksOf set.now marks.now }
        requires counted { IsCounted self.now }
        requires within { at + count self.now ≤ length marks.now }
        ensures { result ≡ tree_ends (marks_of set.now) at start self.now }
    {
        if self.is_apart(set, at, start) {
            return false;
        }
        match self {
            Tree::Position => marks[at],
            Tree::Pair(false, _, a, b) => {
                let between = a.ends(set, marks, at, start);
                b.ends(set, marks, at + a.count(), between)
            }
            Tree::Pair(true, _, a, b) => {
                let first = a.ends(set, marks, at, start);
                let second = b.ends(set, marks, at + a.count(), start);
                first | second
            }
            Tree::Plus(_, a) => a.ends(set, marks, at, start),
            Tree::Optional(_, a) => {
                let once = a.ends(set, marks, at, start);
                once | start
            }
        }
    }

    /// Adds the positions of this part at which one more character can stand, whatever that
    /// character is. Returns what `ends` does.
    #[tactic(auto, using(crate::proofs::Trees::no_end, crate::proofs::MarkedSets::same_mark))]
    pub fn follow(
        &self,
        set: &[usize],
        marks: &[bool],
        at: usize,
        start: bool,
        out: &mut Vec<usize>,
    ) -> Result<bool, AllocError>
        requires rises { Rises 0 set.now }
        requires marks { AreMarksOf set.now marks.now }
        requires counted { IsCounted self.now }
        requires within { at + count self.now ≤ length marks.now }
        ensures next { IfOk result (λ _. out.new.items
            ≡ out.old.items ++ tree_next (marks_of set.now) at start self.now) }
        ensures end { IfOk result (λ end. end ≡ tree_ends (marks_of set.now) at start self.now) }
    {
        if self.is_apart(set, at, start) {
            return Ok(false);
        }
        match self {
            Tree::Position => {
                if start {
                    out.push(at)?;
                }
                Ok(marks[at])
            }
            Tree::Pair(false, _, a, b) => {
                let between = a.follow(set, marks, at, start, out)?;
                b.follow(set, marks, at + a.count(), between, out)
            }
            Tree::Pair(true, _, a, b) => {
                let first = a.follow(set, marks, at, start, out)?;
                let second = b.follow(set, marks, at + a.count(), start, out)?;
                Ok(first | second)
            }
            Tree::Plus(_, a) => {
                let end = a.ends(set, marks, at, start);
                a.follow(set, marks, at, end | start, out)?;
                Ok(end)
            }
            Tree::Optional(_, a) => {
                let once = a.follow(set, marks, at, start, out)?;
                Ok(once | start)
            }
        }
    }
}

/// Whether the position is in the set.
pub fn has(set: &[usize], p: usize) -> bool
    requires { Rises 0 set.now }
    ensures { result ≡ mark (marks_of set.now) p }
{
    set.binary_search(&p).is_ok()
}

/// Whether one of the `count` positions from `from` on is in the set.
fn meets(set: &[usize], from: usize, count: usize) -> bool
    requires rises { Rises 0 set.now }
    requires fits { from + count < 2 ^ 64 }
    ensures { result ≡ any_mark (marks_of set.now) from count }
{
    match set.binary_search(&from) {
        Ok(_) => count > 0,
        Err(next) => next < set.len() && set[next] < from + count,
    }
}

/// The tree of a literal: a sequence of its characters, by halves.
fn literal_tree(alloc: Global, characters: &[char]) -> Result<Tree, AllocError>
    requires { 0 < length characters.now }
    ensures { IfOk result (IsLiteralTree characters.now) }
{
    if characters.len() == 1 {
        return Ok(Tree::Position);
    }
    let (left, right) = characters.split_at(characters.len() / 2);
    let first = literal_tree(alloc, left)?;
    let last = literal_tree(alloc, right)?;
    Ok(Tree::Pair(
        false,
        characters.len(),
        Box::new(alloc, first)?,
        Box::new(alloc, last)?,
    ))
}

/// Puts a part after the tree, as `Tree::join` does.
#[inline(never)]
fn grow(alloc: Global, tree: &mut Tree, is_choice: bool, last: &mut Tree) -> Result<(), AllocError>
    requires fits { count tree.old + count last.old < 2 ^ 64 }
    requires counted { IsCounted tree.old }
    requires last_counted { IsCounted last.old }
    ensures { IfOk result (λ _. IsJoined is_choice tree.old last.old tree.new) }
{
    tree.join(alloc, is_choice, mem::replace(last, Tree::Position))
}

/// Makes it the tree of the same part at least once.
#[inline(never)]
fn repeat(alloc: Global, tree: &mut Tree) -> Result<(), AllocError>
    ensures { IfOk result (λ _. IsPlus tree.old tree.new) }
{
    let part = mem::replace(tree, Tree::Position);
    *tree = Tree::Plus(part.count(), Box::new(alloc, part)?);
    Ok(())
}

/// Makes the part optional.
#[inline(never)]
fn make_optional(alloc: Global, tree: &mut Tree) -> Result<(), AllocError>
    ensures { IfOk result (λ _. IsOptional tree.old tree.new) }
{
    let part = mem::replace(tree, Tree::Position);
    *tree = Tree::Optional(part.count(), Box::new(alloc, part)?);
    Ok(())
}

/// Makes it the tree of a literal.
#[inline(never)]
fn put_literal(alloc: Global, characters: &[char], tree: &mut Tree) -> Result<(), AllocError>
    requires { 0 < length characters.now }
    ensures { IfOk result (λ _. IsLiteralTree characters.now tree.new) }
{
    *tree = literal_tree(alloc, characters)?;
    Ok(())
}

/// Makes it the tree of a rule, or of a part of one, without what it says of characters.
///
/// It needs little of the stack: sequences and choices are nested to the left, as deep as they are
/// long.
fn put(alloc: Global, e: &Expression, tree: &mut Tree) -> Result<(), AllocError>
    requires made { IsWellMade e.now }
    requires few { positions e.now < 2 ^ 64 }
    ensures { IfOk result (λ _. IsTreeOf e.now tree.new) }
{
    match e {
        Expression::Literal(characters) => put_literal(alloc, characters, tree),
        Expression::Class { .. } => {
            *tree = Tree::Position;
            Ok(())
        }
        Expression::Sequence(a, b) => {
            put(alloc, a, tree)?;
            let mut last = Tree::Position;
            put(alloc, b, &mut last)?;
            grow(alloc, tree, false, &mut last)
        }
        Expression::Choice(a, b) => {
            put(alloc, a, tree)?;
            let mut last = Tree::Position;
            put(alloc, b, &mut last)?;
            grow(alloc, tree, true, &mut last)
        }
        Expression::Star(a) => {
            put(alloc, a, tree)?;
            repeat(alloc, tree)?;
            make_optional(alloc, tree)
        }
        Expression::Plus(a) => {
            put(alloc, a, tree)?;
            repeat(alloc, tree)
        }
        Expression::Optional(a) => {
            put(alloc, a, tree)?;
            make_optional(alloc, tree)
        }
    }
}

/// The tree of a rule.
pub fn tree_of(alloc: Global, e: &Expression) -> Result<Tree, AllocError>
    requires made { IsWellMade e.now }
    requires few { positions e.now < 2 ^ 64 }
    ensures { IfOk result (IsTreeOf e.now) }
{
    let mut tree = Tree::Position;
    put(alloc, e, &mut tree)?;
    Ok(tree)
}
