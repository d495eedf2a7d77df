//! Trees in which lists don't nest, and a node with one part stands in the line of that part.

use definitions::Kind;
use docs::Language;
use forests::{Branch, Forest};
use grammar::Grammar;
use std::alloc::{AllocError, Global};
use trees::Child;

/// The trees of a document or its copy.
#[derive(Clone, Copy)]
pub(crate) struct FlatTree<'a> {
    pub(crate) grammar: &'a Grammar,
    pub(crate) forest: Forest<'a>,
}

/// A tree, and the places of its first token and of the one after its last.
#[derive(Clone, Copy)]
pub(crate) struct Part {
    pub(crate) child: Child,
    pub(crate) from: usize,
    pub(crate) to: usize,
}

impl<'a> FlatTree<'a> {
    /// The trees of a language.
    pub(crate) fn of(language: &'a Language, forest: Forest<'a>) -> FlatTree<'a> {
        FlatTree {
            grammar: language.grammar(),
            forest,
        }
    }

    /// The tree whose first token has the place `from`.
    pub(crate) fn part(self, child: Child, from: usize) -> Part {
        Part {
            child,
            from,
            to: from.saturating_add(self.forest.tokens(child)),
        }
    }

    /// The node that a part is; none of a token.
    pub(crate) fn branch(self, part: Part) -> Option<Branch> {
        self.forest.branch(part.child, part.from)
    }

    /// The nonterminal of a node.
    fn nonterminal(self, branch: Branch) -> Option<usize> {
        match self.forest.production(branch) {
            Some(production) if production < self.grammar.productions() => {
                Some(self.grammar.left(production))
            }
            _ => None,
        }
    }

    /// The name of a node's nonterminal, or of a token's rule.
    pub(crate) fn name(self, part: Part) -> &'a str {
        match (part.child, self.branch(part)) {
            (_, Some(branch)) => match self.nonterminal(branch) {
                Some(nonterminal) if nonterminal < self.grammar.nonterminals() => {
                    self.grammar.nonterminal_name(nonterminal)
                }
                _ => "",
            },
            (Child::Token(Kind::Rule(rule)), None) if rule < self.grammar.rules() => {
                self.grammar.kind_name(Kind::Rule(rule))
            }
            _ => "",
        }
    }

    /// The only child of a node that has one.
    pub(crate) fn only_child(self, part: Part) -> Option<Part> {
        let branch = self.branch(part)?;
        let mut children = self.forest.siblings(Some(branch));
        let child = children.next()?;
        match children.next() {
            Some(_) => None,
            None => Some(self.part(child, branch.from)),
        }
    }

    /// What the line that begins with a tree ends with: a token, or a node that has no part or
    /// more than one.
    pub(crate) fn last_of_line(self, first: Part) -> Part {
        let mut last = first;
        for _ in 0..self.forest.count() {
            let Some(inner) = self.only_child(last) else {
                return last;
            };
            last = inner;
        }
        last
    }

    /// Whether a node has a part.
    pub(crate) fn has_parts(self, branch: Branch) -> bool {
        self.forest.siblings(Some(branch)).next().is_some()
    }

    /// The node of the same nonterminal that a node begins with.
    fn first_of_same(self, branch: Branch) -> Option<Branch> {
        let child = self.forest.siblings(Some(branch)).next()?;
        let inner = self.forest.branch(child, branch.from)?;
        if self.nonterminal(inner) == self.nonterminal(branch) {
            Some(inner)
        } else {
            None
        }
    }

    /// A node, and those of its nonterminal that each begin the one before.
    fn chain(self, alloc: Global, branch: Branch) -> Result<Vec<Branch>, AllocError> {
        let mut chain = Vec::new(alloc);
        let mut next = Some(branch);
        for _ in 0..=self.forest.count() {
            let Some(outer) = next else {
                return Ok(chain);
            };
            chain.push(outer)?;
            next = self.first_of_same(outer);
        }
        Ok(chain)
    }

    /// Adds the children of a node but for so many, behind those so far.
    fn add_children(
        self,
        parts: &mut Vec<Part>,
        branch: Branch,
        but: usize,
    ) -> Result<(), AllocError> {
        let mut at = match parts.last() {
            Some(part) => part.to,
            None => branch.from,
        };
        for child in self.forest.siblings(Some(branch)).skip(but) {
            let part = self.part(child, at);
            at = part.to;
            parts.push(part)?;
        }
        Ok(())
    }

    /// The parts of a node in a tree where lists don't nest.
    pub(crate) fn parts(self, alloc: Global, branch: Branch) -> Result<Vec<Part>, AllocError> {
        let mut parts = Vec::new(alloc);
        for (number, inner) in self.chain(alloc, branch)?.iter().rev().enumerate() {
            let begun = if number == 0 { 0 } else { 1 };
            self.add_children(&mut parts, *inner, begun)?;
        }
        Ok(parts)
    }
}
