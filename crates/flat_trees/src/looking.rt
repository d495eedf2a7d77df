//! How a flat tree is looked at.

use crate::flat::{FlatTree, Part};
use crate::told::{Line, Looked, NodePage, Way};
use definitions::{Position, Range};
use docs::{Doc, Language};
use forests::{Branch, Forest, Numbers};
use lexer::MoreThan;
use mending::Mending;
use parser::Verdict;
use std::alloc::{AllocError, Global};
use trees::{Child, NodeId};
use views::span_of;

/// How many parts a page has.
const PAGE: usize = 100;

/// How many nodes of a way are told, and how many of these are the first ones.
const MOST_NODES: usize = 80;

const FIRST_NODES: usize = 8;

/// How many nodes are told beside those on the way.
const MOST_NAMED: usize = 60;

/// How many characters of a token are told.
const MOST_CHARACTERS: usize = 60;

/// A tree that is looked at.
#[derive(Clone, Copy)]
struct Look<'a, 'n> {
    alloc: Global,
    doc: &'a Doc,
    flat: FlatTree<'a>,
    /// For which tokens the kinds of a mended copy stand; none in a tree of the text.
    numbers: Option<&'n Numbers>,
    root: NodeId,
}

/// The places from the first up to the second, that one too.
#[derive(Clone, Copy)]
struct Places {
    first: usize,
    last: usize,
}

/// What is looked at of the tree of a document: the way to the token at a position, or to the
/// smallest node around it, the nodes on this way, each with the page that the way goes on from,
/// and those that are named, with the page of the part that they are named with. Where the text
/// has a fault it is the tree of its mended copy; none where the copy has a fault too. The copy is
/// the document's.
///
/// Refuses for memory alone.
pub fn looked_at(
    alloc: Global,
    language: &Language,
    doc: &Doc,
    mending: Option<&Mending>,
    position: Position,
    named: &[Way],
) -> Result<Looked, AllocError> {
    let (forest, verdict, numbers) = match mending {
        Some(mending) => (
            Forest::of_copy(mending),
            mending.parse().verdict(),
            Some(Numbers::of(alloc, mending)?),
        ),
        None => (Forest::of_document(doc), doc.parse().verdict(), None),
    };
    let Verdict::Tree(root) = verdict else {
        return Ok(Looked {
            root: None,
            way: Vec::new(alloc),
            nodes: Vec::new(alloc),
        });
    };
    let look = Look {
        alloc,
        doc,
        flat: FlatTree::of(language, forest),
        numbers: numbers.as_ref(),
        root,
    };
    look.at(position, named)
}

impl Look<'_, '_> {
    /// What is looked at.
    fn at(self, position: Position, named: &[Way]) -> Result<Looked, AllocError> {
        let offset = self.doc.characters().offset(self.doc.unit(), position);
        let way = self.way(offset)?;
        let mut nodes = Vec::new(self.alloc);
        self.add_nodes_on(&mut nodes, &way)?;
        for named in named.iter().take(MOST_NAMED) {
            self.add_named(&mut nodes, named)?;
        }
        Ok(Looked {
            root: Some(self.line(self.first())?),
            way,
            nodes,
        })
    }

    /// The tree of the first line.
    fn first(self) -> Part {
        self.flat.part(Child::Node(self.root), 0)
    }

    /// The node that the line beginning with a tree ends with; none where it ends with a token.
    fn node(self, part: Part) -> Option<Branch> {
        self.flat.branch(self.flat.last_of_line(part))
    }

    /// The way to the token at an offset, or to the smallest node around it.
    fn way(self, offset: usize) -> Result<Vec<usize>, AllocError> {
        let mut way = Vec::new(self.alloc);
        let Some(places) = self.places_at(offset) else {
            return Ok(way);
        };
        let mut line = self.first();
        for _ in 0..self.flat.forest.count() {
            let Some(branch) = self.node(line) else {
                return Ok(way);
            };
            let parts = self.flat.parts(self.alloc, branch)?;
            let Some(number) = parts.iter().position(|part| has(*part, places)) else {
                return Ok(way);
            };
            let Some(part) = parts.get(number) else {
                return Ok(way);
            };
            way.push(number)?;
            line = *part;
        }
        Ok(way)
    }

    /// The place of the token at an offset, twice, or the places of those before and behind it;
    /// none before the first.
    fn places_at(self, offset: usize) -> Option<Places> {
        let tokens = self.doc.tokens();
        let (place, before) = tokens.items().locate(&MoreThan::Characters(offset));
        let next = before.significant as usize;
        if let Some(token) = tokens.token(place)
            && !token.skipped
        {
            return self.places(next, next);
        }
        let last = next.checked_sub(1)?;
        if next >= tokens.significant() || self.numbered(last)?.end == offset {
            return self.places(last, last);
        }
        self.places(last, next)
    }

    /// The places of two significant tokens, the second one not before the first; of one that is
    /// left out of the copy that of its neighbour on the other one's side.
    fn places(self, first: usize, last: usize) -> Option<Places> {
        let Some(numbers) = self.numbers else {
            return Some(Places { first, last });
        };
        Some(Places {
            first: numbers.last_up_to(first)?,
            last: numbers.first_from(last)?,
        })
    }

    /// Adds the nodes on a way, each with the page of the part that goes on.
    fn add_nodes_on(self, nodes: &mut Vec<NodePage>, way: &[usize]) -> Result<(), AllocError> {
        let mut line = self.first();
        for (level, number) in way.iter().enumerate() {
            let Some(branch) = self.node(line) else {
                return Ok(());
            };
            let parts = self.flat.parts(self.alloc, branch)?;
            if is_told(level, way.len()) {
                nodes.push(self.page(way.get(..level).unwrap_or(&[]), &parts, *number)?)?;
            }
            match parts.get(*number) {
                Some(part) => line = *part,
                None => return Ok(()),
            }
        }
        Ok(())
    }

    /// Adds a node that is named by the way to it, where this leads to one.
    fn add_named(self, nodes: &mut Vec<NodePage>, named: &Way) -> Result<(), AllocError> {
        let mut path = Vec::new(self.alloc);
        let mut line = self.first();
        for number in &named.path {
            let Some(branch) = self.node(line) else {
                return Ok(());
            };
            let parts = self.flat.parts(self.alloc, branch)?;
            let Some(part) = parts.get(*number as usize) else {
                return Ok(());
            };
            path.push(*number as usize)?;
            line = *part;
        }
        let Some(branch) = self.node(line) else {
            return Ok(());
        };
        let parts = self.flat.parts(self.alloc, branch)?;
        nodes.push(self.page(&path, &parts, named.part as usize)?)?;
        Ok(())
    }

    /// The page that has a part of the node at the end of a way; of a number that is too great the
    /// last one.
    fn page(self, path: &[usize], parts: &[Part], part: usize) -> Result<NodePage, AllocError> {
        let last = parts.len().saturating_sub(1);
        let first = part.min(last) / PAGE * PAGE;
        let mut lines = Vec::new(self.alloc);
        for part in parts.iter().skip(first).take(PAGE) {
            lines.push(self.line(*part)?)?;
        }
        Ok(NodePage {
            path: Vec::from_slice(self.alloc, path)?,
            count: parts.len(),
            first,
            parts: lines,
        })
    }

    /// The line that begins with a tree.
    fn line(self, part: Part) -> Result<Line, AllocError> {
        let last = self.flat.last_of_line(part);
        let branch = self.flat.branch(last);
        let range = self.range(last);
        Ok(Line {
            names: self.names(part)?,
            is_node: branch.is_some(),
            has_parts: branch.is_some_and(|branch| self.flat.has_parts(branch)),
            is_there: last.from >= last.to || range.is_some(),
            text: match (branch, self.token(last.from)) {
                (None, Some(token)) => Some(self.text(token)?),
                _ => None,
            },
            range,
        })
    }

    /// The names in the line that begins with a tree, from outer to inner.
    fn names(self, first: Part) -> Result<Vec<String>, AllocError> {
        let mut names = Vec::new(self.alloc);
        let mut next = Some(first);
        for _ in 0..=self.flat.forest.count() {
            let Some(part) = next else {
                return Ok(names);
            };
            names.push(String::from_str(self.alloc, self.flat.name(part))?)?;
            next = self.flat.only_child(part);
        }
        Ok(names)
    }

    /// The significant token of this number.
    fn numbered(self, number: usize) -> Option<views::Part> {
        if number < self.doc.tokens().significant() {
            Some(span_of(self.doc.tokens(), number))
        } else {
            None
        }
    }

    /// The significant token at this place; none of what is put in.
    fn token(self, place: usize) -> Option<views::Part> {
        match self.numbers {
            Some(numbers) => self.numbered(numbers.number(place)?),
            None => self.numbered(place),
        }
    }

    /// What the tokens of a tree that are in the text stand on.
    fn range(self, part: Part) -> Option<Range> {
        let (text, unit) = (self.doc.characters(), self.doc.unit());
        let first = (part.from..part.to).find_map(|place| self.token(place))?;
        let last = (part.from..part.to)
            .rev()
            .find_map(|place| self.token(place))?;
        Some(Range {
            start: text.position(unit, first.start),
            end: text.position(unit, last.end),
        })
    }

    /// The text of a token, or the first characters of it.
    fn text(self, token: views::Part) -> Result<String, AllocError> {
        let mut text = String::new(self.alloc);
        let length = token.end.saturating_sub(token.start).min(MOST_CHARACTERS);
        for character in self.doc.characters().chars_from(token.start).take(length) {
            text.push(character)?;
        }
        Ok(text)
    }
}

/// Whether a tree has the tokens at both places.
fn has(part: Part, places: Places) -> bool {
    part.from <= places.first && places.last < part.to
}

/// Whether the node at this level of a way of so many nodes is told.
fn is_told(level: usize, count: usize) -> bool {
    level < FIRST_NODES || level.saturating_add(MOST_NODES - FIRST_NODES) >= count
}
