//! The children of nodes, in 32 bits each.

ghost use Rattle.std.specs.Prelude.{◌≡◌, map, slice_get, IfSome, IsSome};
ghost use Rattle.std.specs.Iterator.{YieldsFirst, YieldsLast, item_count};
ghost use Rattle.trees.specs.Packing.{unpack, HasNumber};

use crate::store::{Child, NodeId};
use definitions::Kind;
use std::marker::Model;

/// The number of an invalid token: nodes have the numbers below it, and rules those above it.
const HALF: usize = 2_147_483_648;

/// The same number in 32 bits.
const INVALID: u32 = 2_147_483_648;

/// Children of a node, in order. It takes no memory.
#[derive(Drop)]
pub struct Children<'a> {
    rest: Rest<'a>,
}

/// The children that are still to come.
#[derive(Drop)]
enum Rest<'a> {
    /// The number of each.
    Narrow(&'a [u32]),
    /// Each as it is.
    Wide(&'a [Child]),
}

impl<'a> Model for Children<'a> {
    ghost use Rattle.std.specs.Prelude.{List};
    ghost use Rattle.trees.specs.declared.store.Child.{Child};
    ghost use Rattle.trees.specs.Rests.{children_in};

    ghost Value = { List Child };

    ghost view = { λ c. children_in c.rest };
}

impl<'a> Children<'a> {
    /// The children of these numbers.
    pub(crate) fn narrow(numbers: &'a [u32]) -> Children<'a>
        ensures { result ≡ map unpack numbers.now }
    {
        Children {
            rest: Rest::Narrow(numbers),
        }
    }

    /// Child number `k` of those that are still to come, counted from 0; none past the last one.
    pub(crate) fn get(&self, k: usize) -> Option<Child>
        ensures { result ≡ slice_get self.now k }
    {
        match self.rest {
            Rest::Narrow(numbers) => numbers.get(k).map(|number| unpack(*number)),
            Rest::Wide(children) => children.get(k).copied(),
        }
    }

    /// These children.
    pub fn of(children: &'a [Child]) -> Children<'a>
        ensures { result ≡ children.now }
    {
        Children {
            rest: Rest::Wide(children),
        }
    }
}

impl<'a> Iterator for Children<'a> {
    type Item = Child;

    ghost next_gives = { YieldsFirst (λ s. s) };

    ghost remaining = { item_count (λ s. s) };

    fn next(&mut self) -> Option<Child> {
        match self.rest {
            Rest::Narrow(numbers) => {
                let (first, rest) = numbers.split_first()?;
                self.rest = Rest::Narrow(rest);
                Some(unpack(*first))
            }
            Rest::Wide(children) => {
                let (first, rest) = children.split_first()?;
                self.rest = Rest::Wide(rest);
                Some(*first)
            }
        }
    }
}

impl<'a> DoubleEndedIterator for Children<'a> {
    ghost next_back_gives = { YieldsLast (λ s. s) };

    fn next_back(&mut self) -> Option<Child> {
        match self.rest {
            Rest::Narrow(numbers) => {
                let (last, rest) = numbers.split_last()?;
                self.rest = Rest::Narrow(rest);
                Some(unpack(*last))
            }
            Rest::Wide(children) => {
                let (last, rest) = children.split_last()?;
                self.rest = Rest::Wide(rest);
                Some(*last)
            }
        }
    }
}

/// The number of a child, where it has one of 32 bits.
pub(crate) fn pack(child: Child) -> Option<u32>
    ensures is { IfSome result (λ number. unpack number ≡ child) }
    ensures every { HasNumber child → IsSome result }
{
    match child {
        Child::Node(id) if id.index < HALF => Some(id.index as u32),
        Child::Token(Kind::Invalid) => Some(INVALID),
        Child::Token(Kind::Rule(rule)) if rule < HALF - 1 => Some((rule + 1 + HALF) as u32),
        _ => None,
    }
}

/// The child of a number.
pub(crate) fn unpack(number: u32) -> Child
    ensures { result ≡ unpack number }
{
    let number = number as usize;
    if number < HALF {
        Child::Node(NodeId { index: number })
    } else if number == HALF {
        Child::Token(Kind::Invalid)
    } else {
        Child::Token(Kind::Rule(number - HALF - 1))
    }
}
