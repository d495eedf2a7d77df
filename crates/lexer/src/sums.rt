//! Tokens, and what a list of them adds up to.

ghost use Rattle.std.specs.Prelude.{◌≡◌, ◌<◌, ◌^◌, IfSome};
ghost use Rattle.dfa.specs.Table.{kind_of};
ghost use Rattle.lexer.specs.Tokens.{long, kind_in};

use definitions::Kind;
use seqtree::{Goal, Measured, Monoid};

/// A kind in 16 bits, which are enough for the rules of a grammar.
#[derive(Clone, Copy, Debug, PartialEq, Eq)]
pub enum ShortKind {
    /// A token of the rule with this number.
    Rule(u16),
    /// A token that matches no rule.
    Invalid,
}

impl ShortKind {
    /// The kind of a token that matches this rule, or none.
    pub(crate) fn of_rule(rule: Option<usize>) -> ShortKind
        requires { IfSome rule (λ k. k < 2 ^ 16) }
        ensures { long result ≡ kind_of rule }
    {
        match rule {
            Some(k) => ShortKind::Rule(k as u16),
            None => ShortKind::Invalid,
        }
    }

    /// The kind that it stands for.
    pub fn long(self) -> Kind
        ensures { result ≡ long self }
    {
        match self {
            ShortKind::Rule(k) => Kind::Rule(k as usize),
            ShortKind::Invalid => Kind::Invalid,
        }
    }
}

/// A token: the number of the edit that made it, its kind, its length and its reach in characters,
/// and whether it is skipped.
#[derive(Clone, Copy, Debug, PartialEq, Eq)]
pub struct Token {
    /// The number of the edit.
    pub born: u64,
    /// How many characters it has.
    pub length: u32,
    /// On how many characters from its start on it rests.
    pub reach: u32,
    /// The rule that it matches, or that it matches none.
    pub short_kind: ShortKind,
    /// Whether its rule is one of those that a parser does not see.
    pub skipped: bool,
}

impl Token {
    /// The rule that it matches, or that it matches none.
    pub fn kind(&self) -> Kind
        ensures { result ≡ kind_in self.now }
    {
        self.short_kind.long()
    }
}

/// How many tokens are significant, how many characters all have, and the greatest sum of a start
/// and a reach, which is 0 for no token.
#[derive(Clone, Copy, Debug, PartialEq, Eq)]
pub struct Sums {
    /// How many tokens are not skipped.
    pub significant: u32,
    /// How many characters they have.
    pub characters: u32,
    /// The greatest sum of a start and a reach.
    pub end: u32,
}

impl Monoid for Sums {
    ghost use Rattle.lexer.specs.Sums.{no_tokens, joined};
    ghost use Rattle.lexer.specs.Laws.{sums_laws};

    ghost empty = { no_tokens };

    ghost op = { joined };

    ghost laws = { sums_laws };

    fn zero() -> Sums {
        Sums {
            significant: 0,
            characters: 0,
            end: 0,
        }
    }

    fn join(&self, other: &Sums) -> Sums {
        Sums {
            significant: self.significant.saturating_add(other.significant),
            characters: self.characters.saturating_add(other.characters),
            end: if other.end == 0 {
                self.end
            } else {
                self.end.max(self.characters.saturating_add(other.end))
            },
        }
    }
}

impl Measured for Token {
    ghost use Rattle.lexer.specs.Sums.{token_sum};

    type Sum = Sums;

    ghost measure = { token_sum };

    fn sum(&self) -> Sums {
        Sums {
            significant: if self.skipped { 0 } else { 1 },
            characters: self.length,
            end: self.reach,
        }
    }
}

/// Which token of a list is looked for: the first one up to which, it included, there is more than
/// this.
#[derive(Clone, Copy)]
pub enum MoreThan {
    /// This many significant tokens.
    Significant(usize),
    /// This many characters.
    Characters(usize),
    /// A reach up to this offset.
    Reach(usize),
}

impl Goal<Sums> for MoreThan {
    ghost use Rattle.lexer.specs.Sums.{has_more};
    ghost use Rattle.lexer.specs.Laws.{more_stays};

    ghost reaches = { has_more };

    ghost stays = { more_stays };

    fn reached(&self, sum: &Sums) -> bool {
        match *self {
            MoreThan::Significant(count) => count < sum.significant as usize,
            MoreThan::Characters(count) => count < sum.characters as usize,
            MoreThan::Reach(offset) => offset < sum.end as usize,
        }
    }
}
