//! The table of an automaton, and its longest matches.
ghost use Rattle.std.specs.Prelude.{◌≡◌, ◌⊎◌, ℕ, ◌+◌, ◌-◌, ◌^◌, ◌<◌, ◌≤◌, All, take, drop, length, List, IfSome, IsTrue, Some};
ghost use Rattle.definitions.specs.declared.expression.Expression.{Expression};
ghost use Rattle.definitions.specs.Tokens.{IsPiece, IsReach};
ghost use Rattle.dfa.specs.Table.{part, follower, kind_of, IsAutomaton, Stays};
ghost use Rattle.dfa.specs.Matches.{IsBest, IsNoted};
ghost use Rattle.dfa.specs.Stored.{ascii_entry, table_of, IsState, IsStored};
ghost use Rattle.dfa.specs.Windows.{IsWithinReach};

use crate::Source;
use crate::alphabet::part_of;
use std::marker::Model;

/// After so many characters a token is long: its source passes over those that keep the state.
/// Most tokens are shorter, and a call would cost them more than it saves.
const LONG: usize = 16;

/// An automaton that finds the longest match of a list of rules.
#[derive(Drop)]
pub struct Automaton {
    /// The first characters of the parts of the alphabet, but for the first part.
    starts: Vec<char>,
    /// The part of each of the first 128 characters.
    ascii: Vec<usize>,
    /// A row for each state with an entry for each part: the next state, or 0 where there is none.
    next: Vec<u16>,
    /// For each state the first rule that has its texts, if one does.
    accepts: Vec<Option<usize>>,
}

impl Model for Automaton {
    ghost use Rattle.dfa.specs.Table.{Table};
    ghost use Rattle.dfa.specs.Stored.{table_of, IsStored};

    ghost Value = { Table };

    ghost view = { λ a. table_of a.starts.items a.next.items a.accepts.items };

    ghost invariant = { λ a. IsStored a.starts.items a.ascii.items a.next.items a.accepts.items };
}

/// A state, with what is looked up of it where it is entered.
#[derive(Clone, Copy)]
struct State {
    number: usize,
    /// Where its row begins.
    row: usize,
    /// The first rule that has its texts, if one does.
    rule: Option<usize>,
}

/// The first token from an offset on.
#[derive(Clone, Copy, Debug, PartialEq, Eq)]
pub struct Match {
    /// The number of the rule that it matches, or none.
    pub rule: Option<usize>,
    /// How many characters it has.
    pub length: usize,
    /// The fewest characters from the offset on that begin no text of any rule, or, where there
    /// are none, one more than are left. No character after them affects the token.
    pub reach: usize,
}

impl Match {
    /// The longer match after `read` characters, to which this rule belongs, or this one where
    /// none does.
    fn or_longer(self, rule: Option<usize>, read: usize) -> Match
        ensures best { (rules : List Expression) (t : List ℕ)
            → IsNoted rules t read rule self.rule self.length
            → IsBest rules t read result.rule result.length }
        ensures either { (result ≡ self) ⊎ ((0 < read) × (result.length ≡ read)) }
    {
        if read == 0 {
            return self;
        }
        match rule {
            Some(_) => Match {
                rule,
                length: read,
                reach: self.reach,
            },
            None => self,
        }
    }
}

/// The row of a state, with the part of each of the first 128 characters.
#[derive(Drop)]
struct StateRow<'a> {
    ascii: &'a [usize],
    /// The entries of the row, and what stands after them.
    entries: &'a [u16],
}

impl<'a> Model for StateRow<'a> {
    ghost use Rattle.dfa.specs.Stored.{AsciiRow, IsAsciiRow};

    ghost Value = { AsciiRow };

    ghost view = { λ r. record { ascii = r.ascii.now; entries = r.entries.now } };

    ghost invariant = { λ r.
        IsAsciiRow (record { ascii = r.ascii.now; entries = r.entries.now }) };
}

impl<'a> StateRow<'a> {
    /// Whether the character is in ASCII, and the next state there has this number.
    fn leads_to(&self, number: usize, c: char) -> bool
        ensures ascii { IsTrue result → c < 128 }
        ensures led { IsTrue result → ascii_entry self.now c ≡ number }
        ensures all { c < 128 → ascii_entry self.now c ≡ number → IsTrue result }
    {
        c.is_ascii() && usize::from(self.entries[self.ascii[c as usize]]) == number
    }
}

impl Automaton {
    /// The automaton with this table.
    pub(crate) fn new(
        starts: Vec<char>,
        ascii: Vec<usize>,
        next: Vec<u16>,
        accepts: Vec<Option<usize>>,
    ) -> Automaton
        requires { IsStored starts.items ascii.items next.items accepts.items }
        ensures { result ≡ table_of starts.items next.items accepts.items }
    {
        Automaton {
            starts,
            ascii,
            next,
            accepts,
        }
    }

    /// The number of the part of the alphabet in which the character lies.
    fn part(&self, c: char) -> usize
        ensures { result ≡ part self.now.starts c }
    {
        if c.is_ascii() {
            self.ascii[c as usize]
        } else {
            part_of(&self.starts, c)
        }
    }

    /// The state of this number.
    fn state(&self, number: usize) -> State
        requires { number < length self.now.accepts }
        ensures number { result.number ≡ number }
        ensures is { IsState self.now result }
    {
        State {
            number,
            row: number * (self.starts.len() + 1),
            rule: self.accepts[number],
        }
    }

    /// The state before the first character.
    fn start(&self) -> State
        ensures number { result.number ≡ 0 }
        ensures is { IsState self.now result }
    {
        // The read opens the invariant.
        let _accepts = &self.accepts;
        self.state(0)
    }

    /// The row of a state.
    fn row(&self, state: State) -> StateRow<'_>
        requires { IsState self.now state }
        ensures { (number c : ℕ) → 0 < number → c < 128 → ascii_entry result c ≡ number
            → follower self.now state.number c ≡ Some number }
    {
        StateRow {
            ascii: self.ascii.as_slice(),
            entries: &self.next[state.row..],
        }
    }

    /// The number of the next state at the character, if there is one.
    fn next(&self, state: State, c: char) -> Option<usize>
        requires { IsState self.now state }
        ensures is { result ≡ follower self.now state.number c }
        ensures inside { IfSome result (λ t. t < length self.now.accepts) }
    {
        let next = self.next[state.row + self.part(c)];
        if next == 0 {
            None
        } else {
            Some(usize::from(next))
        }
    }

    /// How many characters from an offset on keep the state, as far as the source passes over
    /// them. The place moves on with them.
    #[cold]
    #[inline(never)]
    fn stay<S: Source>(&self, source: &S, ahead: &mut S::Ahead, at: usize, state: State) -> usize
        requires is { IsState self.now state }
        requires entered { 0 < state.number }
        requires within { at ≤ length (S.text source.now) }
        requires before { S.is_before source.now at ahead.old }
        requires window { (n : ℕ) → at + n < length (S.text source.now)
            → All (Stays self.now state.number) (take n (drop at (S.text source.now)))
            → S.in_window source.now (at + n) }
        ensures inside { at + result ≤ length (S.text source.now) }
        ensures kept { All (Stays self.now state.number)
            (take result (drop at (S.text source.now))) }
        ensures moved { S.is_before source.now (at + result) ahead.new }
    {
        let row = self.row(state);
        source.pass(ahead, at, |c| row.leads_to(state.number, c))
    }

    /// The token that starts at the offset `from`: the longest match, of equal lengths the earlier
    /// rule. Where nothing matches it is one character, or none at the end.
    ///
    /// It takes no memory, and asks the source for no character outside the token's reach.
    pub fn longest<S: Source>(&self, source: &S, from: usize) -> Match
        requires within { from ≤ length (S.text source.now) }
        requires small { length (S.text source.now) < 2 ^ 64 - 1 }
        requires window { (rules : List Expression) × IsAutomaton rules self.now
            × ((i : ℕ) → IsWithinReach rules (S.text source.now) from i
            → S.in_window source.now i) }
        ensures piece { (rules : List Expression) → IsAutomaton rules self.now
            → from < length (S.text source.now)
            → IsPiece rules (drop from (S.text source.now)) (kind_of result.rule) result.length }
        ensures reach { (rules : List Expression) → IsAutomaton rules self.now
            → IsReach rules (drop from (S.text source.now)) result.reach }
        ensures at_end { from ≡ length (S.text source.now) → (result.rule ≡ None)
            × (result.length ≡ 0) }
        ensures inside { from + result.length ≤ length (S.text source.now) }
        ensures nonempty { from < length (S.text source.now) → 1 ≤ result.length }
        ensures near { result.reach ≤ length (S.text source.now) + 1 }
    {
        let rest = source.len() - from;
        let mut ahead = source.ahead(from);
        let mut state = self.start();
        let mut read = 0;
        let mut best = Match {
            rule: None,
            length: rest.min(1),
            reach: 0,
        };
        while read < rest {
            let c = source.next(&mut ahead, from + read);
            let Some(next) = self.next(state, c) else {
                break;
            };
            // Within a long token most characters keep the state, and nothing else is done for
            // them.
            if next == state.number {
                read += 1;
                if read >= LONG && c.is_ascii() {
                    read += self.stay(source, &mut ahead, from + read, state);
                }
            } else {
                best = best.or_longer(state.rule, read);
                state = self.state(next);
                read += 1;
            }
        }
        best = best.or_longer(state.rule, read);
        best.reach = read + 1;
        best
    }
}
