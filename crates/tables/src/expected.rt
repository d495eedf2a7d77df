//! What may come next in a state.
ghost use Rattle.std.specs.Prelude.{◌≡◌, []};
ghost use Rattle.std.specs.Iterator.{YieldsFirst, item_count};
ghost use Rattle.tables.specs.Expected.{in_file_order, rules_with_move};

use crate::decisions::Move;
use crate::packed::Entries;
use std::marker::Model;

/// The token rules that may come next, in file order, and after them `None` where the end may
/// come. It takes no memory.
#[derive(Drop)]
pub struct Expected<'a> {
    /// The moves of a state, by the token rule that is next.
    moves: Entries<'a, Move>,
    /// The first rule that was not looked at.
    rule: usize,
    /// Whether the end is still to be listed.
    at_end: bool,
}

impl<'a> Model for Expected<'a> {
    ghost use Rattle.std.specs.Prelude.{ℕ, List, Option, drop};
    ghost use Rattle.tables.specs.Expected.{in_file_order, rules_with_move};

    ghost Value = { List (Option ℕ) };

    ghost view = { λ e. in_file_order (rules_with_move e.rule (drop e.rule e.moves)) e.at_end };
}

impl<'a> Expected<'a> {
    /// The rules with a move in `moves`, which are indexed by rule, and then the end if `at_end`.
    pub(crate) fn new(moves: Entries<'a, Move>, at_end: bool) -> Expected<'a>
        ensures { result ≡ in_file_order (rules_with_move 0 moves.entry) at_end }
    {
        Expected {
            moves,
            rule: 0,
            at_end,
        }
    }

    /// Nothing.
    pub fn nothing() -> Expected<'a>
        ensures { result ≡ [] }
    {
        Expected::new(Entries::none(), false)
    }
}

impl<'a> Iterator for Expected<'a> {
    type Item = Option<usize>;

    ghost next_gives = { YieldsFirst (λ s. s) };

    ghost remaining = { item_count (λ s. s) };

    fn next(&mut self) -> Option<Option<usize>> {
        while self.rule < self.moves.len() {
            let rule = self.rule;
            self.rule += 1;
            if self.moves.at(rule).is_some() {
                return Some(Some(rule));
            }
        }
        if self.at_end {
            self.at_end = false;
            return Some(None);
        }
        None
    }
}
