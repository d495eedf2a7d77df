//! The search for few changes that mend a fault.
//!
//! Each kind that is put in or left out costs one, four at most, and one more to put it in where
//! it is dear; each kind from the first change up to the fault a half, and so do each two
//! strangers that come to stand side by side, and each bracket of the text that has no partner;
//! one that had a partner costs one and a half more; a fault behind the changes one, or two within
//! 32 kinds. Of those as cheap the changes are taken with which the most kinds go on (up to 256),
//! then those of the least ranks, then the first: leaving out, then rules in file order. Of
//! changes that lead to the same stack only the cheapest are tried, and more changes only while
//! the best of fewer costs more than their number.

use crate::ahead::{Ahead, ENOUGH};
use crate::balance::Balance;
use crate::change::Change;
use crate::guide::Guide;
use crate::rank::Rank;
use definitions::Kind;
use indexmap::IndexMap;
use std::alloc::{AllocError, Global};

/// How many kinds may be put in or left out together.
const MOST_CHANGES: usize = 4;

/// How many kinds have to go on after a change so that a fault behind them is another one.
const NEAR: usize = 32;

/// How many kinds have to go on, where the moves run out before all changes are tried.
const FEW: usize = 8;

/// What a change costs.
const CHANGE: usize = 4;

/// What a fault costs that comes sooner, since it mostly follows from the changes.
const SOON: usize = 2 * CHANGE;

/// What another fault costs.
const LATER: usize = CHANGE;

/// What a bracket costs that has no partner.
const ALONE: usize = CHANGE / 2;

/// What it costs besides if it had one.
const UNMATCHED: usize = 2 * CHANGE - ALONE;

/// What two kinds cost that come to stand side by side and do so nowhere else.
const STRANGE: usize = CHANGE / 2;

/// What it costs to begin one kind farther before the fault.
const EARLY: usize = CHANGE / 2;

/// How many places with as many changes are tried.
const MOST_PLACES: usize = 512;

/// The highest sum of ranks by which places are told apart.
const MOST_RANK: usize = 16;

/// How many repairs are found at most.
const MOST_REPAIRS: usize = 8;

/// The rank of what has none.
const UNRANKED: Rank = Rank {
    put_in: u8::MAX,
    leave_out: 1,
    is_dear: false,
    balance: Balance::EVEN,
};

/// A place to which changes lead.
#[derive(Clone, Copy)]
struct Place {
    /// The stack there.
    stack: usize,
    /// How many of the kinds ahead are passed.
    passed: usize,
    /// The number of the place from which one change leads here.
    from: usize,
    /// How many kinds stay between them.
    kept: usize,
    /// That change.
    change: Change,
    /// The sum of the ranks of all changes that lead here.
    rank: usize,
    /// What these add to the balance.
    balance: Balance,
    /// What the changes cost but for their number, the balance, and what follows the last one.
    extra: usize,
    /// The kind right before it in the copy.
    last: Option<Kind>,
}

/// How good a place is.
#[derive(Clone, Copy)]
struct Rating {
    /// How many kinds are put in and left out.
    changes: usize,
    /// What these cost, and a fault behind them, brackets without a partner and strangers.
    cost: usize,
    /// How many of the kinds ahead are passed there.
    passed: usize,
    /// The number of the first kind with which it doesn't go on.
    reach: usize,
    rank: usize,
    /// The number of the place.
    place: usize,
}

impl Rating {
    /// Whether a fault comes so soon that another way is better, where not all are tried.
    fn is_doubtful(self) -> bool {
        self.reach < self.passed.saturating_add(FEW)
    }

    /// Whether it is better than another one.
    fn is_better(self, other: Rating) -> bool {
        if self.cost != other.cost {
            return self.cost < other.cost;
        }
        if self.reach != other.reach {
            return other.reach < self.reach;
        }
        self.rank < other.rank
    }
}

/// A search for what mends the fault at the first of some kinds.
#[derive(Drop)]
pub struct Search<'a> {
    alloc: Global,
    ahead: Ahead<'a>,
    guide: Guide<'a>,
    /// How many kinds ahead come before the fault.
    lead: usize,
    places: Vec<Place>,
    /// The number of the first place to which as many changes lead as are tried now.
    first: usize,
    /// The number of the place with a stack where so many kinds are passed.
    seen: IndexMap<(usize, usize), usize>,
    /// The places from where enough kinds go on.
    found: Vec<Rating>,
    best: Option<Rating>,
}

impl<'a> Search<'a> {
    /// A search that begins with this stack, so many kinds before the fault, behind this kind.
    pub fn new(
        alloc: Global,
        ahead: Ahead<'a>,
        guide: Guide<'a>,
        lead: usize,
        stack: usize,
        last: Option<Kind>,
    ) -> Result<Search<'a>, AllocError> {
        let mut places = Vec::new(alloc);
        places.push(Place {
            stack,
            passed: 0,
            from: 0,
            kept: 0,
            change: Change::Keep,
            rank: 0,
            balance: Balance::EVEN,
            extra: 0,
            last,
        })?;
        Ok(Search {
            alloc,
            ahead,
            guide,
            lead,
            places,
            first: 0,
            seen: IndexMap::new(alloc),
            found: Vec::new(alloc),
            best: None,
        })
    }

    /// Adds a place, unless the same is there, reached by fewer changes or as cheaply.
    fn add(&mut self, place: Place) -> Result<(), AllocError> {
        let number = self.places.len();
        match self.seen.get(&(place.stack, place.passed)).copied() {
            Some(same) => self.take_cheaper(same, place),
            None if number < self.first.saturating_add(MOST_PLACES) => {
                self.seen.insert((place.stack, place.passed), number)?;
                self.places.push(place)?;
            }
            None => {}
        }
        Ok(())
    }

    /// Whether a place costs less than the one of a number, or as much by a lower rank.
    fn is_cheaper(&self, place: Place, number: usize) -> bool {
        let Some(other) = self.places.get(number).copied() else {
            return false;
        };
        let (one, other_price) = (self.price(place), self.price(other));
        one < other_price || one == other_price && place.rank < other.rank
    }

    /// Takes a place for the same one of this number, if as many changes lead to it more cheaply.
    fn take_cheaper(&mut self, number: usize, place: Place) {
        if number < self.first || !self.is_cheaper(place, number) {
            return;
        }
        if let Some(same) = self.places.get_mut(number) {
            *same = place;
        }
    }

    /// The rank of a kind.
    fn rank(&self, kind: Kind) -> Rank {
        match kind {
            Kind::Rule(rule) => self.guide.ranks.get(rule).copied().unwrap_or(UNRANKED),
            Kind::Invalid => UNRANKED,
        }
    }

    /// What it costs that this kind stands behind a place, before which there is a change.
    fn strange(&self, place: Place, kind: Option<Kind>) -> usize {
        if self.guide.pairs.are_strangers(place.last, kind) {
            STRANGE
        } else {
            0
        }
    }

    /// Adds the place where the next kind is left out, if there is one.
    fn leave_out(&mut self, here: Place) -> Result<(), AllocError> {
        let Some(kind) = self.ahead.kinds.get(here.passed).copied() else {
            return Ok(());
        };
        let rank = self.rank(kind);
        self.add(Place {
            passed: here.passed.saturating_add(1),
            change: Change::LeaveOut,
            rank: here.rank.saturating_add(rank.leave_out as usize),
            balance: here.balance.without(rank.balance),
            ..here
        })
    }

    /// Adds the place where a kind is put in, if it goes on.
    fn put_in(&mut self, here: Place, rule: usize) -> Result<(), AllocError> {
        let kind = Kind::Rule(rule);
        let Some(stack) = self.ahead.stacks.read(here.stack, kind)? else {
            return Ok(());
        };
        let rank = self.rank(kind);
        let dear = if rank.is_dear { CHANGE } else { 0 };
        let strange = self.strange(here, Some(kind));
        self.add(Place {
            stack,
            change: Change::PutIn(rule),
            rank: here.rank.saturating_add(rank.put_in as usize),
            balance: here.balance.with(rank.balance),
            extra: here.extra.saturating_add(dear).saturating_add(strange),
            last: Some(kind),
            ..here
        })
    }

    /// Adds the places to which one change leads.
    fn change(&mut self, here: Place) -> Result<(), AllocError> {
        self.leave_out(here)?;
        for look in self.ahead.stacks.expected(here.stack) {
            if let Some(rule) = look {
                self.put_in(here, rule)?;
            }
        }
        Ok(())
    }

    /// Adds the places to which one change more leads, right at a place or a few kinds on.
    fn expand(&mut self, number: usize) -> Result<(), AllocError> {
        let Some(place) = self.places.get(number).copied() else {
            return Ok(());
        };
        let mut here = Place {
            from: number,
            ..place
        };
        for kept in 0..ENOUGH {
            here.kept = kept;
            if number == 0 {
                here.extra = self.lead.saturating_sub(kept).saturating_mul(EARLY);
            }
            self.change(here)?;
            let Some(stack) = self.ahead.read(here.stack, here.passed)? else {
                return Ok(());
            };
            let kind = self.ahead.kinds.get(here.passed).copied();
            if kept == 0 && number != 0 {
                here.extra = here.extra.saturating_add(self.strange(here, kind));
            }
            here.last = kind;
            here.stack = stack;
            here.passed = here.passed.saturating_add(1);
        }
        Ok(())
    }

    /// What a place costs but for the number of changes that lead to it, and a fault behind it.
    fn price(&self, place: Place) -> usize {
        let next = self.ahead.kinds.get(place.passed).copied();
        let unmatched = self.guide.balance.unmatched_by(place.balance);
        let alone = self.guide.balance.with(place.balance).alone();
        place
            .extra
            .saturating_add(self.strange(place, next))
            .saturating_add(unmatched.saturating_mul(UNMATCHED))
            .saturating_add(alone.saturating_mul(ALONE))
    }

    /// What a place costs to which so many changes lead, and with which so many kinds go on.
    fn cost(&self, place: Place, changes: usize, reach: usize) -> usize {
        let more = if reach == usize::MAX {
            0
        } else if place.passed.saturating_add(NEAR) <= reach {
            LATER
        } else {
            SOON
        };
        changes
            .saturating_mul(CHANGE)
            .saturating_add(more)
            .saturating_add(self.price(place))
    }

    /// Rates a place, to which so many changes lead, if enough kinds go on from there.
    fn rate(&mut self, number: usize, changes: usize) -> Result<(), AllocError> {
        let Some(place) = self.places.get(number).copied() else {
            return Ok(());
        };
        let reach = self.ahead.reach(place.stack, place.passed)?;
        if !self.ahead.is_enough(place.passed, reach) {
            return Ok(());
        }
        let rating = Rating {
            changes,
            cost: self.cost(place, changes, reach),
            passed: place.passed,
            reach,
            rank: place.rank,
            place: number,
        };
        self.found.push(rating)?;
        match self.best {
            Some(best) if !rating.is_better(best) => {}
            _ => self.best = Some(rating),
        }
        Ok(())
    }

    /// Adds the places to which one change more leads than to those of a rank between two numbers.
    fn expand_rank(&mut self, from: usize, to: usize, rank: usize) -> Result<(), AllocError> {
        for number in from..to {
            match self.places.get(number) {
                Some(place) if place.rank.min(MOST_RANK) == rank => self.expand(number)?,
                _ => {}
            }
        }
        Ok(())
    }

    /// Adds and rates the places to which so many changes lead, one more than to those from number
    /// `from` on, of which those of low ranks come first.
    fn go_on(&mut self, from: usize, changes: usize) -> Result<(), AllocError> {
        let to = self.places.len();
        self.first = to;
        for rank in 0..=MOST_RANK {
            self.expand_rank(from, to, rank)?;
        }
        for number in to..self.places.len() {
            self.rate(number, changes)?;
        }
        Ok(())
    }

    /// The changes that lead to a place.
    fn changes(&self, place: usize) -> Result<Vec<Change>, AllocError> {
        let mut changes = Vec::new(self.alloc);
        let mut number = place;
        for _ in 0..MOST_CHANGES {
            let Some(place) = self.places.get(number) else {
                break;
            };
            if number == 0 {
                break;
            }
            changes.push(place.change)?;
            for _ in 0..place.kept {
                changes.push(Change::Keep)?;
            }
            number = place.from;
        }
        changes.reverse();
        Ok(changes)
    }

    /// The best of the places that are found, to which so many changes lead, but for these places.
    fn next_best(&self, changes: usize, but: &[usize]) -> Option<Rating> {
        let mut next: Option<Rating> = None;
        for rating in &self.found {
            if rating.changes != changes || but.contains(&rating.place) {
                continue;
            }
            match next {
                Some(best) if !rating.is_better(best) => {}
                _ => next = Some(*rating),
            }
        }
        next
    }

    /// The changes that lead to the best place, and then to others with as many changes.
    fn repairs(&self, best: Rating) -> Result<Vec<Vec<Change>>, AllocError> {
        let mut repairs = Vec::new(self.alloc);
        let mut taken = Vec::new(self.alloc);
        for _ in 0..MOST_REPAIRS {
            let Some(next) = self.next_best(best.changes, &taken) else {
                break;
            };
            taken.push(next.place)?;
            repairs.push(self.changes(next.place)?)?;
        }
        Ok(repairs)
    }

    /// The cheapest changes after which enough kinds go on, where a fault that comes behind costs
    /// too, and so do a bracket without a partner and kinds that stand side by side nowhere else;
    /// of these the ones with which the most kinds go on, then those of the lowest sum of ranks,
    /// of what they put in and leave out, and then the first ones, where leaving out comes before
    /// putting in, and that in file order.
    /// They come first, and behind them others of as many changes, the best first, eight in all.
    /// None where none are found, or where the moves run out before all are tried and a fault
    /// comes right behind the best ones.
    pub fn run(&mut self) -> Result<Option<Vec<Vec<Change>>>, AllocError> {
        let mut from = 0;
        let least = self.guide.balance.alone().saturating_mul(ALONE);
        for changes in 1..=MOST_CHANGES {
            if let Some(best) = self.best
                && best.cost <= changes.saturating_mul(CHANGE).saturating_add(least)
            {
                break;
            }
            let to = self.places.len();
            self.go_on(from, changes)?;
            from = to;
        }
        match self.best {
            Some(best) if !best.is_doubtful() || !self.ahead.stacks.is_spent() => Ok(Some(
                self.repairs(best)?,
            )),
            _ => Ok(None),
        }
    }
}
