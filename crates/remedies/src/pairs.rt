//! Which kinds stand side by side in a text.

use definitions::Kind;
use std::alloc::{AllocError, Global};

/// How often two kinds have to stand side by side so that they are no strangers.
const OFTEN: u8 = 2;

/// How often one of them has to be there so that they may be strangers.
const MANY: u8 = 4;

/// Of languages of more rules nothing is known.
const MOST_RULES: usize = 512;

/// Which kinds are strangers in a text: one of them at least is there often, and yet they stand
/// side by side once at most. In a short text there are none, nor in one of a language of more
/// than 512 rules.
#[derive(Debug, PartialEq, Eq, Drop)]
pub struct Pairs {
    /// How many numbers of kinds there are.
    size: usize,
    /// For the number of each kind, and then that of each one behind it, whether they are.
    strangers: Vec<bool>,
}

/// How often kinds are there, and stand side by side, by their numbers.
#[derive(Drop)]
struct Counts {
    each: Vec<u8>,
    both: Vec<u8>,
}

/// The number of a kind among those of so many rules; the last one is that of no kind.
fn number(rules: usize, kind: Option<Kind>) -> usize {
    match kind {
        Some(Kind::Rule(rule)) => rule.min(rules),
        Some(Kind::Invalid) => rules,
        None => rules.saturating_add(1),
    }
}

/// The count of a number; 0 where there is none.
fn count_at(counts: &[u8], number: usize) -> u8 {
    match counts.get(number) {
        Some(count) => *count,
        None => 0,
    }
}

/// Adds one to the count of a number.
fn add_one(counts: &mut [u8], number: usize) {
    if let Some(count) = counts.get_mut(number) {
        *count = count.saturating_add(1);
    }
}

/// The counts of kinds, of which there are so many numbers.
fn counted(alloc: Global, size: usize, kinds: &[Kind]) -> Result<Counts, AllocError> {
    let mut each: Vec<u8> = Vec::new(alloc);
    each.resize(size, 0u8)?;
    let mut both: Vec<u8> = Vec::new(alloc);
    both.resize(size.saturating_mul(size), 0u8)?;
    let rules = size.saturating_sub(2);
    let mut before = number(rules, None);
    for kind in kinds {
        let here = number(rules, Some(*kind));
        add_one(&mut each, here);
        add_one(&mut both, before.saturating_mul(size).saturating_add(here));
        before = here;
    }
    Ok(Counts { each, both })
}

impl Counts {
    /// Adds for each number whether its kind and this one before it are strangers.
    fn add_row(&self, one: usize, strangers: &mut Vec<bool>) -> Result<(), AllocError> {
        let size = self.each.len();
        for other in 0..size {
            let place = one.saturating_mul(size).saturating_add(other);
            let most = count_at(&self.each, one).max(count_at(&self.each, other));
            strangers.push(MANY <= most && count_at(&self.both, place) < OFTEN)?;
        }
        Ok(())
    }
}

impl Pairs {
    /// Those of these kinds, of a language of so many rules. Refuses for memory alone.
    pub fn of(alloc: Global, rules: usize, kinds: &[Kind]) -> Result<Pairs, AllocError> {
        let size = rules.saturating_add(2);
        let mut strangers = Vec::new(alloc);
        if rules <= MOST_RULES {
            let counts = counted(alloc, size, kinds)?;
            for one in 0..size {
                counts.add_row(one, &mut strangers)?;
            }
        }
        Ok(Pairs { size, strangers })
    }

    /// Whether two kinds are strangers. Where there is none, the first one is the beginning of the
    /// text; the end is no stranger.
    pub(crate) fn are_strangers(&self, one: Option<Kind>, other: Option<Kind>) -> bool {
        let rules = self.size.saturating_sub(2);
        let row = number(rules, one).saturating_mul(self.size);
        match self.strangers.get(row.saturating_add(number(rules, other))) {
            Some(strangers) => *strangers && other.is_some(),
            None => false,
        }
    }
}
