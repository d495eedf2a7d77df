//! The states of an automaton: sets of positions.
ghost use Rattle.std.specs.Prelude.{◌≡◌, ℕ, ◌+◌, ◌<◌, ◌≤◌, ◌^◌, [], false, true, length, List, slice_index_or, All, IfOk, IfErr};
ghost use Rattle.definitions.specs.declared.expression.Expression.{Expression};
ghost use Rattle.dfa.specs.Alphabet.{representative};
ghost use Rattle.dfa.specs.Built.{AreEntries, AreRules, AreStates, Grows, HasRows, IsNumber, IsReached, Placed, kept, members};
ghost use Rattle.dfa.specs.Marks.{all_holders, all_positions, marks_of};
ghost use Rattle.dfa.specs.Positions.{HasMoreStatesThan};
ghost use Rattle.dfa.specs.Sets.{AreBlank, AreMarksOf, Rises};
ghost use Rattle.dfa.specs.Trees.{IsCounted, all_counts, all_tree_next, first_tree_end};
ghost use Rattle.dfa.specs.declared.build.DfaFault.TheVariants.{Memory, TooManyStates};

use crate::build::DfaFault;
use crate::positions::holders;
use crate::tree::{Tree, has};
use indexmap::IndexSet;
use patterns::Pattern;
use std::alloc::{AllocError, Global};
use std::marker::Model;

/// The most states of an automaton.
pub const MOST_STATES: usize = 4096;

/// The positions that hold the characters of one part of the alphabet.
#[derive(Drop)]
pub struct Holders {
    places: Vec<usize>,
}

impl Model for Holders {
    ghost use Rattle.std.specs.Prelude.{ℕ, List};

    ghost Value = { List ℕ };

    ghost view = { λ a. a.places.items };
}

/// The positions that hold the character.
fn holders_of(alloc: Global, patterns: &[Pattern], c: char) -> Result<Holders, AllocError>
    requires { all_positions patterns.now < 2 ^ 64 }
    ensures { IfOk result (λ all. all ≡ all_holders c 0 patterns.now) }
{
    let mut places = Vec::new(alloc);
    let mut at = 0;
    for pattern in patterns {
        holders(pattern.expression(), c, &mut at, &mut places)?;
    }
    Ok(Holders { places })
}

/// The holders of each part.
pub fn part_holders(
    alloc: Global,
    patterns: &[Pattern],
    starts: &[char],
) -> Result<Vec<Holders>, AllocError>
    requires { all_positions patterns.now < 2 ^ 64 }
    ensures length { IfOk result (λ parts. length parts.items ≡ length starts.now + 1) }
    ensures each { IfOk result (λ parts. (k : ℕ) → k ≤ length starts.now
        → slice_index_or parts.items k [] ≡ all_holders (representative starts.now k) 0
        patterns.now) }
{
    let mut parts = Vec::new(alloc);
    parts.push(holders_of(alloc, patterns, '\0')?)?;
    for c in starts {
        parts.push(holders_of(alloc, patterns, *c)?)?;
    }
    Ok(parts)
}

/// The positions at which one more character can stand, whatever that character is, in ascending
/// order. The marks are those of the set.
fn followers(
    alloc: Global,
    trees: &[Tree],
    set: &[usize],
    marks: &[bool],
    start: bool,
) -> Result<Vec<usize>, AllocError>
    requires rises { Rises 0 set.now }
    requires marks { AreMarksOf set.now marks.now }
    requires counted { All IsCounted trees.now }
    requires all { length marks.now ≡ all_counts trees.now }
    ensures { IfOk result (λ all. all.items ≡ all_tree_next (marks_of set.now) 0 start trees.now) }
{
    let mut out = Vec::with_capacity(alloc, 16)?;
    let mut at = 0;
    for tree in trees {
        tree.follow(set, marks, at, start, &mut out)?;
        at += tree.count();
    }
    Ok(out)
}

/// The first rule that can end at a position of the set. The marks are those of the set.
fn first_end(trees: &[Tree], set: &[usize], marks: &[bool]) -> Option<usize>
    requires rises { Rises 0 set.now }
    requires marks { AreMarksOf set.now marks.now }
    requires counted { All IsCounted trees.now }
    requires all { length marks.now ≡ all_counts trees.now }
    ensures { result ≡ first_tree_end (marks_of set.now) 0 0 trees.now }
{
    let mut at = 0;
    for (k, tree) in trees.iter().enumerate() {
        if tree.ends(set, marks, at, false) {
            return Some(k);
        }
        at += tree.count();
    }
    None
}

/// The positions of the first list that the second one has too. Each is looked up in the second.
fn common(alloc: Global, few: &[usize], many: &[usize]) -> Result<Vec<usize>, AllocError>
    requires { Rises 0 many.now }
    ensures { IfOk result (λ set. set.items ≡ kept (marks_of many.now) few.now) }
{
    let mut set = Vec::new(alloc);
    for p in few {
        if has(many, *p) {
            set.push(*p)?;
        }
    }
    Ok(set)
}

/// The marked positions among the holders.
fn marked(alloc: Global, marks: &[bool], holders: &[usize]) -> Result<Vec<usize>, AllocError>
    requires { (k : ℕ) → k < length holders.now
        → slice_index_or holders.now k 0 < length marks.now }
    ensures { IfOk result (λ set. set.items ≡ kept marks.now holders.now) }
{
    let mut set = Vec::new(alloc);
    for p in holders {
        if marks[*p] {
            set.push(*p)?;
        }
    }
    Ok(set)
}

/// The followers among the holders. The marks are those of the followers. Of many holders only
/// those are read with which a follower is compared.
#[tactic(auto, using(crate::proofs::MarkedSets::kept_both, crate::proofs::MarkedSets::kept_marks))]
fn kept(
    alloc: Global,
    marks: &[bool],
    followers: &[usize],
    holders: &Holders,
) -> Result<Vec<usize>, AllocError>
    requires marks { AreMarksOf followers.now marks.now }
    requires followers { Rises 0 followers.now }
    requires holders { Rises 0 holders.now }
    requires within { (k : ℕ) → k < length holders.now
        → slice_index_or holders.now k 0 < length marks.now }
    ensures { IfOk result (λ set. set.items ≡ kept (marks_of followers.now) holders.now) }
{
    if holders.places.len() / 8 > followers.len() {
        common(alloc, followers, &holders.places)
    } else {
        marked(alloc, marks, &holders.places)
    }
}

/// Writes the value at each of the positions: so blank marks become those of the positions, or
/// blank again.
fn write(marks: &mut Vec<bool>, positions: &[usize], value: bool)
    requires within { (k : ℕ) → k < length positions.now
        → slice_index_or positions.now k 0 < length marks.old.items }
    ensures length { length marks.new.items ≡ length marks.old.items }
    ensures marks { value ≡ true → AreBlank marks.old.items
        → AreMarksOf positions.now marks.new.items }
    ensures blank { value ≡ false → AreMarksOf positions.now marks.old.items
        → AreBlank marks.new.items }
{
    for p in positions {
        marks[*p] = value;
    }
}

/// The number of a set, which is added where it is new. Only the first 4,096 sets have one.
fn number(sets: &mut IndexSet<Vec<usize>>, set: Vec<usize>) -> Result<u16, DfaFault>
    ensures placed { Placed (members sets.old.keys) (members sets.new.keys) set.items }
    ensures number { IfOk result (λ n. IsNumber (members sets.new.keys) n set.items × (n < 4096)) }
    ensures many { IfErr result (λ e. e ≡ TooManyStates → 4096 < length (members sets.new.keys)) }
    ensures bound { IfOk result (λ _. length (members sets.old.keys) ≤ 4096
        → length (members sets.new.keys) ≤ 4096) }
{
    let Ok((number, _)) = sets.insert_full(set) else {
        return Err(DfaFault::Memory);
    };
    if number < MOST_STATES {
        Ok(number as u16)
    } else {
        Err(DfaFault::TooManyStates)
    }
}

/// The states so far, each by its set of positions, with the rows of the first ones.
#[derive(Drop)]
pub struct States {
    /// The set of each state, in ascending order. The start has the empty set.
    pub sets: IndexSet<Vec<usize>>,
    /// The rows: for each part the number of the next state, which is 0 where there is none.
    pub next: Vec<u16>,
    /// For each state with a row the first rule that has its texts, if one does.
    pub accepts: Vec<Option<usize>>,
}

impl States {
    /// The start alone.
    pub fn new(alloc: Global) -> Result<States, DfaFault>
        ensures states { IfOk result (λ s. (rules : List Expression)
            → AreStates rules (members s.sets.keys)) }
        ensures sets { IfOk result (λ s. length (members s.sets.keys) ≡ 1) }
        ensures next { IfOk result (λ s. s.next.items ≡ []) }
        ensures accepts { IfOk result (λ s. s.accepts.items ≡ []) }
        ensures memory { IfErr result (λ e. e ≡ Memory) }
    {
        let mut sets = IndexSet::new(alloc);
        if sets.insert(Vec::new(alloc)).is_err() {
            return Err(DfaFault::Memory);
        }
        Ok(States {
            sets,
            next: Vec::new(alloc),
            accepts: Vec::new(alloc),
        })
    }

    /// Adds an entry for each part: the number of the set of its holders that are followers. The
    /// marks are the followers'.
    fn add_entries(
        &mut self,
        alloc: Global,
        marks: &[bool],
        followers: &[usize],
        parts: &[Holders],
    ) -> Result<(), DfaFault>
        requires marks { AreMarksOf followers.now marks.now }
        requires followers { Rises 0 followers.now }
        requires holders { All (Rises 0) parts.now }
        requires within { (k i : ℕ) → k < length parts.now
            → i < length (slice_index_or parts.now k [])
            → slice_index_or (slice_index_or parts.now k []) i 0 < length marks.now }
        ensures accepts { self.new.accepts ≡ self.old.accepts }
        ensures states { (rules : List Expression) → AreStates rules (members self.old.sets.keys)
            → ((k : ℕ) → k < length parts.now
            → IsReached rules (kept (marks_of followers.now) (slice_index_or parts.now k [])))
            → AreStates rules (members self.new.sets.keys) }
        ensures grows { Grows (members self.old.sets.keys) (members self.new.sets.keys) }
        ensures bound { IfOk result (λ _. length (members self.old.sets.keys) ≤ 4096
            → length (members self.new.sets.keys) ≤ 4096) }
        ensures entries { IfOk result
            (λ _. AreEntries self.old.next.items self.new.next.items (members self.new.sets.keys)
            (marks_of followers.now) parts.now (length parts.now)) }
        ensures many { IfErr result (λ e. e ≡ TooManyStates
            → 4096 < length (members self.new.sets.keys)) }
    {
        for holders in parts {
            let set = kept(alloc, marks, followers, holders)?;
            let to = number(&mut self.sets, set)?;
            self.next.push(to)?;
        }
        Ok(())
    }

    /// Adds the row of the next state. The marks, one for each position, are blank before and
    /// after.
    pub fn add_row(
        &mut self,
        alloc: Global,
        trees: &[Tree],
        parts: &[Holders],
        marks: &mut Vec<bool>,
    ) -> Result<(), DfaFault>
        requires rules { (rules : List Expression) × (starts : List ℕ)
            × AreRules rules starts trees.now parts.now
            × AreStates rules (members self.old.sets.keys) }
        requires more { length self.old.accepts.items < length (members self.old.sets.keys) }
        requires blank { AreBlank marks.old.items }
        requires all { length marks.old.items ≡ all_counts trees.now }
        ensures blank { IfOk result (λ _. AreBlank marks.new.items) }
        ensures all { length marks.new.items ≡ length marks.old.items }
        ensures states { (rules : List Expression) (starts : List ℕ)
            → AreRules rules starts trees.now parts.now
            → AreStates rules (members self.old.sets.keys)
            → AreStates rules (members self.new.sets.keys) }
        ensures rows { IfOk result (λ _. (rules : List Expression) (starts : List ℕ)
            → AreRules rules starts trees.now parts.now
            → HasRows rules starts self.old → HasRows rules starts self.new) }
        ensures count { IfOk result
            (λ _. length self.new.accepts.items ≡ length self.old.accepts.items + 1) }
        ensures many { IfErr result (λ e. e ≡ TooManyStates
            → 4096 < length (members self.new.sets.keys)) }
    {
        let at = self.accepts.len();
        let set = &self.sets[at];
        write(marks, set, true);
        let followers = followers(alloc, trees, set, marks, at == 0)?;
        let rule = first_end(trees, set, marks);
        write(marks, set, false);
        write(marks, &followers, true);
        self.add_entries(alloc, marks, &followers, parts)?;
        write(marks, &followers, false);
        self.accepts.push(rule)?;
        Ok(())
    }

    /// Adds the rows of all states, and of those that come with them. The marks, one for each
    /// position, are blank.
    pub fn add_rows(
        &mut self,
        alloc: Global,
        trees: &[Tree],
        parts: &[Holders],
        marks: &mut Vec<bool>,
    ) -> Result<(), DfaFault>
        requires rules { (rules : List Expression) × (starts : List ℕ)
            × AreRules rules starts trees.now parts.now × HasRows rules starts self.old }
        requires blank { AreBlank marks.old.items }
        requires all { length marks.old.items ≡ all_counts trees.now }
        ensures rows { IfOk result (λ _. (rules : List Expression) (starts : List ℕ)
            → AreRules rules starts trees.now parts.now
            → HasRows rules starts self.old → HasRows rules starts self.new) }
        ensures all { IfOk result
            (λ _. length (members self.new.sets.keys) ≤ length self.new.accepts.items) }
        ensures many { IfErr result (λ e. e ≡ TooManyStates
            → (rules : List Expression) (starts : List ℕ)
            → AreRules rules starts trees.now parts.now
            → HasRows rules starts self.old → HasMoreStatesThan rules 4096) }
    {
        'rows: while self.accepts.len() < self.sets.len() {
            self.add_row(alloc, trees, parts, marks)?;
        }
        Ok(())
    }
}
