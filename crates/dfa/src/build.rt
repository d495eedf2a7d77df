//! The automaton of a list of rules.
ghost use Rattle.std.specs.Prelude.{◌≡◌, ℕ, ◌<◌, ◌≤◌, ◌^◌, length, slice_index_or, All, Contains, IfOk, IfErr};
ghost use Rattle.definitions.specs.Text.{IsCharacter};
ghost use Rattle.dfa.specs.Alphabet.{all_cuts};
ghost use Rattle.dfa.specs.Built.{HasRows, members};
ghost use Rattle.dfa.specs.Positions.{HasMoreStatesThan};
ghost use Rattle.dfa.specs.Sets.{AllMade};
ghost use Rattle.dfa.specs.Table.{IsAscending, IsAutomaton, part};
ghost use Rattle.dfa.specs.Marks.{all_positions, unmarked};
ghost use Rattle.dfa.specs.Trees.{AreTreesOf};
ghost use Rattle.dfa.specs.declared.build.DfaFault.TheVariants.{TooManyStates};

use crate::Automaton;
use crate::alphabet::{part_of, starts};
use crate::positions::blank;
use crate::states::{States, part_holders};
use crate::tree::{Tree, tree_of};
use patterns::Pattern;
use std::alloc::{AllocError, AllocFailed, Global};
use thiserror::Error;

/// Why an automaton was not built.
#[derive(Clone, Copy, Debug, PartialEq, Eq, Error)]
pub enum DfaFault {
    /// It would have more than 4,096 states.
    #[error("the automaton would have more than 4,096 states")]
    TooManyStates,
    /// Memory was refused.
    #[error("memory was refused")]
    Memory,
}

impl From<AllocError> for DfaFault {
    ghost use Rattle.dfa.specs.declared.build.DfaFault.TheVariants.{Memory};

    ghost from_gives = { λ _ e. e ≡ Memory };

    fn from(_: AllocError) -> DfaFault {
        DfaFault::Memory
    }
}

impl<T: Drop> From<AllocFailed<T>> for DfaFault {
    ghost use Rattle.dfa.specs.declared.build.DfaFault.TheVariants.{Memory};

    ghost from_gives = { λ _ e. e ≡ Memory };

    fn from(_: AllocFailed<T>) -> DfaFault {
        DfaFault::Memory
    }
}

/// The part of each of the first 128 characters.
fn ascii_parts(alloc: Global, starts: &[char]) -> Result<Vec<usize>, AllocError>
    requires { IsAscending starts.now }
    ensures { IfOk result (λ parts. (length parts.items ≡ 128) × ((c : ℕ) → c < 128
        → slice_index_or parts.items c 0 ≡ part starts.now c)) }
{
    let mut parts = Vec::new(alloc);
    for code in 0..128 {
        parts.push(part_of(starts, char::from(code)))?;
    }
    Ok(parts)
}

/// A blank mark for each position of the rules, all of which are well made.
fn blank_marks(alloc: Global, patterns: &[Pattern]) -> Result<Vec<bool>, AllocError>
    ensures blank { IfOk result (λ marks. marks.items ≡ unmarked (all_positions patterns.now)) }
    ensures made { IfOk result (λ _. AllMade patterns.now) }
{
    let mut marks = Vec::new(alloc);
    for pattern in patterns {
        blank(pattern.expression(), &mut marks)?;
    }
    Ok(marks)
}

/// The tree of each rule.
fn trees_of(alloc: Global, patterns: &[Pattern]) -> Result<Vec<Tree>, AllocError>
    requires { all_positions patterns.now < 2 ^ 64 }
    ensures { IfOk result (λ trees. AreTreesOf patterns.now trees.items) }
{
    let mut trees = Vec::new(alloc);
    for pattern in patterns {
        trees.push(tree_of(alloc, pattern.expression())?)?;
    }
    Ok(trees)
}

/// The states of the automaton, each with its row, where the parts of the alphabet begin at
/// `starts`.
fn states_of(alloc: Global, patterns: &[Pattern], starts: &[char]) -> Result<States, DfaFault>
    requires ascending { IsAscending starts.now }
    requires cuts { (x : ℕ) → Contains (all_cuts patterns.now) x → Contains starts.now x }
    requires characters { All IsCharacter starts.now }
    ensures made { IfOk result (λ _. AllMade patterns.now) }
    ensures rows { IfOk result (HasRows patterns.now starts.now) }
    ensures all { IfOk result (λ s. length (members s.sets.keys) ≤ length s.accepts.items) }
    ensures many { IfErr result (λ e. e ≡ TooManyStates → HasMoreStatesThan patterns.now 4096) }
{
    let mut marks = blank_marks(alloc, patterns)?;
    let trees = trees_of(alloc, patterns)?;
    let parts = part_holders(alloc, patterns, starts)?;
    let mut states = States::new(alloc)?;
    match states.add_rows(alloc, &trees, &parts, &mut marks) {
        Ok(()) => Ok(states),
        Err(e) => Err(e),
    }
}

impl Automaton {
    /// The automaton of the rules that these patterns are, numbered from 0.
    ///
    /// Its states are the start and the different nonempty sets of positions. Refuses rules for
    /// which these are more than 4,096 with `TooManyStates`. `Memory` says that memory was
    /// refused.
    pub fn build(alloc: Global, patterns: &[Pattern]) -> Result<Automaton, DfaFault>
        ensures automaton { IfOk result (λ a. IsAutomaton patterns.now a) }
        ensures few { IfOk result (λ a. HasMoreStatesThan patterns.now 4096 → ⊥) }
        ensures many { IfErr result (λ e. e ≡ TooManyStates → HasMoreStatesThan patterns.now 4096) }
    {
        let starts = starts(alloc, patterns)?;
        let ascii = ascii_parts(alloc, &starts)?;
        let states = states_of(alloc, patterns, &starts)?;
        Ok(Automaton::new(starts, ascii, states.next, states.accepts))
    }
}
