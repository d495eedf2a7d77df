//! Automata: `dfa`.

ghost use Rattle.std.specs.Prelude.{◌≡◌, IfOk, IfErr, length, slice_index_or, ◌+◌, ◌<◌, ◌≤◌, drop, List, ◌-◌, ◌^◌, ℕ, All, take, true, ◌↔◌, IsTrue};
ghost use Rattle.dfa.specs.Positions.{HasMoreStatesThan, CanStandAt};
ghost use Rattle.dfa.specs.Table.{IsAutomaton, kind_of};
ghost use Rattle.dfa.specs.declared.build.DfaFault.TheVariants.{TooManyStates};
ghost use Rattle.definitions.specs.declared.expression.Expression.{Expression};
ghost use Rattle.definitions.specs.Tokens.{IsPiece, IsReach};
ghost use Rattle.dfa.specs.Windows.{IsWithinReach};
ghost use Rattle.definitions.specs.Text.{IsCharacter};
ghost use Rattle.definitions.specs.Patterns.{IsPrefix};
ghost use Rattle.definitions.specs.Spelling.{IsWellMade};
ghost use Rattle.dfa.specs.declared.automaton.Match.{Match};
ghost use Rattle.dfa.specs.declared.build.DfaFault.{DfaFault};
ghost use Rattle.std.specs.Prelude.{⊤};

use dfa::{Automaton, DfaFault, Match, Source};
use patterns::Pattern;
use std::alloc::Global;

/// `Automaton::build`.
pub fn build(alloc: Global, patterns: &[Pattern]) -> Result<Automaton, DfaFault>
    ensures automaton { IfOk result (λ a. IsAutomaton patterns.now a) }
    ensures few { IfOk result (λ a. HasMoreStatesThan patterns.now 4096 → ⊥) }
    ensures many { IfErr result (λ e. e ≡ TooManyStates → HasMoreStatesThan patterns.now 4096) }
{
    Automaton::build(alloc, patterns)
}

/// `DfaFault`.
pub fn dfa_fault(fault: DfaFault) -> u8 {
    match fault {
        DfaFault::TooManyStates => 1,
        DfaFault::Memory => 2,
    }
}

/// `Match`.
pub fn found(found: Match) -> (Option<usize>, usize, usize) {
    let Match {
        rule,
        length,
        reach,
    } = found;
    (rule, length, reach)
}

/// `Source::len`.
pub fn source_len<S: Source>(source: &S) -> usize
    ensures { result ≡ length (S.text source.now) }
{
    source.len()
}

/// `Source::get`.
pub fn source_get<S: Source>(source: &S, i: usize) -> char
    requires { S.in_window source.now i }
    ensures { result ≡ slice_index_or (S.text source.now) i 0 }
{
    source.get(i)
}

/// `Automaton::longest`.
pub fn longest<S: Source>(automaton: &Automaton, source: &S, from: usize) -> Match
    requires within { from ≤ length (S.text source.now) }
    requires small { length (S.text source.now) < 2 ^ 64 - 1 }
    requires window { (rules : List Expression) × IsAutomaton rules automaton.now
        × ((i : ℕ) → IsWithinReach rules (S.text source.now) from i → S.in_window source.now i) }
    ensures piece { (rules : List Expression) → IsAutomaton rules automaton.now
        → from < length (S.text source.now)
        → IsPiece rules (drop from (S.text source.now)) (kind_of result.rule) result.length }
    ensures reach { (rules : List Expression) → IsAutomaton rules automaton.now
        → IsReach rules (drop from (S.text source.now)) result.reach }
    ensures at_end { from ≡ length (S.text source.now) → (result.rule ≡ None)
        × (result.length ≡ 0) }
    ensures inside { from + result.length ≤ length (S.text source.now) }
    ensures nonempty { from < length (S.text source.now) → 1 ≤ result.length }
    ensures near { result.reach ≤ length (S.text source.now) + 1 }
{
    automaton.longest(source, from)
}

/// A text in memory, all of which may be asked for.
#[derive(Clone, Copy)]
struct Characters<'a> {
    characters: &'a [char],
}

impl Source for Characters<'_> {
    type Ahead = ();

    ghost text = { λ s. s.characters.now };

    ghost in_window = { λ s i. i < length s.characters.now };

    ghost is_before = { λ s i ahead. ⊤ };

    fn len(&self) -> usize {
        self.characters.len()
    }

    fn get(&self, i: usize) -> char {
        self.characters[i]
    }

    fn ahead(&self, _i: usize) {}

    fn next(&self, _ahead: &mut (), i: usize) -> char {
        self.characters[i]
    }

    ghost inside = { λ s i h. h };
}

/// `Source::ahead`.
pub fn source_ahead<S: Source>(source: &S, i: usize) -> S::Ahead
    requires { i ≤ length (S.text source.now) }
    ensures { S.is_before source.now i result }
{
    source.ahead(i)
}

/// `Source::next`.
pub fn source_next<S: Source>(source: &S, ahead: &mut S::Ahead, i: usize) -> char
    requires window { S.in_window source.now i }
    requires before { S.is_before source.now i ahead.old }
    ensures is { result ≡ slice_index_or (S.text source.now) i 0 }
    ensures moved { S.is_before source.now (i + 1) ahead.new }
{
    source.next(ahead, i)
}

/// `Source::pass`.
pub fn source_pass<S: Source, F: Fn(char) -> bool>(
    source: &S,
    ahead: &mut S::Ahead,
    i: usize,
    test: F,
) -> usize
    requires callable { F.IsAlwaysCallable test }
    requires within { i ≤ length (S.text source.now) }
    requires before { S.is_before source.now i ahead.old }
    requires window { (n : ℕ) → i + n < length (S.text source.now)
        → All (λ c. IsCharacter c × F.post test c true) (take n (drop i (S.text source.now)))
        → S.in_window source.now (i + n) }
    ensures inside { i + result ≤ length (S.text source.now) }
    ensures passed { All (λ c. IsCharacter c × F.post test c true)
        (take result (drop i (S.text source.now))) }
    ensures moved { S.is_before source.now (i + result) ahead.new }
{
    source.pass(ahead, i, test)
}

/// `positions_are_of_prefixes`.
pub fn positions_are_of_prefixes()
    ensures prefix { (e : Expression) (p : ℕ) (u : List ℕ) → IsWellMade e → CanStandAt e p u
        → IsPrefix e u }
    ensures stands { (e : Expression) (u : List ℕ) → IsPrefix e u → 1 ≤ length u → (p : ℕ)
        × CanStandAt e p u }
{
    dfa::laws::positions_are_of_prefixes();
}

/// `equal_matches_are_the_same`.
pub fn equal_matches_are_the_same()
    ensures matches { (a b : Match) → IsTrue (⟦<dfa::Match as PartialEq>⟧.eq a b) ↔ (a ≡ b) }
    ensures faults { (a b : DfaFault) → IsTrue (⟦<dfa::DfaFault as PartialEq>⟧.eq a b) ↔ (a ≡ b) }
{
    dfa::laws::equal_matches_are_the_same();
}
