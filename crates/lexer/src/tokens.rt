//! The list of the tokens of a text, and its change by an edit.
ghost use Rattle.std.specs.Prelude.{◌≡◌, ℕ, ◌+◌, ◌-◌, ◌<◌, ◌≤◌, ◌^◌, true, false, List, ◌∷◌, ◌++◌, length, take, drop, count_by, slice_get, slice_range, IfOk, OnErr, OnOk, MatchOption, All};
ghost use Rattle.definitions.specs.declared.expression.Expression.{Expression};
ghost use Rattle.definitions.specs.Tokens.{AreTokens};
ghost use Rattle.dfa.specs.Table.{IsAutomaton};
ghost use Rattle.grammar.specs.Grammars.{lexicon_of};
ghost use Rattle.definitions.specs.TokenEdits.{kept_before, is_rejoined, plain_splice, same_kind, same_kinds};
ghost use Rattle.lexer.specs.Walks.{IsPassed, horizon};
ghost use Rattle.lexer.specs.Tokens.{is_significant, characters, Fits, AreTokensOf};
ghost use Rattle.lexer.specs.Rescans.{plain_all, significant_kinds, IsEdited, IsNeeded, IsRemade, AreTokensAfter, change};

use crate::ahead::KindsAhead;
use crate::packed::PackedToken;
use crate::scan::Scan;
use crate::sums::{MoreThan, Token};
use crate::walk::Walk;
use definitions::{Edit, Kind, KindSplice};
use dfa::{Automaton, Source};
use grammar::Grammar;
use runs::Runs;
use std::alloc::{AllocError, Global};
use std::marker::Model;

/// The tokens of a text.
#[derive(Drop)]
pub struct Tokens {
    /// The tokens, in order.
    items: Runs<PackedToken>,
    /// How many of them the last scan or rescan made.
    scanned: usize,
}

impl Model for Tokens {
    ghost use Rattle.lexer.specs.Tokens.{TokenList, Fits};

    ghost Value = { TokenList };

    ghost view = { λ a. record { items = a.items; scanned = a.scanned } };

    ghost invariant = { λ a. Fits a.items };
}

impl Tokens {
    /// All tokens of a text, made by edit 0.
    pub fn scan<S: Source>(
        alloc: Global,
        grammar: &Grammar,
        automaton: &Automaton,
        source: &S,
    ) -> Result<Tokens, AllocError>
        requires sound { IsAutomaton grammar.now.patterns automaton.now }
        requires small { length (S.text source.now) ≤ 1048576 }
        requires window { (i : ℕ) → i < length (S.text source.now) → S.in_window source.now i }
        ensures tokens { IfOk result
            (λ r. AreTokensOf (lexicon_of grammar.now) (S.text source.now) r.items) }
        ensures born { IfOk result (λ r. All (λ x. x.born ≡ 0) r.items) }
        ensures scanned { IfOk result (λ r. r.scanned ≡ length r.items) }
    {
        let scan = Scan::new(grammar, automaton);
        let mut items = Runs::new();
        let mut at = 0;
        while at < source.len() {
            let (batch, end) = scan.scan_batch(alloc, source, at)?;
            append(alloc, &mut items, &batch)?;
            at = end;
        }
        let scanned = items.len();
        Ok(Tokens { items, scanned })
    }

    /// How many tokens there are.
    pub fn count(&self) -> usize
        ensures { result ≡ length self.now.items }
    {
        self.items.len()
    }

    /// How many of them are significant.
    pub fn significant(&self) -> usize
        ensures { result ≡ count_by is_significant self.now.items }
    {
        self.items.total().significant as usize
    }

    /// The token at this place among all.
    pub fn token(&self, i: usize) -> Option<Token>
        ensures { result ≡ slice_get self.now.items i }
    {
        self.items.get(i).map(|token| token.unpack())
    }

    /// The offset at which the token at this place among all starts.
    pub fn start_of(&self, i: usize) -> usize
        requires { i < length self.now.items }
        ensures is { result ≡ characters (take i self.now.items) }
        ensures few { result ≤ 2 ^ 30 }
    {
        self.items.total_before(i).characters as usize
    }

    /// The place among all of the k-th significant token.
    pub fn place(&self, k: usize) -> usize
        requires { k < count_by is_significant self.now.items }
        ensures before { count_by is_significant (take result self.now.items) ≡ k }
        ensures at { count_by is_significant (take (result + 1) self.now.items) ≡ k + 1 }
        ensures within { result < length self.now.items }
    {
        let (place, _) = self.items.locate(&MoreThan::Significant(k));
        place
    }

    /// The kind of significant token number `k`, counted from 0; none past the last one.
    pub fn kind(&self, k: usize) -> Option<Kind>
        ensures { result ≡ slice_get (significant_kinds self.now.items) k }
    {
        if k >= self.significant() {
            return None;
        }
        let token = self.items.get(self.place(k))?;
        Some(token.kind())
    }

    /// The kinds of the significant tokens from number `k` on, and none past the last one. The way
    /// to the first is a logarithm of the count of all, and each further one takes a step for each
    /// token up to it.
    pub fn kinds_from(&self, k: usize) -> KindsAhead<'_>
        ensures { result ≡ drop k (significant_kinds self.now.items) }
    {
        let first = MoreThan::Significant(k);
        let (place, _) = self.items.locate(&first);
        KindsAhead::new(self.items.iter_from(place))
    }

    /// The kind of significant token number `k`, and none past the last one, from the kinds that
    /// begin with it. They go on after it.
    pub fn next_kind(&self, ahead: &mut KindsAhead<'_>, k: usize) -> Option<Kind>
        requires { ahead.old ≡ drop k (significant_kinds self.now.items) }
        ensures is { result ≡ slice_get (significant_kinds self.now.items) k }
        ensures moved { ahead.new ≡ drop (k + 1) (significant_kinds self.now.items) }
    {
        ahead.next()
    }

    /// How many tokens the last scan or rescan made.
    pub fn scanned(&self) -> usize
        ensures { result ≡ self.now.scanned }
    {
        self.scanned
    }

    /// All tokens, in order.
    pub fn items(&self) -> &Runs<PackedToken>
        ensures { result.now ≡ self.now.items }
    {
        &self.items
    }

    /// Brings the tokens to the text after an edit: keeps those whose reach the edit leaves alone,
    /// makes the others with the edit's number, and returns how the list of the significant kinds
    /// changes. After a refusal nothing has changed.
    pub fn rescan<S: Source>(
        &mut self,
        alloc: Global,
        grammar: &Grammar,
        automaton: &Automaton,
        source: &S,
        edit: Edit,
    ) -> Result<KindSplice, AllocError>
        requires sound { IsAutomaton grammar.now.patterns automaton.now }
        requires small { length (S.text source.now) ≤ 1048576 }
        requires edited { let lexicon = lexicon_of grammar.now in
            IsEdited lexicon edit self.old.items (S.text source.now) }
        requires window { (i : ℕ)
            → IsNeeded grammar.now.patterns edit self.old.items (S.text source.now) i
            → S.in_window source.now i }
        ensures after { IfOk result (λ s. AreTokensAfter (lexicon_of grammar.now) edit
            (S.text source.now) (plain_splice s) self.old self.new) }
        ensures err { OnErr result (self.new ≡ self.old) }
    {
        let kept = kept_prefix(&self.items, edit);
        let old = Walk::new(&self.items, kept.count, kept.end);
        let scan = Scan::new(grammar, automaton);
        let (made, to) = remake(alloc, &scan, source, edit, old)?;
        let kinds = kinds_of(alloc, &made)?;
        let splice = splice_of(&self.items, kept, to, kinds);
        self.items.replace(alloc, kept.count, to, &made)?;
        self.scanned = made.len();
        Ok(splice)
    }
}

/// Puts tokens after those of a list.
fn append(
    alloc: Global,
    list: &mut Runs<PackedToken>,
    tokens: &[PackedToken],
) -> Result<(), AllocError>
    requires { length list.old + length tokens.now < 2 ^ 64 }
    ensures { OnOk result (list.new ≡ list.old ++ tokens.now) }
{
    let end = list.len();
    list.replace(alloc, end, end, tokens)?;
    Ok(())
}

/// The tokens at the start that an edit keeps.
#[derive(Clone, Copy)]
struct Kept {
    /// How many they are.
    count: usize,
    /// How many of them are significant.
    significant: usize,
    /// The offset after them.
    end: usize,
}

/// The tokens at the start that the edit keeps.
fn kept_prefix(items: &Runs<PackedToken>, edit: Edit) -> Kept
    requires { Fits items.now }
    ensures kept_before { (rules : List Expression) (t : List ℕ)
        → AreTokens rules t (plain_all items.now)
        → result.count ≡ kept_before edit (plain_all items.now) }
    ensures significant { result.significant
        ≡ count_by is_significant (take result.count items.now) }
    ensures end { result.end ≡ characters (take result.count items.now) }
    ensures within { result.count ≤ length items.now }
{
    let (count, before) = items.locate(&MoreThan::Reach(edit.at));
    Kept {
        count,
        significant: before.significant as usize,
        end: before.characters as usize,
    }
}

/// Where offset `at` of the new text lies after what was inserted and an old token started there:
/// its place.
fn rejoin_place(old: &mut Walk<'_>, edit: Edit, at: usize) -> Option<usize>
    requires inserted { edit.inserted ≤ 1048576 }
    requires removed { edit.at + edit.removed ≤ 2 ^ 30 }
    requires small { at ≤ 1048576 }
    ensures items { old.new.items ≡ old.old.items }
    ensures passed { IsPassed (horizon edit at) old.old → IsPassed (horizon edit at) old.new }
    ensures is { IsPassed (horizon edit at) old.old → MatchOption result
        (is_rejoined edit (plain_all old.old.items) at ≡ false)
        (λ j. (is_rejoined edit (plain_all old.old.items) at ≡ true) × (j ≤ length old.old.items)
        × (characters (take j old.old.items) + edit.inserted ≡ at + edit.removed)) }
{
    if at < edit.at + edit.inserted {
        return None;
    }
    old.place_of(at - edit.inserted + edit.removed)
}

/// The tokens from where the old ones are no longer kept to the place of rejoining, and the place
/// of the first old token after it.
fn remake<S: Source>(
    alloc: Global,
    scan: &Scan<'_>,
    source: &S,
    edit: Edit,
    mut old: Walk<'_>,
) -> Result<(Vec<PackedToken>, usize), AllocError>
    requires small { length (S.text source.now) ≤ 1048576 }
    requires edited { IsEdited scan.now edit old.items (S.text source.now) }
    requires window { (i : ℕ) → IsNeeded scan.now.patterns edit old.items (S.text source.now) i
        → S.in_window source.now i }
    requires kept_before { (rules : List Expression) (t : List ℕ)
        → AreTokens rules t (plain_all old.items)
        → old.place ≡ kept_before edit (plain_all old.items) }
    ensures { IfOk result (λ r. IsRemade scan.now edit old.entry.items
        (S.text source.now) r.0.items r.1) }
{
    let mut made = Vec::new(alloc);
    let mut at = old.start();
    while at < source.len() {
        if let Some(to) = rejoin_place(&mut old, edit, at) {
            return Ok((made, to));
        }
        let token = scan.token_at(source, at, edit.number);
        made.push(token)?;
        at += token.length() as usize;
    }
    Ok((made, old.end()))
}

/// The kinds of the significant ones of these tokens.
fn kinds_of(alloc: Global, tokens: &[PackedToken]) -> Result<Vec<Kind>, AllocError>
    ensures { IfOk result (λ v. v.items ≡ significant_kinds tokens.now) }
{
    let mut kinds = Vec::new(alloc);
    for token in tokens {
        if !token.is_skipped() {
            kinds.push(token.kind())?;
        }
    }
    Ok(kinds)
}

/// How many of the tokens before a place are significant.
fn significant_before(items: &Runs<PackedToken>, place: usize) -> usize
    requires { Fits items.now }
    ensures { result ≡ count_by is_significant (take place items.now) }
{
    items.total_before(place).significant as usize
}

fn is_same(a: Kind, b: Kind) -> bool
    ensures { result ≡ same_kind a b }
{
    a == b
}

/// What is left of these kinds without that of the token, if it has one for a parser. None where
/// they begin with another one.
fn without_kind<'a>(token: &PackedToken, kinds: &'a [Kind]) -> Option<&'a [Kind]>
    ensures { (others : List Token)
        → let tokens = significant_kinds (token.now ∷ others) in
        MatchOption result (same_kinds tokens kinds.now ≡ false)
        (λ rest. same_kinds tokens kinds.now ≡ same_kinds (significant_kinds others) rest.now) }
{
    if token.is_skipped() {
        return Some(kinds);
    }
    match kinds.split_first() {
        Some((first, rest)) if is_same(token.kind(), *first) => Some(rest),
        _ => None,
    }
}

/// Whether the significant ones of the tokens from one place up to another have these kinds.
fn have_kinds(items: &Runs<PackedToken>, from: usize, to: usize, kinds: &[Kind]) -> bool
    requires within { to ≤ length items.now }
    ensures { result ≡ same_kinds (significant_kinds (slice_range items.now from to)) kinds.now }
{
    let mut ahead = items.iter_from(from);
    let mut left = kinds;
    for _ in from..to {
        let Some(token) = ahead.next() else {
            unreachable!();
        };
        let Some(rest) = without_kind(token, left) else {
            return false;
        };
        left = rest;
    }
    left.len() == 0
}

/// How the list of the significant kinds changes where the tokens from those kept at the start up
/// to a place give way to tokens of these kinds.
fn splice_of(items: &Runs<PackedToken>, kept: Kept, to: usize, mut kinds: Vec<Kind>) -> KindSplice
    requires fits { Fits items.now }
    requires within { to ≤ length items.now }
    requires counted { kept.significant ≡ count_by is_significant (take kept.count items.now) }
    ensures { plain_splice result ≡ change items.now kept.count to kinds.items }
{
    let from = kept.significant;
    if have_kinds(items, kept.count, to, &kinds) {
        kinds.clear();
        return KindSplice {
            from,
            to: from,
            kinds,
        };
    }
    KindSplice {
        from,
        to: significant_before(items, to),
        kinds,
    }
}
