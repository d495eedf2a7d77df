//! What a scan goes by: the token rules of a grammar, with their automaton.
ghost use Rattle.std.specs.Prelude.{◌≡◌, ℕ, ◌+◌, ◌<◌, ◌≤◌, length, drop, IfOk};
ghost use Rattle.definitions.specs.Tokens.{IsToken, is_skipped};
ghost use Rattle.dfa.specs.Table.{IsAutomaton};
ghost use Rattle.grammar.specs.Grammars.{lexicon_of};
ghost use Rattle.dfa.specs.Windows.{IsWithinReach};
ghost use Rattle.lexer.specs.Tokens.{kind_in, plain};
ghost use Rattle.lexer.specs.Scans.{AreNext};

use crate::packed::PackedToken;
use crate::sums::{ShortKind, Token};
use dfa::{Automaton, Source};
use grammar::Grammar;
use std::alloc::{AllocError, Global};
use std::marker::Model;

/// How many tokens are scanned before they are put into the list, so that they are still in the
/// processor's cache then.
const BATCH_LEN: usize = 1024;

/// The token rules of a grammar, with their automaton, while tokens are found by them. A contract
/// sees the rules.
#[derive(Drop)]
pub(crate) struct Scan<'a> {
    grammar: &'a Grammar,
    automaton: &'a Automaton,
}

impl<'a> Model for Scan<'a> {
    ghost use Rattle.std.specs.Prelude.{◌≤◌, length};
    ghost use Rattle.std.specs.Coded.{codes};
    ghost use Rattle.definitions.specs.contracts.expression.Expression as e;
    ghost use Rattle.dfa.specs.Table.{IsAutomaton};
    ghost use Rattle.grammar.specs.Lexicon.{Lexicon};
    ghost use Rattle.grammar.specs.Grammars.{lexicon_of};

    ghost Value = { Lexicon };

    ghost coded = { Prim.hlevel (codes, e.the_row.coded) };

    ghost view = { λ s. lexicon_of s.grammar.now };

    ghost invariant = { λ s. IsAutomaton s.grammar.now.patterns s.automaton.now
        × (length s.grammar.now.patterns ≤ 256) };
}

impl<'a> Scan<'a> {
    /// A scan by the rules of this grammar, of which this is the automaton.
    pub fn new(grammar: &'a Grammar, automaton: &'a Automaton) -> Scan<'a>
        requires { IsAutomaton grammar.now.patterns automaton.now }
        ensures { result ≡ lexicon_of grammar.now }
    {
        // The read says that there are few rules.
        let _patterns = grammar.patterns();
        Scan { grammar, automaton }
    }

    /// The token that starts at this offset.
    pub fn token_at<S: Source>(&self, source: &S, at: usize, born: u64) -> PackedToken
        requires small { length (S.text source.now) ≤ 1048576 }
        requires within { at < length (S.text source.now) }
        requires window { (i : ℕ) → IsWithinReach self.now.patterns (S.text source.now) at i
            → S.in_window source.now i }
        ensures token { IsToken self.now.patterns (drop at (S.text source.now)) (plain result) }
        ensures marked { result.skipped ≡ is_skipped self.now.skips (kind_in result) }
        ensures born { result.born ≡ born }
        ensures inside { at + result.length ≤ length (S.text source.now) }
        ensures nonempty { 1 ≤ result.length }
        ensures near { result.reach ≤ 1048577 }
    {
        let found = self.automaton.longest(source, at);
        let short_kind = ShortKind::of_rule(found.rule);
        PackedToken::new(Token {
            born,
            length: found.length as u32,
            reach: found.reach as u32,
            short_kind,
            skipped: self.grammar.is_skipped(short_kind.long()),
        })
    }

    /// The next tokens from an offset on, as many as a batch takes, and the offset after them.
    pub fn scan_batch<S: Source>(
        &self,
        alloc: Global,
        source: &S,
        from: usize,
    ) -> Result<(Vec<PackedToken>, usize), AllocError>
        requires small { length (S.text source.now) ≤ 1048576 }
        requires within { from < length (S.text source.now) }
        requires window { (i : ℕ) → i < length (S.text source.now) → S.in_window source.now i }
        ensures next { IfOk result (λ r. AreNext self.now (S.text source.now) from r.0.items r.1) }
        ensures some { IfOk result (λ r. from < r.1) }
    {
        let mut made = Vec::with_capacity(alloc, BATCH_LEN)?;
        let mut at = from;
        while at < source.len() && made.len() < BATCH_LEN {
            let token = self.token_at(source, at, 0);
            made.push(token)?;
            at += token.length() as usize;
        }
        Ok((made, at))
    }
}
