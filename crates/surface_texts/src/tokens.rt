//! Tokens: `lexer`.

ghost use Rattle.std.specs.Prelude.{◌≡◌, length, IfOk, All, ◌<◌, ◌≤◌, ℕ, OnErr, count_by, slice_get, ◌^◌, take, ◌+◌, List, ◌↔◌, IsTrue};
ghost use Rattle.lexer.specs.Tokens.{long, AreTokensOf, is_significant, characters};
ghost use Rattle.grammar.specs.Grammars.{lexicon_of};
ghost use Rattle.dfa.specs.Table.{IsAutomaton, Table};
ghost use Rattle.definitions.specs.TokenEdits.{plain_splice};
ghost use Rattle.lexer.specs.Rescans.{AreTokensAfter, IsEdited, IsNeeded};
ghost use Rattle.definitions.specs.declared.expression.Expression.{Expression};
ghost use Rattle.definitions.specs.Text.{IsText};
ghost use Rattle.definitions.specs.Tokens.{AreTokens, Token as Plain};
ghost use Rattle.lexer.specs.declared.sums.ShortKind.{ShortKind};
ghost use Rattle.lexer.specs.declared.sums.Sums.{Sums};
ghost use Rattle.lexer.specs.declared.sums.Token.{Token as Stored};

use dfa::{Automaton, Source};
use grammar::Grammar;
use lexer::{Edit, Kind, KindSplice, PackedToken, ShortKind, Token, Tokens, Whole};
use runs::Runs;
use std::alloc::{AllocError, Global};
use text::Text;

/// `Whole`.
pub fn whole(text: &Text) -> Whole<'_> {
    Whole(text)
}

/// `Token`.
pub fn token(token: Token) -> (u64, u32, u32, Kind) {
    (token.born, token.length, token.reach, token.kind())
}

/// `PackedToken::unpack`.
pub fn unpack(token: PackedToken) -> Token
    ensures { result ≡ token }
{
    token.unpack()
}

/// `ShortKind`.
pub fn short_kind(kind: ShortKind) -> Kind
    ensures { result ≡ long kind }
{
    kind.long()
}

/// `Edit`.
pub fn edit(at: usize, removed: usize, inserted: usize, number: u64) -> Edit {
    Edit {
        at,
        removed,
        inserted,
        number,
    }
}

/// `Tokens::scan`.
pub fn scan<S: Source>(
    alloc: Global,
    grammar: &Grammar,
    automaton: &Automaton,
    source: &S,
) -> Result<Tokens, AllocError>
    requires sound { IsAutomaton grammar.now.patterns automaton.now }
    requires small { length (S.text source.now) ≤ 1048576 }
    requires window { (i : ℕ) → i < length (S.text source.now) → S.in_window source.now i }
    ensures tokens { IfOk result
        (λ r. AreTokensOf (lexicon_of grammar.now) (S.text source.now) r.items) }
    ensures born { IfOk result (λ r. All (λ x. x.born ≡ 0) r.items) }
    ensures scanned { IfOk result (λ r. r.scanned ≡ length r.items) }
{
    Tokens::scan(alloc, grammar, automaton, source)
}

/// `Tokens::rescan`.
pub fn rescan<S: Source>(
    tokens: &mut Tokens,
    alloc: Global,
    grammar: &Grammar,
    automaton: &Automaton,
    source: &S,
    edit: Edit,
) -> Result<KindSplice, AllocError>
    requires sound { IsAutomaton grammar.now.patterns automaton.now }
    requires small { length (S.text source.now) ≤ 1048576 }
    requires edited { let lexicon = lexicon_of grammar.now in
        IsEdited lexicon edit tokens.old.items (S.text source.now) }
    requires window { (i : ℕ)
        → IsNeeded grammar.now.patterns edit tokens.old.items (S.text source.now) i
        → S.in_window source.now i }
    ensures after { IfOk result (λ s. AreTokensAfter (lexicon_of grammar.now) edit
        (S.text source.now) (plain_splice s) tokens.old tokens.new) }
    ensures err { OnErr result (tokens.new ≡ tokens.old) }
{
    tokens.rescan(alloc, grammar, automaton, source, edit)
}

/// `Tokens::count`.
pub fn count(tokens: &Tokens) -> usize
    ensures { result ≡ length tokens.now.items }
{
    tokens.count()
}

/// `Tokens::significant`.
pub fn significant(tokens: &Tokens) -> usize
    ensures { result ≡ count_by is_significant tokens.now.items }
{
    tokens.significant()
}

/// `Tokens::token`.
pub fn token_at(tokens: &Tokens, i: usize) -> Option<Token>
    ensures { result ≡ slice_get tokens.now.items i }
{
    tokens.token(i)
}

/// `Tokens::start_of`.
pub fn start_of(tokens: &Tokens, i: usize) -> usize
    requires { i < length tokens.now.items }
    ensures is { result ≡ characters (take i tokens.now.items) }
    ensures few { result ≤ 2 ^ 30 }
{
    tokens.start_of(i)
}

/// `Tokens::place`.
pub fn place(tokens: &Tokens, k: usize) -> usize
    requires { k < count_by is_significant tokens.now.items }
    ensures before { count_by is_significant (take result tokens.now.items) ≡ k }
    ensures at { count_by is_significant (take (result + 1) tokens.now.items) ≡ k + 1 }
    ensures within { result < length tokens.now.items }
{
    tokens.place(k)
}

/// `Tokens::scanned`.
pub fn scanned(tokens: &Tokens) -> usize
    ensures { result ≡ tokens.now.scanned }
{
    tokens.scanned()
}

/// `Tokens::items`.
pub fn items(tokens: &Tokens) -> &Runs<PackedToken>
    ensures { result.now ≡ tokens.now.items }
{
    tokens.items()
}

/// `each_text_has_tokens`.
pub fn each_text_has_tokens()
    ensures { (rules : List Expression) (table : Table) (t : List ℕ) → IsAutomaton rules table →
        IsText t → (tokens : List Plain) × AreTokens rules t tokens }
{
    lexer::each_text_has_tokens();
}

/// `equal_tokens_are_the_same`.
pub fn equal_tokens_are_the_same()
    ensures kinds { (a b : ShortKind) →
        IsTrue (⟦<lexer::ShortKind as PartialEq>⟧.eq a b) ↔ (a ≡ b) }
    ensures tokens { (a b : Stored) → IsTrue (⟦<lexer::Token as PartialEq>⟧.eq a b) ↔ (a ≡ b) }
    ensures sums { (a b : Sums) → IsTrue (⟦<lexer::Sums as PartialEq>⟧.eq a b) ↔ (a ≡ b) }
{
    lexer::equal_tokens_are_the_same();
}
