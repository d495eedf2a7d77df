//! What stands before an offset of a text.

ghost use Rattle.std.specs.Prelude.{◌≡◌, ◌+◌, ◌<◌, ◌≤◌, ◌++◌, ℕ, List, Option, IfOk, MatchOption, OnOk, length, map, option_to_list, slice_range, slice_set, take};
ghost use Rattle.definitions.specs.declared.Kind.{Kind as TokenKind};
ghost use Rattle.definitions.specs.declared.expression.Expression.{Expression};
ghost use Rattle.definitions.specs.Tokens.{AreTokens, IsPiece};
ghost use Rattle.dfa.specs.Table.{IsAutomaton};
ghost use Rattle.lexer.specs.Tokens.{kind_in, plain};
ghost use Rattle.completion.specs.Places.{AreBefore, IsLetter, typed};

use definitions::Kind;
use dfa::Automaton;
use lexer::{Characters, MoreThan, Tokens};
use std::alloc::{AllocError, Global};
use text::Text;

/// The tokens before an offset: how many there are, and the kind of one more.
#[derive(Clone, Copy)]
pub struct Before {
    pub count: usize,
    pub last: Option<Kind>,
}

/// Adds the characters from one offset up to another.
fn push_between(
    characters: &mut Vec<char>,
    text: &Text,
    from: usize,
    to: usize,
) -> Result<(), AllocError>
    requires ordered { from ≤ to }
    requires within { to ≤ length text.now }
    ensures { OnOk result (characters.new.items
        ≡ characters.old.items ++ slice_range text.now from to) }
{
    let mut ahead = text.chars_from(from);
    for _ in from..to {
        let Some(character) = ahead.next() else {
            unreachable!();
        };
        characters.push(character)?;
    }
    Ok(())
}

/// The kind of the token that ends where this letter is typed, if one does.
fn kind_before(
    automaton: &Automaton,
    characters: &mut Vec<char>,
    at: usize,
    letter: char,
) -> Option<Kind>
    requires automaton { (rules : List Expression) × IsAutomaton rules automaton.now }
    requires few { length characters.old.items ≤ 1048577 }
    requires within { at < length characters.old.items }
    ensures letter { characters.new.items ≡ slice_set characters.old.items at letter }
    ensures piece { (rules : List Expression) → IsAutomaton rules automaton.now
        → let typed = slice_set characters.old.items at letter in MatchOption result
        ((kind : TokenKind) → ¬ IsPiece rules typed kind at) (λ kind. IsPiece rules typed kind at) }
{
    characters[at] = letter;
    let found = automaton.longest(&Characters(characters), 0);
    if found.length != at {
        return None;
    }
    Some(match found.rule {
        Some(rule) => Kind::Rule(rule),
        None => Kind::Invalid,
    })
}

/// The kind of the token that ends where some letter is typed, after `part` characters of those
/// from `start` up to `end`; `None` where every letter goes into a token. Refuses for memory
/// alone.
fn kind_of_part(
    alloc: Global,
    automaton: &Automaton,
    text: &Text,
    start: usize,
    part: usize,
    end: usize,
) -> Result<Option<Kind>, AllocError>
    requires automaton { (rules : List Expression) × IsAutomaton rules automaton.now }
    requires ordered { start + part ≤ end }
    requires within { end ≤ length text.now }
    ensures { (rules : List Expression) → IsAutomaton rules automaton.now
        → let u = slice_range text.now start end in IfOk result (λ found. MatchOption found
        ((c : ℕ) (kind : TokenKind) → IsLetter c → ¬ IsPiece rules (typed part c u) kind part)
        (λ kind. (c : ℕ) × IsLetter c × IsPiece rules (typed part c u) kind part)) }
{
    // A text is so short that its characters are counted exactly.
    let _length = text.len();
    let at = start + part;
    let mut characters = Vec::with_capacity(alloc, end - start + 1)?;
    push_between(&mut characters, text, start, at)?;
    characters.push('a')?;
    push_between(&mut characters, text, at, end)?;
    for letter in b'a'..b'{' {
        let kind = kind_before(automaton, &mut characters, part, char::from(letter));
        if kind.is_some() {
            return Ok(kind);
        }
    }
    Ok(None)
}

/// The tokens before an offset; `None` where what is typed there goes into one of them. Refuses
/// for memory alone.
pub fn tokens_before(
    alloc: Global,
    automaton: &Automaton,
    text: &Text,
    tokens: &Tokens,
    offset: usize,
) -> Result<Option<Before>, AllocError>
    requires automaton { (rules : List Expression) × IsAutomaton rules automaton.now
        × AreTokens rules text.now (map plain tokens.now.items) }
    requires within { offset ≤ length text.now }
    ensures { (rules : List Expression) → IsAutomaton rules automaton.now
        → AreTokens rules text.now (map plain tokens.now.items)
        → let Are = AreBefore rules text.now (map plain tokens.now.items) offset in
        IfOk result (λ found. MatchOption found ((kinds : List TokenKind) → ¬ Are kinds)
        (λ b. (b.count ≤ length tokens.now.items)
        × Are (map kind_in (take b.count tokens.now.items) ++ option_to_list b.last))) }
{
    // A text is so short that the characters of its tokens are counted exactly.
    let _length = text.len();
    if offset == 0 {
        return Ok(Some(Before {
            count: 0,
            last: None,
        }));
    }
    let (count, sum) = tokens.items().locate(&MoreThan::Characters(offset - 1));
    let Some(token) = tokens.token(count) else {
        unreachable!();
    };
    let start = sum.characters as usize;
    let end = start + token.length as usize;
    let last = kind_of_part(alloc, automaton, text, start, offset - start, end)?;
    if last.is_some() {
        return Ok(Some(Before { count, last }));
    }
    Ok(None)
}
