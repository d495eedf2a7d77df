//! Literals and classes.

ghost use Rattle.std.specs.Prelude.{◌≡◌, ◌≢◌, ◌<◌, ◌≤◌, ◌==◌, ◌||◌, ℕ, [], ◌∷◌, ◌++◌, length, IfOk, IfErr, MatchOption, Bool, true, false, List};
ghost use Rattle.std.specs.List.{list_all};
ghost use Rattle.std.specs.Bool.{MatchBool};
ghost use Rattle.definitions.specs.Patterns.{is_member};
ghost use Rattle.definitions.specs.PatternText.{Plain};
ghost use Rattle.definitions.specs.PatternFaults.{code_after, is_everything, is_nothing, InLiteral, InClass, Outside, AnAtom, Opened, Items, fault_from, or_later, closed};
ghost use Rattle.definitions.specs.declared.expression.Interval.{Interval};
ghost use Rattle.definitions.specs.declared.expression.PatternCause.TheVariants.{Syntax};
ghost use Rattle.patterns.specs.Empty.{is_empty};
ghost use Rattle.patterns.specs.Sound.{is_range};
ghost use Rattle.patterns.specs.Reading.{writing, Begins, place_of, fault_at, Reports, IsCaret, IsLiteralPrefix, IsClassPrefix, IsClassBody, IsItemPrefix, HasNoClassChar, IsClassCharAt, HasNoLiteralChar, IsLiteralCharAt};

use crate::characters::Character;
use crate::refusals::{Read, Refusal, fault};
use definitions::{Interval, PatternCause};
use std::alloc::Global;

/// The place of the first of these characters, and the others, if it is this one, written as
/// itself.
pub fn strip<'a>(words: &'a [Character], sign: char) -> Option<(usize, &'a [Character])>
    ensures { MatchOption result
        (Begins sign (writing words.now) → ⊥)
        (λ r. (writing words.now ≡ Plain r.0 sign ∷ writing r.1.now)
        × (length r.1.now < length words.now)) }
{
    match words.split_first() {
        Some((Character::Sign { place, code }, rest)) if *code == sign => Some((*place, rest)),
        _ => None,
    }
}

/// Reads the parts of a pattern from the characters that are left of its text.
#[derive(Clone, Copy)]
pub struct Reader {
    pub alloc: Global,
    /// How many parentheses are open.
    pub depth: usize,
    /// The place after the text.
    pub end: usize,
}

impl Reader {
    /// The fault that no pattern goes on with the first of these characters, or ends where there
    /// is none.
    pub fn syntax(self, words: &[Character]) -> Refusal
        ensures { result ≡ fault_at (place_of self.end (writing words.now)) Syntax }
    {
        let at = match words.first() {
            Some(
                Character::Sign { place, .. }
                | Character::Escape { place, .. }
                | Character::Broken { place },
            ) => *place,
            None => self.end,
        };
        fault(at, PatternCause::Syntax)
    }

    /// The literal whose opening quote is at `quote` and has these characters after it, and the
    /// rest after the literal.
    pub fn literal<'a>(self, words: &'a [Character], quote: usize) -> Read<'a, Vec<char>>
        ensures spelled { IfOk result (λ r.
            IsLiteralPrefix r.0.items (writing words.now) (writing r.1.now)) }
        ensures not_empty { IfOk result (λ r. is_empty r.0.items ≡ false) }
        ensures shorter { IfOk result (λ r. length r.1.now < length words.now) }
        ensures goes_on { IfOk result (λ r. (depth : ℕ) →
            fault_from self.end (InLiteral depth quote true) (writing words.now)
            ≡ fault_from self.end (Outside depth AnAtom) (writing r.1.now)) }
        ensures fault { IfErr result (λ r.
            Reports r (λ f. (depth : ℕ) →
            fault_from self.end (InLiteral depth quote true) (writing words.now) ≡ Some f)) }
    {
        let mut characters = Vec::new(self.alloc);
        let mut left = words;
        loop {
            if let Some((_, rest)) = strip(left, '"') {
                if characters.is_empty() {
                    return Err(fault(quote, PatternCause::EmptyLiteral));
                }
                return Ok((characters, rest));
            }
            let Some((character, rest)) = literal_char(left) else {
                return Err(self.syntax(left));
            };
            characters.push(character)?;
            left = rest;
        }
    }

    /// The class whose bracket is at `bracket` and has these characters after it, and the rest
    /// after the class.
    pub fn class<'a>(
        self,
        words: &'a [Character],
        bracket: usize,
    ) -> Read<'a, (bool, Vec<Interval>)>
        ensures spelled { IfOk result (λ r.
            IsClassBody r.0.0 r.0.1.items (writing words.now) (writing r.1.now)) }
        ensures ordered { IfOk result (λ r. list_all is_range r.0.1.items ≡ true) }
        ensures not_empty { IfOk result (λ r. is_nothing r.0.0 r.0.1.items ≡ false) }
        ensures shorter { IfOk result (λ r. length r.1.now < length words.now) }
        ensures goes_on { IfOk result (λ r. (depth : ℕ) →
            fault_from self.end (InClass depth bracket false [] Opened) (writing words.now)
            ≡ fault_from self.end (Outside depth AnAtom) (writing r.1.now)) }
        ensures fault { IfErr result (λ r.
            Reports r (λ f. (depth : ℕ) →
            fault_from self.end (InClass depth bracket false [] Opened) (writing words.now)
            ≡ Some f)) }
    {
        let (negated, inside) = strip_caret(words);
        let (intervals, rest) = self.items(inside)?;
        if is_nothing(negated, &intervals) {
            return Err(fault(bracket, PatternCause::EmptyClass));
        }
        Ok(((negated, intervals), rest))
    }

    /// The items up to the closing bracket, and the rest after it.
    fn items<'a>(self, words: &'a [Character]) -> Read<'a, Vec<Interval>>
        ensures spelled { IfOk result (λ r.
            IsClassPrefix r.0.items (writing words.now) (writing r.1.now)) }
        ensures ordered { IfOk result (λ r. list_all is_range r.0.items ≡ true) }
        ensures shorter { IfOk result (λ r. length r.1.now < length words.now) }
        ensures goes_on { IfOk result (λ r. (depth bracket : ℕ) (negated : Bool) →
            fault_from self.end (InClass depth bracket negated [] Items) (writing words.now)
            ≡ or_later (λ s. fault_from self.end s (writing r.1.now))
            (closed depth bracket negated r.0.items)) }
        ensures fault { IfErr result (λ r.
            Reports r (λ f. (depth bracket : ℕ) (negated : Bool) →
            fault_from self.end (InClass depth bracket negated [] Items) (writing words.now)
            ≡ Some f)) }
    {
        let mut intervals = Vec::new(self.alloc);
        let mut left = words;
        loop {
            if let Some((_, rest)) = strip(left, ']') {
                return Ok((intervals, rest));
            }
            let (interval, rest) = self.item(left)?;
            intervals.push(interval)?;
            left = rest;
        }
    }

    /// The first item, and the rest after it.
    fn item<'a>(self, words: &'a [Character]) -> Read<'a, Interval>
        requires { Begins 93 (writing words.now) → ⊥ }
        ensures spelled { IfOk result (λ r.
            IsItemPrefix r.0 (writing words.now) (writing r.1.now)) }
        ensures ordered { IfOk result (λ r. is_range r.0 ≡ true) }
        ensures shorter { IfOk result (λ r. length r.1.now < length words.now) }
        ensures goes_on { IfOk result (λ r.
            (depth bracket : ℕ) (negated : Bool) (before : List Interval) →
            fault_from self.end (InClass depth bracket negated before Items) (writing words.now)
            ≡ fault_from self.end (InClass depth bracket negated (before ++ r.0 ∷ []) Items)
            (writing r.1.now)) }
        ensures fault { IfErr result (λ r.
            Reports r (λ f. (depth bracket : ℕ) (negated : Bool) (before : List Interval) →
            fault_from self.end (InClass depth bracket negated before Items) (writing words.now)
            ≡ Some f)) }
    {
        let Some((place, first, rest)) = class_char(words) else {
            return Err(self.syntax(words));
        };
        let Some((_, after)) = strip(rest, '-') else {
            return Ok((range(first, first), rest));
        };
        let Some((_, last, rest)) = class_char(after) else {
            return Err(self.syntax(after));
        };
        if last < first {
            return Err(fault(place, PatternCause::ReversedRange));
        }
        Ok((range(first, last), rest))
    }
}

/// The code of the first of these characters, and the others, if it may stand in a literal.
fn literal_char<'a>(words: &'a [Character]) -> Option<(char, &'a [Character])>
    ensures { MatchOption result
        (HasNoLiteralChar (writing words.now))
        (λ r. IsLiteralCharAt r.0 (writing words.now) (writing r.1.now)
        × (length r.1.now < length words.now)) }
{
    match words.split_first() {
        Some((Character::Sign { code, .. }, rest)) if *code != '"' => Some((*code, rest)),
        Some((Character::Escape { code, .. }, rest)) => Some((*code, rest)),
        _ => None,
    }
}

/// Whether a `^` stands at the start, and the characters after it.
fn strip_caret(words: &[Character]) -> (bool, &[Character])
    ensures caret { IsCaret result.0 (writing words.now) (writing result.1.now) }
    ensures no_longer { length result.1.now ≤ length words.now }
{
    match strip(words, '^') {
        Some((_, inside)) => (true, inside),
        None => (false, words),
    }
}

fn range(first: char, last: char) -> Interval
    requires { first ≤ last }
    ensures first { result.first ≡ first }
    ensures last { result.last ≡ last }
    ensures range { is_range result ≡ true }
{
    Interval { first, last }
}

/// The place and the code of the first of these characters, and the others, if it may stand for
/// itself in a class.
fn class_char<'a>(words: &'a [Character]) -> Option<(usize, char, &'a [Character])>
    ensures { MatchOption result
        (HasNoClassChar (writing words.now))
        (λ r. IsClassCharAt r.0 r.1 (writing words.now) (writing r.2.now)
        × (length r.2.now < length words.now)) }
{
    match words.split_first() {
        Some((Character::Sign { place, code }, rest)) if stands_for_itself(*code) => Some((
            *place, *code, rest,
        )),
        Some((Character::Escape { place, code }, rest)) => Some((*place, *code, rest)),
        _ => None,
    }
}

/// Whether a class needs no escape for it.
fn stands_for_itself(code: char) -> bool
    ensures { MatchBool result
        ((code ≢ 93) × (code ≢ 45) × (code ≢ 94)) ((code ≢ 93) × (code ≢ 45) × (code ≢ 94) → ⊥) }
{
    code != ']' && code != '-' && code != '^'
}

/// Whether a class has no member.
fn is_nothing(negated: bool, intervals: &[Interval]) -> bool
    ensures { result ≡ is_nothing negated intervals.now }
{
    if negated {
        is_everything(intervals)
    } else {
        intervals.is_empty()
    }
}

/// Whether each character lies in one of the intervals.
fn is_everything(intervals: &[Interval]) -> bool
    ensures { result ≡ is_everything intervals.now }
{
    is_member(0, intervals) && all_are_followed(intervals)
}

/// Whether the character after each interval lies in one of them.
fn all_are_followed(intervals: &[Interval]) -> bool
    ensures { result
        ≡ list_all (λ i. i.last == 0x10_FFFF || is_member (code_after i.last) intervals.now)
        intervals.now }
{
    intervals.iter().all(|i| is_followed(i.last, intervals))
}

/// Whether the character after this one, if there is one, lies in one of the intervals.
fn is_followed(last: char, intervals: &[Interval]) -> bool
    ensures { result ≡ (last == 0x10_FFFF || is_member (code_after last) intervals.now) }
{
    last == '\u{10FFFF}' || is_member(code_after(last), intervals)
}

fn is_member(code: u32, intervals: &[Interval]) -> bool
    ensures { result ≡ is_member code intervals.now }
{
    intervals
        .iter()
        .any(|i| i.first as u32 <= code && code <= i.last as u32)
}

/// The code of the character after this one, if there is one.
fn code_after(character: char) -> u32
    ensures { result ≡ code_after character }
{
    if character == '\u{D7FF}' {
        0xE000
    } else {
        character as u32 + 1
    }
}
