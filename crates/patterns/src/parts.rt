//! The parts of a pattern outside literals and classes.

ghost use Rattle.std.specs.Prelude.{◌≡◌, ◌<◌, ◌≤◌, length, IfOk, IfErr, MatchOption, None, true};
ghost use Rattle.definitions.specs.PatternFaults.{Outside, Nothing, AnAtom, ARepetition, fault_from};
ghost use Rattle.definitions.specs.Spelling.{Alt, Seq, Rep, Atom, SpellsAt};
ghost use Rattle.patterns.specs.Sound.{is_sound};
ghost use Rattle.patterns.specs.Reading.{writing, HasNoBlank, Reads, Refuses, IsBlanks, IsChoice, IsSequence, IsRepeated, IsStar, IsPlus, IsOptional, IsBlankAt, IsAtEnd, stops, ReportsFirst};

use crate::characters::Character;
use crate::classes::{Reader, strip};
use crate::refusals::{Read, Refusal, fault};
use definitions::{Expression, PatternCause};
use std::alloc::{AllocError, Global};

/// The expression that these characters spell; `end` is the place after them.
pub fn whole(alloc: Global, words: &[Character], end: usize) -> Result<Expression, Refusal>
    ensures spelled { IfOk result (λ e. SpellsAt Alt 0 e (writing words.now)) }
    ensures sound { IfOk result (λ e. is_sound e ≡ true) }
    ensures no_fault { IfOk result (λ e.
        fault_from end (Outside 0 Nothing) (writing words.now) ≡ None) }
    ensures fault { IfErr result (λ r. ReportsFirst 0 end words.now r) }
{
    let reader = Reader {
        alloc,
        depth: 0,
        end,
    };
    let (expression, rest) = reader.alternatives(words)?;
    if let Some((place, _)) = strip(rest, ')') {
        return Err(fault(place, PatternCause::Syntax));
    }
    Ok(expression)
}

impl Reader {
    /// The alternatives at the start, and the rest, which is empty or begins with a closing
    /// parenthesis.
    #[cycle(parts)]
    fn alternatives<'a>(self, words: &'a [Character]) -> Read<'a, Expression>
        requires { self.depth ≤ 64 }
        ensures read { IfOk result (λ r. Reads self Alt ARepetition words.now r.1.now r.0) }
        ensures stops { IfOk result (λ r. IsAtEnd (writing r.1.now)) }
        ensures fault { IfErr result (λ r. Refuses self words.now r) }
    {
        let (mut choice, mut rest) = self.sequence(words)?;
        while let Some((_, after)) = strip(rest, '|') {
            let (next, left) = self.sequence(after)?;
            choice = either(self.alloc, choice, next)?;
            rest = left;
        }
        Ok((choice, rest))
    }

    /// The sequence at the start, and the rest, which is empty or begins with a `|` or a closing
    /// parenthesis.
    #[cycle(parts)]
    fn sequence<'a>(self, words: &'a [Character]) -> Read<'a, Expression>
        requires { self.depth ≤ 64 }
        ensures read { IfOk result (λ r. Reads self Seq ARepetition words.now r.1.now r.0) }
        ensures stops { IfOk result (λ r. stops (writing r.1.now) ≡ true) }
        ensures fault { IfErr result (λ r. Refuses self words.now r) }
    {
        let (mut sequence, mut rest) = self.repetition(words)?;
        while !stops(rest) {
            let (next, left) = self.repetition(rest)?;
            sequence = both(self.alloc, sequence, next)?;
            rest = left;
        }
        Ok((sequence, rest))
    }

    /// The atom at the start with its sign of repetition, if it has one, and the rest, which
    /// begins with no blank.
    #[cycle(parts)]
    fn repetition<'a>(self, words: &'a [Character]) -> Read<'a, Expression>
        requires { self.depth ≤ 64 }
        ensures read { IfOk result (λ r. Reads self Rep ARepetition words.now r.1.now r.0) }
        ensures no_blank { IfOk result (λ r. HasNoBlank (writing r.1.now)) }
        ensures fault { IfErr result (λ r. Refuses self words.now r) }
    {
        let (part, rest) = self.atom(words)?;
        let (expression, rest) = with_repetition(self.alloc, part, rest)?;
        Ok((expression, rest))
    }

    /// The atom at the start, with the blanks about it, and the rest, which begins with no blank.
    #[cycle(parts)]
    fn atom<'a>(self, words: &'a [Character]) -> Read<'a, Expression>
        requires { self.depth ≤ 64 }
        ensures read { IfOk result (λ r. Reads self Atom AnAtom words.now r.1.now r.0) }
        ensures no_blank { IfOk result (λ r. HasNoBlank (writing r.1.now)) }
        ensures fault { IfErr result (λ r. Refuses self words.now r) }
    {
        let (part, rest) = self.bare_atom(skip_blanks(words))?;
        Ok((part, skip_blanks(rest)))
    }

    /// The atom at the very start, and the rest.
    #[cycle(parts)]
    fn bare_atom<'a>(self, words: &'a [Character]) -> Read<'a, Expression>
        requires depth { self.depth ≤ 64 }
        requires no_blank { HasNoBlank (writing words.now) }
        ensures read { IfOk result (λ r. Reads self Atom AnAtom words.now r.1.now r.0) }
        ensures fault { IfErr result (λ r. Refuses self words.now r) }
    {
        if let Some((quote, inside)) = strip(words, '"') {
            let (characters, rest) = self.literal(inside, quote)?;
            return Ok((Expression::Literal(characters), rest));
        }
        if let Some((bracket, inside)) = strip(words, '[') {
            let ((negated, intervals), rest) = self.class(inside, bracket)?;
            return Ok((Expression::Class { negated, intervals }, rest));
        }
        if self.depth < 64
            && let Some((_, inside)) = strip(words, '(')
        {
            let inner = Reader {
                depth: self.depth + 1,
                ..self
            };
            let (part, rest) = inner.alternatives(inside)?;
            let Some((_, after)) = strip(rest, ')') else {
                return Err(fault(self.end, PatternCause::Syntax));
            };
            return Ok((part, after));
        }
        Err(self.syntax(words))
    }
}

/// The rest after the blanks at the start.
fn skip_blanks(words: &[Character]) -> &[Character]
    ensures { IsBlanks (writing words.now) (writing result.now) × HasNoBlank (writing result.now) ×
        (length result.now ≤ length words.now) }
{
    let mut rest = words;
    while let Some((_, after)) = strip_blank(rest) {
        rest = after;
    }
    rest
}

/// The place of the first of these characters, and the others, if it is a blank.
fn strip_blank(words: &[Character]) -> Option<(usize, &[Character])>
    ensures { MatchOption result
        (HasNoBlank (writing words.now))
        (λ r. IsBlankAt (writing words.now) (writing r.1.now)
        × (length r.1.now < length words.now)) }
{
    match strip(words, ' ') {
        Some(found) => Some(found),
        None => strip(words, '\t'),
    }
}

/// Whether nothing, a `|` or a closing parenthesis stands at the start.
fn stops(words: &[Character]) -> bool
    ensures { result ≡ stops (writing words.now) }
{
    match words.first() {
        None => true,
        Some(
            Character::Sign {
                code: '|' | ')',
                ..
            },
        ) => true,
        Some(_) => false,
    }
}

/// The atom with the sign of repetition that stands at the start, if there is one, and the rest
/// after the blanks.
fn with_repetition<'a>(
    alloc: Global,
    part: Expression,
    words: &'a [Character],
) -> Result<(Expression, &'a [Character]), AllocError>
    requires no_blank { HasNoBlank (writing words.now) }
    ensures repeated { IfOk result (λ r. IsRepeated part r.0 words.now r.1.now) }
    ensures still_no_blank { IfOk result (λ r. HasNoBlank (writing r.1.now)) }
{
    if let Some((_, rest)) = strip(words, '*') {
        return Ok((star(alloc, part)?, skip_blanks(rest)));
    }
    if let Some((_, rest)) = strip(words, '+') {
        return Ok((plus(alloc, part)?, skip_blanks(rest)));
    }
    if let Some((_, rest)) = strip(words, '?') {
        return Ok((optional(alloc, part)?, skip_blanks(rest)));
    }
    Ok((part, words))
}

fn both(alloc: Global, first: Expression, second: Expression) -> Result<Expression, AllocError>
    ensures { IfOk result (λ e. IsSequence first second e) }
{
    Ok(Expression::Sequence(Box::new(alloc, first)?, Box::new(alloc, second)?))
}

fn either(alloc: Global, first: Expression, second: Expression) -> Result<Expression, AllocError>
    ensures { IfOk result (λ e. IsChoice first second e) }
{
    Ok(Expression::Choice(Box::new(alloc, first)?, Box::new(alloc, second)?))
}

fn star(alloc: Global, part: Expression) -> Result<Expression, AllocError>
    ensures { IfOk result (λ e. IsStar part e) }
{
    Ok(Expression::Star(Box::new(alloc, part)?))
}

fn plus(alloc: Global, part: Expression) -> Result<Expression, AllocError>
    ensures { IfOk result (λ e. IsPlus part e) }
{
    Ok(Expression::Plus(Box::new(alloc, part)?))
}

fn optional(alloc: Global, part: Expression) -> Result<Expression, AllocError>
    ensures { IfOk result (λ e. IsOptional part e) }
{
    Ok(Expression::Optional(Box::new(alloc, part)?))
}
