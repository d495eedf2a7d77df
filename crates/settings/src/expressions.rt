//! What an expression of a pattern says of the texts that match it.

ghost use Rattle.std.specs.Prelude.{◌≡◌};
ghost use Rattle.patterns.specs.Empty.{matches_empty};

use definitions::{Expression, Interval};
use std::alloc::{AllocError, Global};

/// The text that a rule's tokens have.
#[derive(Debug, PartialEq, Eq, Drop)]
pub struct RuleText {
    /// The text; in capitals where both cases match.
    pub text: String,
    /// Whether the text matches in upper and lower case alike, as `[iI] [fF]` does.
    pub any_case: bool,
}

/// The text of a rule whose expression is one literal, or a choice of literals that are written
/// out, of which the first counts; or one word in any case. `None` where it is none of these.
///
/// Refuses for memory alone.
pub fn literal(alloc: Global, expression: &Expression) -> Result<Option<RuleText>, AllocError> {
    let mut text = String::new(alloc);
    let any_case = !is_literal(expression);
    if any_case && !is_word(expression) {
        return Ok(None);
    }
    if any_case {
        push_word(expression, &mut text)?;
    } else {
        push_literal(expression, &mut text)?;
    }
    Ok(Some(RuleText { text, any_case }))
}

/// Whether the expression is a literal, or literals to choose from.
fn is_literal(expression: &Expression) -> bool {
    match expression {
        Expression::Literal(_) => true,
        Expression::Class { negated, intervals } => only_member(*negated, intervals).is_some(),
        Expression::Sequence(first, second) | Expression::Choice(first, second) => {
            is_literal(first) && is_literal(second)
        }
        Expression::Star(_) | Expression::Plus(_) | Expression::Optional(_) => false,
    }
}

/// Adds the literal, or the first of those to choose from.
fn push_literal(expression: &Expression, text: &mut String) -> Result<(), AllocError> {
    match expression {
        Expression::Literal(characters) => push_all(characters, text),
        Expression::Class { negated, intervals } => {
            push_some(only_member(*negated, intervals), text)
        }
        Expression::Sequence(first, second) => {
            push_literal(first, text)?;
            push_literal(second, text)
        }
        Expression::Choice(first, _) => push_literal(first, text),
        Expression::Star(_) | Expression::Plus(_) | Expression::Optional(_) => Ok(()),
    }
}

/// Whether the expression is a word in any case.
fn is_word(expression: &Expression) -> bool {
    match expression {
        Expression::Literal(characters) => characters.iter().all(|c| small(*c) == capital(*c)),
        Expression::Class { negated, intervals } => letter(*negated, intervals).is_some(),
        Expression::Sequence(first, second) => is_word(first) && is_word(second),
        Expression::Choice(_, _)
        | Expression::Star(_)
        | Expression::Plus(_)
        | Expression::Optional(_) => false,
    }
}

/// Adds the word in capitals.
fn push_word(expression: &Expression, text: &mut String) -> Result<(), AllocError> {
    match expression {
        Expression::Literal(characters) => push_all(characters, text),
        Expression::Class { negated, intervals } => push_some(letter(*negated, intervals), text),
        Expression::Sequence(first, second) => {
            push_word(first, text)?;
            push_word(second, text)
        }
        Expression::Choice(_, _)
        | Expression::Star(_)
        | Expression::Plus(_)
        | Expression::Optional(_) => Ok(()),
    }
}

fn push_all(characters: &[char], text: &mut String) -> Result<(), AllocError> {
    for character in characters {
        text.push(*character)?;
    }
    Ok(())
}

fn push_some(character: Option<char>, text: &mut String) -> Result<(), AllocError> {
    match character {
        Some(character) => text.push(character),
        None => Ok(()),
    }
}

/// The character of a class that names no other one.
fn only_member(negated: bool, intervals: &[Interval]) -> Option<char> {
    let [only] = intervals else {
        return None;
    };
    if negated { None } else { single(*only) }
}

/// The character of an interval that has no other one.
fn single(interval: Interval) -> Option<char> {
    if interval.first == interval.last {
        Some(interval.first)
    } else {
        None
    }
}

/// The capital of a class that is a letter in both cases.
fn letter(negated: bool, intervals: &[Interval]) -> Option<char> {
    let [one, other] = intervals else {
        return None;
    };
    let (one, other) = (single(*one)?, single(*other)?);
    if negated || one == other || small(one) != small(other) {
        return None;
    }
    Some(if one == small(one) { other } else { one })
}

/// The character in lower case; the first where there are several.
fn small(character: char) -> char {
    character.to_lowercase().next().unwrap_or(character)
}

/// The character in upper case; the first where there are several.
fn capital(character: char) -> char {
    character.to_uppercase().next().unwrap_or(character)
}

/// Whether some text that matches begins with one of these characters.
pub fn begins_with(expression: &Expression, characters: &[char]) -> bool {
    match expression {
        Expression::Literal(text) => text.first().is_some_and(|c| characters.contains(c)),
        Expression::Class { negated, intervals } => {
            characters.iter().any(|c| is_in(*c, intervals) != *negated)
        }
        Expression::Sequence(first, second) => {
            begins_with(first, characters)
                || matches_empty(first) && begins_with(second, characters)
        }
        Expression::Choice(first, second) => {
            begins_with(first, characters) || begins_with(second, characters)
        }
        Expression::Star(part) | Expression::Plus(part) | Expression::Optional(part) => {
            begins_with(part, characters)
        }
    }
}

/// Whether one of the intervals has the character.
fn is_in(character: char, intervals: &[Interval]) -> bool {
    intervals
        .iter()
        .any(|i| i.first <= character && character <= i.last)
}

/// Whether the empty text matches.
fn matches_empty(expression: &Expression) -> bool
    ensures { result ≡ matches_empty expression.now }
{
    match expression {
        Expression::Literal(characters) => characters.is_empty(),
        Expression::Class { .. } => false,
        Expression::Sequence(first, second) => matches_empty(first) && matches_empty(second),
        Expression::Choice(first, second) => matches_empty(first) || matches_empty(second),
        Expression::Star(_) | Expression::Optional(_) => true,
        Expression::Plus(part) => matches_empty(part),
    }
}

/// What begins each comment that the expression matches, if such a comment ends where its line
/// does: the text before what is repeated at the end, if that begins each matching text and some
/// matching text has no line break.
///
/// Refuses for memory alone.
pub fn line_comment(alloc: Global, expression: &Expression) -> Result<Option<String>, AllocError> {
    if !ends_repeated(expression) || !can_lack_break(expression) {
        return Ok(None);
    }
    let mut text = String::new(alloc);
    push_beginning(expression, &mut text)?;
    Ok(if text.is_empty() { None } else { Some(text) })
}

/// Adds the text that each matching text begins with, as far as it is written out. Whether the
/// whole expression is.
fn push_beginning(expression: &Expression, text: &mut String) -> Result<bool, AllocError> {
    match expression {
        Expression::Sequence(first, second) => {
            Ok(push_beginning(first, text)? && push_beginning(second, text)?)
        }
        Expression::Choice(_, _)
        | Expression::Star(_)
        | Expression::Plus(_)
        | Expression::Optional(_) => Ok(false),
        one => {
            push_literal(one, text)?;
            Ok(is_literal(one))
        }
    }
}

/// Whether the last part of the expression is repeated, or may be left out.
fn ends_repeated(expression: &Expression) -> bool {
    match expression {
        Expression::Sequence(_, second) => ends_repeated(second),
        Expression::Star(_) | Expression::Plus(_) | Expression::Optional(_) => true,
        Expression::Literal(_) | Expression::Class { .. } | Expression::Choice(_, _) => false,
    }
}

/// Whether some text that matches has no line break. A class that isn't negated is looked at; a
/// negated one is taken to have another member.
fn can_lack_break(expression: &Expression) -> bool {
    match expression {
        Expression::Literal(characters) => !characters.contains(&'\n'),
        Expression::Class { negated, intervals } => {
            *negated || intervals.iter().any(|i| i.first != '\n' || i.last != '\n')
        }
        Expression::Sequence(first, second) => can_lack_break(first) && can_lack_break(second),
        Expression::Choice(first, second) => can_lack_break(first) || can_lack_break(second),
        Expression::Star(_) | Expression::Optional(_) => true,
        Expression::Plus(part) => can_lack_break(part),
    }
}
