//! What the pattern of a rule says of the signs in its tokens.

use definitions::{Expression, Interval};
use mending::Balance;
use std::alloc::{AllocError, Global};

/// The brackets that a character opens or closes.
fn of_character(character: char) -> Balance {
    let even = Balance::EVEN;
    match character {
        '(' => Balance { round: 1, ..even },
        ')' => Balance { round: -1, ..even },
        '[' => Balance { square: 1, ..even },
        ']' => Balance { square: -1, ..even },
        '{' => Balance { curly: 1, ..even },
        '}' => Balance { curly: -1, ..even },
        _ => even,
    }
}

/// The brackets that the characters of a literal open and don't close.
fn of_literal(characters: &[char]) -> Balance {
    let mut balance = Balance::EVEN;
    for character in characters {
        balance = balance.with(of_character(*character));
    }
    balance
}

/// The brackets that a text opens and doesn't close.
pub(crate) fn of_text(text: &str) -> Balance {
    let mut balance = Balance::EVEN;
    for character in text.chars() {
        balance = balance.with(of_character(character));
    }
    balance
}

/// Whether brackets of some sort are opened and not closed.
pub(crate) fn opens(balance: Balance) -> bool {
    0 < balance.round || 0 < balance.square || 0 < balance.curly
}

/// Whether the empty text matches, as far as that is plain.
fn may_be_empty(expression: &Expression) -> bool {
    match expression {
        Expression::Star(_) | Expression::Optional(_) => true,
        Expression::Sequence(first, second) => may_be_empty(first) && may_be_empty(second),
        Expression::Choice(first, second) => may_be_empty(first) || may_be_empty(second),
        Expression::Literal(_) | Expression::Class { .. } | Expression::Plus(_) => false,
    }
}

/// The literal that each matching text begins with, where all behind it may be left out.
fn beginning(expression: &Expression) -> Option<&[char]> {
    match expression {
        Expression::Literal(characters) => Some(characters),
        Expression::Sequence(first, second) if may_be_empty(second) => beginning(first),
        _ => None,
    }
}

/// The shortest text that matches, where it is one character with which all others begin, as that
/// of a comma that takes the line ends behind it. Refuses for memory alone.
pub(crate) fn shortest(
    alloc: Global,
    expression: &Expression,
) -> Result<Option<String>, AllocError> {
    let Some([character]) = beginning(expression) else {
        return Ok(None);
    };
    let mut text = String::new(alloc);
    text.push(*character)?;
    Ok(Some(text))
}

/// The character of a class that has no other one.
fn only_member(negated: bool, intervals: &[Interval]) -> Option<char> {
    match intervals {
        [only] if !negated && only.first == only.last => Some(only.first),
        _ => None,
    }
}

/// The brackets that each matching text opens and doesn't close, as far as they are written out.
/// What is repeated, or may be left out, counts as even, and so does a choice of which not all
/// open the same.
pub(crate) fn brackets(expression: &Expression) -> Balance {
    match expression {
        Expression::Literal(characters) => of_literal(characters),
        Expression::Class { negated, intervals } => match only_member(*negated, intervals) {
            Some(character) => of_character(character),
            None => Balance::EVEN,
        },
        Expression::Sequence(first, second) => brackets(first).with(brackets(second)),
        Expression::Choice(first, second) => {
            let (one, other) = (brackets(first), brackets(second));
            if one == other { one } else { Balance::EVEN }
        }
        Expression::Star(_) | Expression::Plus(_) | Expression::Optional(_) => Balance::EVEN,
    }
}

/// Whether a character is a sign that is no quote.
fn is_sign(character: char) -> bool {
    !character.is_alphanumeric() && !matches!(character, '"' | '\'' | '`' | '_')
}

/// Whether each matching text begins with a sign that is written out and is no quote.
pub(crate) fn begins_with_sign(expression: &Expression) -> bool {
    match expression {
        Expression::Literal(characters) => characters.first().is_some_and(|c| is_sign(*c)),
        Expression::Class { negated, intervals } => {
            only_member(*negated, intervals).is_some_and(is_sign)
        }
        Expression::Sequence(first, _) | Expression::Plus(first) => begins_with_sign(first),
        Expression::Choice(first, second) => begins_with_sign(first) && begins_with_sign(second),
        Expression::Star(_) | Expression::Optional(_) => false,
    }
}
