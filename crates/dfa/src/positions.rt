//! Which positions of expressions hold a character.
ghost use Rattle.std.specs.Prelude.{◌≡◌, ◌+◌, ◌<◌, ◌^◌, ◌++◌, length, IfOk};
ghost use Rattle.definitions.specs.Patterns.{is_member};
ghost use Rattle.dfa.specs.Positions.{positions};
ghost use Rattle.dfa.specs.Marks.{unmarked, holders, literal_holders};

use definitions::{Expression, Interval};
use std::alloc::AllocError;

/// Adds a blank mark for each position of the expression.
pub fn blank(e: &Expression, out: &mut Vec<bool>) -> Result<(), AllocError>
    ensures { IfOk result (λ _. out.new.items ≡ out.old.items ++ unmarked (positions e.now)) }
{
    match e {
        Expression::Literal(characters) => blank_literal(characters, out),
        Expression::Class { .. } => {
            out.push(false)?;
            Ok(())
        }
        Expression::Sequence(a, b) | Expression::Choice(a, b) => {
            blank(a, out)?;
            blank(b, out)
        }
        Expression::Star(a) | Expression::Plus(a) | Expression::Optional(a) => blank(a, out),
    }
}

/// Adds a blank mark for each character of a literal.
fn blank_literal(characters: &[char], out: &mut Vec<bool>) -> Result<(), AllocError>
    ensures { IfOk result (λ _. out.new.items ≡ out.old.items ++ unmarked (length characters.now)) }
{
    for _c in characters {
        out.push(false)?;
    }
    Ok(())
}

/// Whether the character lies in one of the intervals.
fn is_member(intervals: &[Interval], c: char) -> bool
    ensures { result ≡ is_member c intervals.now }
{
    intervals.iter().any(|i| i.first <= c && c <= i.last)
}

/// Adds the positions that hold the character, where those of the expression begin at `at`, which
/// goes past them.
pub fn holders(
    e: &Expression,
    c: char,
    at: &mut usize,
    out: &mut Vec<usize>,
) -> Result<(), AllocError>
    requires { at.old + positions e.now < 2 ^ 64 }
    ensures past { IfOk result (λ _. at.new ≡ at.old + positions e.now) }
    ensures holders { IfOk result (λ _. out.new.items ≡ out.old.items ++ holders c at.old e.now) }
{
    match e {
        Expression::Literal(characters) => literal_holders(characters, c, at, out),
        Expression::Class { negated, intervals } => {
            if is_member(intervals, c) != *negated {
                out.push(*at)?;
            }
            *at += 1;
            Ok(())
        }
        Expression::Sequence(a, b) | Expression::Choice(a, b) => {
            holders(a, c, at, out)?;
            holders(b, c, at, out)
        }
        Expression::Star(a) | Expression::Plus(a) | Expression::Optional(a) => holders(
            a, c, at, out,
        ),
    }
}

/// Does for a literal what `holders` does for an expression.
fn literal_holders(
    characters: &[char],
    c: char,
    at: &mut usize,
    out: &mut Vec<usize>,
) -> Result<(), AllocError>
    requires { at.old + length characters.now < 2 ^ 64 }
    ensures past { IfOk result (λ _. at.new ≡ at.old + length characters.now) }
    ensures holders { IfOk result (λ _. out.new.items ≡ out.old.items ++ literal_holders c at.old
        characters.now) }
{
    for d in characters {
        if *d == c {
            out.push(*at)?;
        }
        *at += 1;
    }
    Ok(())
}
