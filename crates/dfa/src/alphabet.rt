//! The parts of the alphabet that no rule tells apart.
ghost use Rattle.std.specs.Prelude.{◌≡◌, ℕ, ◌++◌, All, Contains, IfOk};
ghost use Rattle.definitions.specs.Text.{IsCharacter};
ghost use Rattle.dfa.specs.Alphabet.{all_cuts, class_cuts, cut, cuts, literal_cuts};
ghost use Rattle.dfa.specs.Table.{IsAscending, part};

use definitions::{Expression, Interval};
use patterns::Pattern;
use std::alloc::{AllocError, Global};

/// Adds where an interval cuts the alphabet: at its first character, and at the one after its
/// last, if there is one.
fn cut(first: char, last: char, out: &mut Vec<char>) -> Result<(), AllocError>
    ensures cuts { IfOk result (λ _. out.new.items ≡ out.old.items ++ cut first last) }
    ensures characters { IfOk result (λ _. All IsCharacter out.old.items
        → All IsCharacter out.new.items) }
{
    out.push(first)?;
    // The surrogates after it are no characters.
    if last == '\u{D7FF}' {
        out.push('\u{E000}')?;
    } else if let Some(next) = char::from_u32(u32::from(last) + 1) {
        out.push(next)?;
    }
    Ok(())
}

/// Adds the cuts of each character of a literal.
fn literal_cuts(characters: &[char], out: &mut Vec<char>) -> Result<(), AllocError>
    ensures cuts { IfOk result (λ _. out.new.items ≡ out.old.items ++ literal_cuts characters.now) }
    ensures characters { IfOk result (λ _. All IsCharacter out.old.items
        → All IsCharacter out.new.items) }
{
    for c in characters {
        cut(*c, *c, out)?;
    }
    Ok(())
}

/// Adds the cuts of each interval of a class, which are the same where it is negated.
fn class_cuts(intervals: &[Interval], out: &mut Vec<char>) -> Result<(), AllocError>
    ensures cuts { IfOk result (λ _. out.new.items ≡ out.old.items ++ class_cuts intervals.now) }
    ensures characters { IfOk result (λ _. All IsCharacter out.old.items
        → All IsCharacter out.new.items) }
{
    for i in intervals {
        cut(i.first, i.last, out)?;
    }
    Ok(())
}

/// Adds the cuts of the intervals of the expression.
fn cuts(e: &Expression, out: &mut Vec<char>) -> Result<(), AllocError>
    ensures cuts { IfOk result (λ _. out.new.items ≡ out.old.items ++ cuts e.now) }
    ensures characters { IfOk result (λ _. All IsCharacter out.old.items
        → All IsCharacter out.new.items) }
{
    match e {
        Expression::Literal(characters) => literal_cuts(characters, out),
        Expression::Class { intervals, .. } => class_cuts(intervals, out),
        Expression::Sequence(a, b) | Expression::Choice(a, b) => {
            cuts(a, out)?;
            cuts(b, out)
        }
        Expression::Star(a) | Expression::Plus(a) | Expression::Optional(a) => cuts(a, out),
    }
}

/// The cuts of all rules, in their order.
fn all_cuts(alloc: Global, patterns: &[Pattern]) -> Result<Vec<char>, AllocError>
    ensures cuts { IfOk result (λ out. out.items ≡ all_cuts patterns.now) }
    ensures characters { IfOk result (λ out. All IsCharacter out.items) }
{
    let mut out = Vec::new(alloc);
    for pattern in patterns {
        cuts(pattern.expression(), &mut out)?;
    }
    Ok(out)
}

/// The first characters of the parts, but for the first part: within a part no rule tells
/// characters apart.
pub fn starts(alloc: Global, patterns: &[Pattern]) -> Result<Vec<char>, AllocError>
    ensures ascending { IfOk result (λ starts. IsAscending starts.items) }
    ensures cuts { IfOk result (λ starts. (x : ℕ) → Contains (all_cuts patterns.now) x
        → Contains starts.items x) }
    ensures characters { IfOk result (λ starts. All IsCharacter starts.items) }
{
    let mut starts = all_cuts(alloc, patterns)?;
    starts.sort_unstable();
    starts.dedup();
    Ok(starts)
}

/// The number of the part in which the character lies.
pub fn part_of(starts: &[char], c: char) -> usize
    requires { IsAscending starts.now }
    ensures { result ≡ part starts.now c }
{
    starts.partition_point(|start| *start <= c)
}
