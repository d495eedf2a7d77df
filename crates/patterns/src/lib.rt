//! The text of a token pattern, and the expression that it spells: for whoever builds an automaton
//! of patterns, or says what is wrong with one.
//!
//! `Pattern::read` parses the text, and `expression` returns what it spells: a literal, a class, a
//! sequence, a choice, or a repetition by `*`, `+` or `?`. A text that is no pattern is refused
//! with the place and the cause (`PatternCause`) of the first fault from the left; a pattern that
//! matches the empty text is refused too.
//!
//! Words: a *place* counts characters of the pattern from 0. docs/GRAMMARS.md says how patterns
//! are written.
//!
//! Limits: parentheses nest at most 64 deep. Reading costs the length of the text.
//!
//! ```
//! if let Err(fault) = Pattern::read(alloc, r#""ab" [z-a]"#) {
//!     println!(rt; "a fault at character {}", fault.at).ok()?;
//! }
//! // a fault at character 6
//! ```
#![tactic(auto)]

ghost use Rattle.std.specs.Prelude.{◌≡◌, ◌≢◌, None, true, false, [], IfOk, IfErr};
ghost use Rattle.std.specs.Str.{chars};
ghost use Rattle.definitions.specs.Patterns.{Matches};
ghost use Rattle.definitions.specs.Spelling.{IsPattern, IsWellMade};
ghost use Rattle.definitions.specs.PatternFaults.{first_fault, IsFault};
ghost use Rattle.definitions.specs.declared.expression.PatternCause.TheVariants.{Memory};
ghost use Rattle.definitions.specs.declared.expression.Expression.{Expression};
ghost use Rattle.patterns.specs.Empty.{matches_empty};
ghost use Rattle.patterns.specs.Sound.{is_sound};
ghost use Rattle.patterns.specs.Reading.{Reports};

mod characters;
mod classes;
mod empty;
mod laws;
mod parts;
mod refusals;

use characters::spelled_characters;
pub use definitions::{Expression, Interval, PatternCause, PatternFault};
use empty::matches_empty;
pub use laws::{one_text_has_one_meaning, texts_without_a_fault_are_spelled};
use parts::whole;
use refusals::{Refusal, fault};
use std::alloc::{AllocError, Global};
use std::marker::Model;

/// A pattern of tokens: a regular expression over characters that is well made and does not match
/// the empty text.
#[derive(Drop)]
pub struct Pattern {
    expression: Expression,
}

impl Model for Pattern {
    ghost use Rattle.std.specs.Prelude.{◌≡◌, true, false};
    ghost use Rattle.definitions.specs.declared.expression.Expression.{Expression};
    ghost use Rattle.patterns.specs.Empty.{matches_empty};
    ghost use Rattle.patterns.specs.Sound.{is_sound};
    ghost use Rattle.definitions.specs.contracts.expression.Expression as e;
    ghost use Rattle.std.specs.Coded.{codes};

    ghost Value = { Expression };

    ghost coded = { Prim.hlevel (codes, e.the_row.coded) };

    ghost view = { λ p. p.expression };

    ghost invariant = { λ p. (is_sound p.expression ≡ true) × (matches_empty p.expression ≡ false) };
}

impl Pattern {
    /// The pattern that `text` spells.
    ///
    /// Refuses a text that spells none with its first fault, read from the left, at a place in
    /// characters from the start: `Syntax` at the first character with which no pattern goes on,
    /// or at the end; `EmptyClass` at the `[` of a class with no member; `ReversedRange` at the
    /// first character of a range; `EmptyLiteral` at its first quote; `MatchesEmpty` at 0, where
    /// nothing else is wrong. `Memory`, at 0, says that memory was refused.
    pub fn read(alloc: Global, text: &str) -> Result<Pattern, PatternFault>
        ensures pattern { IfOk result (λ p. IsPattern (chars text.now) p) }
        ensures no_fault { IfOk result (λ p. first_fault (chars text.now) ≡ None) }
        ensures fault { IfErr result (λ f. f.cause ≢ Memory → IsFault (chars text.now) f) }
        ensures refused { IfErr result (λ f.
            f.cause ≢ Memory → (e : Expression) → IsPattern (chars text.now) e → ⊥) }
    {
        match read_expression(alloc, text) {
            Ok(expression) => Ok(Pattern { expression }),
            Err(Refusal::Fault(fault)) => Err(fault),
            Err(Refusal::Memory) => Err(PatternFault {
                at: 0,
                cause: PatternCause::Memory,
            }),
        }
    }

    /// The expression of the pattern, which is well made and does not match the empty text.
    pub fn expression(&self) -> &Expression
        ensures value { result.now ≡ self.now }
        ensures well_made { IsWellMade result.now }
        ensures not_empty { Matches result.now [] → ⊥ }
    {
        &self.expression
    }
}

/// The expression that a text spells, or the first fault.
fn read_expression(alloc: Global, text: &str) -> Result<Expression, Refusal>
    ensures pattern { IfOk result (λ e. IsPattern (chars text.now) e) }
    ensures no_fault { IfOk result (λ e. first_fault (chars text.now) ≡ None) }
    ensures sound { IfOk result (λ e. is_sound e ≡ true) }
    ensures not_empty { IfOk result (λ e. matches_empty e ≡ false) }
    ensures fault { IfErr result (λ r. Reports r (λ f. IsFault (chars text.now) f)) }
{
    let characters = characters_of(alloc, text)?;
    let words = spelled_characters(alloc, &characters)?;
    let expression = whole(alloc, &words, characters.len())?;
    if matches_empty(&expression) {
        return Err(fault(0, PatternCause::MatchesEmpty));
    }
    Ok(expression)
}

fn characters_of(alloc: Global, text: &str) -> Result<Vec<char>, AllocError>
    ensures { IfOk result (λ characters. characters.items ≡ chars text.now) }
{
    text.chars().collect(alloc)
}
