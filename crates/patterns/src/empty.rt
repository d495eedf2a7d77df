//! Whether an expression matches the empty text.

ghost use Rattle.std.specs.Prelude.{◌≡◌};
ghost use Rattle.patterns.specs.Empty.{matches_empty};

use definitions::Expression;

/// Whether the expression matches the empty text.
pub fn matches_empty(expression: &Expression) -> bool
    ensures { result ≡ matches_empty expression.now }
{
    match expression {
        Expression::Literal(characters) => characters.is_empty(),
        Expression::Class { .. } => false,
        Expression::Sequence(first, second) => matches_empty(first) && matches_empty(second),
        Expression::Choice(first, second) => matches_empty(first) || matches_empty(second),
        Expression::Star(_) | Expression::Optional(_) => true,
        Expression::Plus(part) => matches_empty(part),
    }
}
