//! The tokens that a parser reads.

use definitions::Kind;

/// The kinds of a document's significant tokens, in order.
pub trait Kinds {
    ghost use Rattle.std.specs.Prelude.{◌≡◌, ℕ, ◌+◌, List, length, slice_get};
    ghost use Rattle.definitions.specs.declared.Kind.{Kind};

    /// A place among the kinds, from which they are read one after another.
    type Ahead: Drop;

    ghost kinds: { Self → List Kind };

    /// The place is the one before token number `k`.
    ghost is_before: { Self → ℕ → Self.Ahead → Type 0 };

    /// How many tokens there are.
    fn len(&self) -> usize
        ensures { result ≡ length (kinds self.now) };

    /// The kind of token number `k`, counted from 0; none past the last one.
    fn kind(&self, k: usize) -> Option<Kind>
        ensures { result ≡ slice_get (kinds self.now) k };

    /// The place before token number `k`. It reads no kind.
    fn ahead(&self, k: usize) -> Self::Ahead
        ensures { is_before self.now k result };

    /// The kind of token number `k`, before which the place is, and none past the last one. The
    /// place moves on to the next token, which takes a constant number of steps when averaged over
    /// a walk.
    fn next(&self, ahead: &mut Self::Ahead, k: usize) -> Option<Kind>
        requires { is_before self.now k ahead.old }
        ensures is { result ≡ slice_get (kinds self.now) k }
        ensures moved { is_before self.now (k + 1) ahead.new };
}
