//! The kinds that a machine reads.

ghost use Rattle.std.specs.Prelude.{◌≡◌, length, slice_get};

use definitions::Kind;
use std::marker::Model;
use trees::Kinds;

/// The kinds of a document's significant tokens, and a place among them. A machine asks for the
/// same kind again and again, and then nearly always for the next one: the first costs nothing,
/// and the other one a step.
#[derive(Drop)]
pub struct Reader<'a, K: Kinds> {
    kinds: &'a K,
    /// The number of the token whose kind was read last.
    number: usize,
    /// Its kind.
    kind: Option<Kind>,
    /// The place after that token.
    ahead: K::Ahead,
}

impl<'a, K: Kinds> Model for Reader<'a, K> {
    ghost use Rattle.std.specs.Prelude.{◌≡◌, ◌+◌, List, slice_get};
    ghost use Rattle.definitions.specs.declared.Kind.{Kind};

    ghost Value = { List Kind };

    ghost view = { λ r. K.kinds r.kinds.now };

    ghost invariant = { λ r. K.is_before r.kinds.now (r.number + 1) r.ahead
        × (r.kind ≡ slice_get (K.kinds r.kinds.now) r.number) };
}

impl<'a, K: Kinds> Reader<'a, K> {
    /// A reader that has read the first kind.
    pub fn new(kinds: &'a K) -> Reader<'a, K>
        ensures { result ≡ K.kinds kinds.now }
    {
        let mut ahead = kinds.ahead(0);
        let kind = kinds.next(&mut ahead, 0);
        Reader {
            kinds,
            number: 0,
            kind,
            ahead,
        }
    }

    /// How many tokens there are.
    pub fn len(&self) -> usize
        ensures { result ≡ length self.now }
    {
        self.kinds.len()
    }

    /// The kind of token number `k`, counted from 0; none past the last one.
    pub fn kind(&mut self, k: usize) -> Option<Kind>
        ensures is { result ≡ slice_get self.old k }
        ensures same { self.new ≡ self.old }
    {
        if k == self.number {
            return self.kind;
        }
        if k > 0 && k - 1 == self.number {
            self.kind = self.kinds.next(&mut self.ahead, k);
            self.number = k;
            return self.kind;
        }
        self.jump(k)
    }

    /// The same, wherever the place is. It is a call of its own, since a new place may take much
    /// room on the stack, which would cost each call that needs none.
    #[inline(never)]
    fn jump(&mut self, k: usize) -> Option<Kind>
        ensures is { result ≡ slice_get self.old k }
        ensures same { self.new ≡ self.old }
    {
        let mut ahead = self.kinds.ahead(k);
        self.kind = self.kinds.next(&mut ahead, k);
        self.ahead = ahead;
        self.number = k;
        self.kind
    }
}
