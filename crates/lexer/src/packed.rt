//! Tokens as a list stores them.

ghost use Rattle.std.specs.Prelude.{◌≡◌, ◌<◌, ◌≤◌, ◌^◌};
ghost use Rattle.lexer.specs.Tokens.{kind_in};
ghost use Rattle.lexer.specs.Packing.{code, short_kind_of};

use crate::sums::{ShortKind, Sums, Token};
use definitions::Kind;
use seqtree::Measured;
use std::marker::Model;

/// What one character of the reach counts in a shape: 2^21, more than any length.
const REACH_UNIT: u64 = 2_097_152;

/// What the mark of a skipped token counts in a shape: 2^42.
const MARK: u64 = 4_398_046_511_104;

/// What one counts in the code of the kind, in a shape: 2^43.
const KIND_UNIT: u64 = 8_796_093_022_208;

/// A token in 16 bytes. A contract sees the token.
#[derive(Clone, Copy)]
pub struct PackedToken {
    /// The number of the edit.
    born: u64,
    /// From its lowest bits up: the length in 21 bits, the reach in 21, whether it is skipped in
    /// 1, and the code of its kind.
    shape: u64,
}

const _: () = prove!(size_of::<PackedToken>() == 16);

impl Model for PackedToken {
    ghost use Rattle.lexer.specs.declared.sums.Token.{Token};

    ghost Value = { Token };

    ghost use Rattle.lexer.specs.Packing.{unpack, pack, HasKind};
    ghost use Rattle.lexer.specs.PackingLaws.{pack-unpack};

    ghost view = { unpack };

    ghost invariant = { HasKind };

    ghost inverse = { pack };

    ghost inverse_ok = { λ a h. pack-unpack a };
}

impl PackedToken {
    /// The packed form of a token, whose length and reach must be below 2^21.
    pub fn new(token: Token) -> PackedToken
        requires short { token.length < 2 ^ 21 }
        requires near { token.reach < 2 ^ 21 }
        ensures { result ≡ token }
    {
        let mark = if token.skipped { MARK } else { 0 };
        let kind = code_of(token.short_kind) * KIND_UNIT;
        PackedToken {
            born: token.born,
            shape: token.length as u64 + token.reach as u64 * REACH_UNIT + mark + kind,
        }
    }

    /// The token.
    pub fn unpack(self) -> Token
        ensures { result ≡ self }
    {
        Token {
            born: self.born,
            length: self.length(),
            reach: (self.shape / REACH_UNIT % REACH_UNIT) as u32,
            short_kind: self.short_kind(),
            skipped: self.is_skipped(),
        }
    }

    /// How many characters it has.
    pub fn length(self) -> u32
        ensures { result ≡ self.length }
    {
        (self.shape % REACH_UNIT) as u32
    }

    /// Whether its rule is one of those that a parser does not see.
    pub fn is_skipped(self) -> bool
        ensures { result ≡ self.skipped }
    {
        self.shape / MARK % 2 == 1
    }

    /// The rule that it matches, or that it matches none.
    pub fn kind(self) -> Kind
        ensures { result ≡ kind_in self }
    {
        self.short_kind().long()
    }

    /// The same in 16 bits.
    fn short_kind(self) -> ShortKind
        ensures { result ≡ self.short_kind }
    {
        short_kind_of(self.shape / KIND_UNIT)
    }
}

impl Measured for PackedToken {
    ghost use Rattle.lexer.specs.Sums.{token_sum};

    type Sum = Sums;

    ghost measure = { token_sum };

    fn sum(&self) -> Sums {
        self.unpack().sum()
    }
}

/// The code of a kind: 0 where no rule matches, and one more than the number of the rule.
fn code_of(kind: ShortKind) -> u64
    ensures is { result ≡ code kind }
    ensures few { result ≤ 2 ^ 16 }
{
    match kind {
        ShortKind::Rule(rule) => rule as u64 + 1,
        ShortKind::Invalid => 0,
    }
}

/// The kind with a code.
fn short_kind_of(code: u64) -> ShortKind
    requires { code ≤ 2 ^ 16 }
    ensures { result ≡ short_kind_of code }
{
    if code == 0 {
        ShortKind::Invalid
    } else {
        ShortKind::Rule((code - 1) as u16)
    }
}
