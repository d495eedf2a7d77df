//! The characters of a text, one after another.

ghost use Rattle.std.specs.Prelude.{◌≡◌, ◌<◌, ◌≤◌, ◌∷◌, ◌++◌, All, length, take, drop, slice_get, true, MatchOption};
ghost use Rattle.std.specs.Iterator.{YieldsFirst, item_count};
ghost use Rattle.definitions.specs.Text.{IsCharacter};
ghost use Rattle.pieces.specs.Pieces.{text_in};
ghost use Rattle.std.specs.Str.{chars};

use pieces::Piece;
use seqtree::Iter;
use std::marker::Model;

/// The characters of a text from an offset on, in order.
#[derive(Drop)]
pub struct Chars<'a> {
    /// What is left of the present piece, empty only where nothing is left at all.
    present: &'a str,
    /// The pieces after it.
    pieces: Iter<'a, Piece>,
}

impl<'a> Model for Chars<'a> {
    ghost use Rattle.std.specs.Prelude.{◌≡◌, ℕ, List, ◌++◌, length};
    ghost use Rattle.pieces.specs.Pieces.{text_in};
    ghost use Rattle.std.specs.Str.{chars};

    ghost Value = { List ℕ };

    ghost view = { λ c. chars c.present.now ++ text_in c.pieces };

    ghost invariant = { λ c. length c.present.now ≡ 0 → length c.pieces ≡ 0 };
}

impl<'a> Chars<'a> {
    /// The characters of `present` and then those of the pieces.
    pub(crate) fn new(present: &'a str, mut pieces: Iter<'a, Piece>) -> Chars<'a>
        ensures { result ≡ chars present.now ++ text_in pieces.entry }
    {
        let present = refill(present, &mut pieces);
        Chars { present, pieces }
    }

    /// Goes on over characters that pass the test, and returns how many they are. It stops at the
    /// first that doesn't or that isn't in ASCII, and where a piece ends.
    pub fn pass<F: Fn(char) -> bool>(&mut self, test: F) -> usize
        requires { F.IsAlwaysCallable test }
        ensures inside { result ≤ length self.old }
        ensures left { self.new ≡ drop result self.old }
        ensures passed { All (λ c. IsCharacter c × F.post test c true) (take result self.old) }
    {
        let count = passed(self.present.as_bytes(), test);
        let (_, left) = self.present.split_at(count);
        self.present = refill(left, &mut self.pieces);
        count
    }

    /// The next character, which stays.
    pub(crate) fn peek(&self) -> Option<char>
        ensures { result ≡ slice_get self.now 0 }
    {
        self.present.chars().next()
    }
}

impl<'a> Iterator for Chars<'a> {
    type Item = char;

    ghost next_gives = { YieldsFirst (λ s. s) };

    ghost remaining = { item_count (λ s. s) };

    fn next(&mut self) -> Option<char> {
        let (first, rest) = split_first(self.present)?;
        self.present = refill(rest, &mut self.pieces);
        Some(first)
    }
}

/// How many bytes from the first one on are in ASCII, and pass the test as characters.
fn passed<F: Fn(char) -> bool>(bytes: &[u8], test: F) -> usize
    requires { F.IsAlwaysCallable test }
    ensures inside { result ≤ length bytes.now }
    ensures passed { All (λ c. (c < 128) × F.post test c true) (take result bytes.now) }
{
    let mut count = 0;
    while count < bytes.len() && bytes[count].is_ascii() && test(char::from(bytes[count])) {
        count += 1;
    }
    count
}

/// The first character and what comes after it.
fn split_first(text: &str) -> Option<(char, &str)>
    ensures { MatchOption result (length text.now ≡ 0) (λ r. chars text.now ≡ r.0 ∷ chars r.1.now) }
{
    let mut rest = text.chars();
    let first = rest.next()?;
    Some((first, rest.as_str()))
}

/// What is left of the present piece, or the next piece where nothing is.
fn refill<'a>(present: &'a str, pieces: &mut Iter<'a, Piece>) -> &'a str
    ensures same { chars result.now ++ text_in pieces.new
        ≡ chars present.now ++ text_in pieces.old }
    ensures filled { length result.now ≡ 0 → length pieces.new ≡ 0 }
{
    if present.len() > 0 {
        return present;
    }
    match pieces.next() {
        Some(piece) => piece.text(),
        None => present,
    }
}
