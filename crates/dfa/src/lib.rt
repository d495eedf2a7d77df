//! The longest match of a list of token rules, by an automaton whose states are sets of positions
//! (Glushkov).
//!
//! `Automaton::build` makes the automaton of a list of patterns, which are numbered from 0;
//! `longest` returns the longest match at an offset of a `Source`: characters by their offset,
//! with a cursor that reads them one after another. Of two rules that match equally far the
//! earlier one wins; if none matches, `rule` is `None`.
//!
//! Words: the *reach* of a match is how many characters had to be looked at, the end of the text
//! counting as one.
//!
//! Limits: an automaton of more than 4,096 states is refused (`DfaFault`). `longest` takes no
//! memory, and costs one step for each character of the reach. In the example `grammar` is read
//! from the grammar file in README.md.
//!
//! ```
//! let Ok(automaton) = Automaton::build(alloc, grammar.patterns()) else {
//!     return None;
//! };
//! let text = Text::open(alloc, "12+3").ok()?;
//! let end = text.len();
//! let found = automaton.longest(&Whole(&text), 0);
//! println!(rt; "length {} of {end}, reach {}", found.length, found.reach).ok()
//! // length 2 of 4, reach 3
//! ```
#![tactic(auto)]

ghost use Rattle.std.specs.Prelude.{◌≡◌, ℕ, ◌+◌, ◌<◌, ◌≤◌, All, List, length, take, drop, slice_index_or, true};
ghost use Rattle.definitions.specs.Text.{IsCharacter};

mod alphabet;
mod automaton;
mod build;
pub mod laws;
mod positions;
mod states;
mod tree;

pub use automaton::{Automaton, Match};
pub use build::DfaFault;

/// A text that is read by offsets of characters. Only the offsets in its window may be asked for.
pub trait Source {
    /// A place in the text, from which characters are read one after another.
    type Ahead: Drop;

    /// The characters, by their codes.
    ghost text: { Self → List ℕ };

    /// Which offsets may be asked for.
    ghost in_window: { Self → ℕ → Type 0 };

    /// The place is the one before the character at this offset.
    ghost is_before: { Self → ℕ → Self.Ahead → Type 0 };

    /// The number of characters.
    fn len(&self) -> usize
        ensures { result ≡ length (text self.now) };

    /// The character at an offset in the window.
    fn get(&self, i: usize) -> char
        requires { in_window self.now i }
        ensures { result ≡ slice_index_or (text self.now) i 0 };

    /// The place before the character at an offset. It asks for no character.
    fn ahead(&self, i: usize) -> Self::Ahead
        requires { i ≤ length (text self.now) }
        ensures { is_before self.now i result };

    /// The character at an offset in the window, before which the place is. The place moves on to
    /// the next character.
    fn next(&self, ahead: &mut Self::Ahead, i: usize) -> char
        requires window { in_window self.now i }
        requires before { is_before self.now i ahead.old }
        ensures is { result ≡ slice_index_or (text self.now) i 0 }
        ensures moved { is_before self.now (i + 1) ahead.new };

    /// Moves the place, which is before the character at an offset, on over characters that pass
    /// the test, and returns how many they are. It asks for them one after another, each only if
    /// all before it pass, and may stop at any of them.
    fn pass<F: Fn(char) -> bool>(&self, ahead: &mut Self::Ahead, i: usize, test: F) -> usize
        requires callable { F.IsAlwaysCallable test }
        requires within { i ≤ length (text self.now) }
        requires before { is_before self.now i ahead.old }
        requires window { (n : ℕ) → i + n < length (text self.now)
            → All (λ c. IsCharacter c × F.post test c true) (take n (drop i (text self.now)))
            → in_window self.now (i + n) }
        ensures inside { i + result ≤ length (text self.now) }
        ensures passed { All (λ c. IsCharacter c × F.post test c true)
            (take result (drop i (text self.now))) }
        ensures moved { is_before self.now (i + result) ahead.new }
    {
        0
    }

    /// The window lies within the text.
    ghost inside: { (s : Self) (i : ℕ) → in_window s i → i < length (text s) };
}
