//! A whole text as a source of characters.

ghost use Rattle.std.specs.Prelude.{◌≡◌, ◌<◌, length, drop};

use dfa::Source;
use text::{Chars, Text};

/// A text whose window is the whole of it. A character is looked up, or stands next to the one
/// read last, so that few can be asked for without a pass over the text.
#[derive(Clone, Copy)]
pub struct Whole<'a>(pub &'a Text);

impl<'a> Source for Whole<'a> {
    type Ahead = Chars<'a>;

    ghost text = { λ s. s.0.now };

    ghost in_window = { λ s i. i < length s.0.now };

    ghost is_before = { λ s i ahead. ahead ≡ drop i s.0.now };

    fn len(&self) -> usize {
        self.0.len()
    }

    fn get(&self, i: usize) -> char {
        self.0.at(i)
    }

    fn ahead(&self, i: usize) -> Chars<'a> {
        self.0.chars_from(i)
    }

    fn next(&self, ahead: &mut Chars<'a>, _i: usize) -> char {
        let Some(c) = ahead.next() else {
            unreachable!();
        };
        c
    }

    fn pass<F: Fn(char) -> bool>(&self, ahead: &mut Chars<'a>, _i: usize, test: F) -> usize {
        ahead.pass(test)
    }

    ghost inside = { λ s i h. h };
}
