//! Lists of characters as sources.

ghost use Rattle.std.specs.Prelude.{⊤, ◌<◌, length};

use dfa::Source;

/// Characters in one vector, whose window is the whole of it. A scan of a whole text reads each of
/// them, so that a look-up in the text for each would take most of its time.
#[derive(Clone, Copy)]
pub struct Characters<'a>(pub &'a [char]);

impl<'a> Source for Characters<'a> {
    /// An offset is place enough.
    type Ahead = ();

    ghost text = { λ s. s.0.now };

    ghost in_window = { λ s i. i < length s.0.now };

    ghost is_before = { λ s i ahead. ⊤ };

    fn len(&self) -> usize {
        self.0.len()
    }

    fn get(&self, i: usize) -> char {
        self.0[i]
    }

    fn ahead(&self, _i: usize) {}

    fn next(&self, _ahead: &mut (), i: usize) -> char {
        self.get(i)
    }

    fn pass<F: Fn(char) -> bool>(&self, _ahead: &mut (), i: usize, test: F) -> usize {
        let mut end = i;
        while end < self.0.len() && test(self.0[end]) {
            end += 1;
        }
        end - i
    }

    ghost inside = { λ s i h. h };
}

/// Characters with codes below 256, each in a byte, whose window is the whole of them.
#[derive(Clone, Copy)]
pub struct Bytes<'a>(pub &'a [u8]);

impl<'a> Source for Bytes<'a> {
    /// An offset is place enough.
    type Ahead = ();

    ghost text = { λ s. s.0.now };

    ghost in_window = { λ s i. i < length s.0.now };

    ghost is_before = { λ s i ahead. ⊤ };

    fn len(&self) -> usize {
        self.0.len()
    }

    fn get(&self, i: usize) -> char {
        char::from(self.0[i])
    }

    fn ahead(&self, _i: usize) {}

    fn next(&self, _ahead: &mut (), i: usize) -> char {
        self.get(i)
    }

    fn pass<F: Fn(char) -> bool>(&self, _ahead: &mut (), i: usize, test: F) -> usize {
        let mut end = i;
        while end < self.0.len() && test(char::from(self.0[end])) {
            end += 1;
        }
        end - i
    }

    ghost inside = { λ s i h. h };
}
