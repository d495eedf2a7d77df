//! Longest matches. `tests/program` shows how many states an automaton may have.

ghost use Rattle.std.specs.Prelude.{⊤, ◌<◌, length};
ghost use Rattle.definitions.specs.Text.{IsText};

use dfa::{Automaton, Source};
use patterns::Pattern;
use std::alloc::Global;
use std::process::Abort;

/// A text in memory, all of which may be asked for.
#[derive(Clone, Copy)]
struct Characters<'a> {
    characters: &'a [char],
}

impl Source for Characters<'_> {
    type Ahead = ();

    ghost text = { λ s. s.characters.now };

    ghost in_window = { λ s i. i < length s.characters.now };

    ghost is_before = { λ s i ahead. ⊤ };

    fn len(&self) -> usize {
        self.characters.len()
    }

    fn get(&self, i: usize) -> char {
        self.characters[i]
    }

    fn ahead(&self, _i: usize) {}

    fn next(&self, _ahead: &mut (), i: usize) -> char {
        self.characters[i]
    }

    ghost inside = { λ s i h. h };
}

fn read(rt: &impl Abort, alloc: Global, texts: &[&str]) -> Vec<Pattern> {
    let mut patterns = Vec::new(alloc);
    for text in texts {
        let pattern = Pattern::read(alloc, text).expect(rt, "a pattern");
        patterns.push(pattern).expect(rt, "memory");
    }
    patterns
}

/// The rules find this at the start of a text: which rule, its match's length, and its reach.
fn finds(
    rt: &impl Abort,
    alloc: Global,
    texts: &[&str],
    characters: &[char],
    wanted: (Option<usize>, usize, usize),
)
    requires text { IsText characters.now }
    requires small { length characters.now < 100 }
{
    let patterns = read(rt, alloc, texts);
    let automaton = Automaton::build(alloc, &patterns).expect(rt, "an automaton");
    let found = automaton.longest(&Characters { characters }, 0);
    assert!(rt; (found.rule, found.length, found.reach) == wanted);
}

#[test]
fn finds_longest_matches(rt: HostRuntime) {
    let alloc = rt.alloc();
    let sums = ["[0-9]+", "\"+\""];
    finds(&rt, alloc, &sums, &['1', '2', '+'], (Some(0), 2, 3));
    finds(&rt, alloc, &sums, &['1', '2'], (Some(0), 2, 3));
    finds(&rt, alloc, &sums, &['?'], (None, 1, 1));
    finds(&rt, alloc, &sums, &[], (None, 0, 1));
    let letters = ["\"abc\"", "\"a\""];
    finds(&rt, alloc, &letters, &['a', 'b', 'd'], (Some(1), 1, 3));
    let words = ["\"if\"", "[a-z]+"];
    finds(&rt, alloc, &words, &['i', 'f'], (Some(0), 2, 3));
    finds(&rt, alloc, &words, &['i', 'f', 'f'], (Some(1), 3, 4));
}
