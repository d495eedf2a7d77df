//! The words of right sides.

ghost use Rattle.std.specs.Prelude.{◌≡◌};
ghost use Rattle.grammar_line.specs.Words.{is_mark, is_marked, mark_of, plain};

/// How often what a word names may stand at its place.
#[derive(Clone, Copy)]
pub enum Mark {
    /// Once: the word has no mark.
    Once,
    /// `*`: any number of times.
    Any,
    /// `+`: once or more.
    AtLeastOnce,
    /// `?`: once, or not at all.
    AtMostOnce,
}

impl Mark {
    fn is_mark(self) -> bool
        ensures { result ≡ is_mark self }
    {
        match self {
            Mark::Once => false,
            Mark::Any | Mark::AtLeastOnce | Mark::AtMostOnce => true,
        }
    }
}

/// A word of a right side.
#[derive(Clone, Copy)]
pub struct RightWord<'a> {
    /// The word without its mark.
    pub name: &'a str,
    /// The mark after the name.
    pub mark: Mark,
}

impl<'a> RightWord<'a> {
    /// What a word says: the byte after the name is its mark.
    pub fn read(word: &'a str) -> RightWord<'a>
        ensures name { result.name.now ≡ plain word.now }
        ensures mark { result.mark ≡ mark_of word.now }
    {
        if let Some(name) = word.strip_suffix('*') {
            return RightWord {
                name,
                mark: Mark::Any,
            };
        }
        if let Some(name) = word.strip_suffix('+') {
            return RightWord {
                name,
                mark: Mark::AtLeastOnce,
            };
        }
        if let Some(name) = word.strip_suffix('?') {
            return RightWord {
                name,
                mark: Mark::AtMostOnce,
            };
        }
        RightWord {
            name: word,
            mark: Mark::Once,
        }
    }
}

/// Whether a word of a right side has a mark.
pub fn is_marked(word: &str) -> bool
    ensures { result ≡ is_marked word.now }
{
    RightWord::read(word).mark.is_mark()
}

/// A word of a right side without its mark.
pub fn plain(word: &str) -> &str
    ensures { result.now ≡ plain word.now }
{
    RightWord::read(word).name
}
