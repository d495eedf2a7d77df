//! Why a line of a grammar file is at fault, in words.

use grammar::GrammarCause;
use patterns::PatternCause;

/// Why a pattern is none.
pub fn pattern_words(cause: &PatternCause) -> &'static str {
    match cause {
        PatternCause::Syntax => {
            "the pattern can't go on like this: it has literals \"if\", classes [a-z], groups (..), and |, *, + and ?"
        }
        PatternCause::EmptyClass => "the class has no characters",
        PatternCause::ReversedRange => "the range is the wrong way round",
        PatternCause::EmptyLiteral => "the literal has no characters",
        PatternCause::MatchesEmpty => {
            "the pattern matches the empty text, which can't be a token"
        }
        PatternCause::Memory => "memory was refused",
    }
}

/// Why a line is at fault, and what has to stand there.
pub fn cause_words(cause: &GrammarCause) -> &'static str {
    match cause {
        GrammarCause::FirstLine => "the first line has to be `lrgrammar 1` or `lrgrammar 2`",
        GrammarCause::BadLine => "this is no line of a grammar file",
        GrammarCause::DefinedTwice(_) => "the name, or the production, is there already",
        GrammarCause::Undefined(_) => "no line defines this name",
        GrammarCause::Reserved(_) => "`end` and `invalid` are reserved: messages use them",
        GrammarCause::BadPattern(fault) => pattern_words(&fault.cause),
        GrammarCause::NoStart | GrammarCause::SecondStart => "there has to be one `start` line",
        GrammarCause::NotANonterminal(_) => {
            "`start` and `fold` take the left side of a production"
        }
        GrammarCause::Unproductive(_) => {
            "no text can be derived: each production of the name comes back to it"
        }
        GrammarCause::SkipInProduction(_) => "a skipped token can't stand in a production",
        GrammarCause::Limit(_) => "the grammar is over a limit",
        GrammarCause::Memory => "memory was refused",
    }
}
