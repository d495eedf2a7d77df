//! What the lines of a grammar file say.

ghost use Rattle.std.specs.Prelude.{◌≡◌, IfOk};
ghost use Rattle.std.specs.List.{list_all};
ghost use Rattle.grammar_line.specs.Statements.{line_of, is_comment, is_right_word, longer_line, production, rule, keyword_line, statement};
ghost use Rattle.grammar_line.specs.Kept.{line_view, texts};
ghost use Rattle.grammar_line.specs.Words.{after_equals};

use crate::right_word::plain;
use crate::words::{after_equals, is_name, words};
use std::alloc::{AllocError, Global};

/// The version of a grammar file, which its first line gives.
#[derive(Clone, Copy)]
pub enum Version {
    /// `lrgrammar 1`
    One,
    /// `lrgrammar 2`: names on right sides may have marks.
    Two,
}

/// What a line says.
#[derive(Drop)]
pub enum Line<'a> {
    /// It is blank, or a comment.
    Nothing,
    /// `LEFT = RIGHT ..`
    Production {
        /// The nonterminal.
        left: &'a str,
        /// The words that may stand for it, as they are written.
        right: Vec<&'a str>,
    },
    /// `token NAME = PATTERN` or `skip NAME = PATTERN`
    Rule {
        /// Whether it is a `skip` rule.
        skip: bool,
        /// The rule's name.
        name: &'a str,
        /// What stands after the first `=`, without blanks at the ends.
        pattern: &'a str,
    },
    /// `start NAME`
    Start(&'a str),
    /// `fold NAME`
    Fold(&'a str),
    /// None of these.
    Bad,
}

/// What the line says.
pub fn read_line(alloc: Global, version: Version, line: &str) -> Result<Line<'_>, AllocError>
    ensures { IfOk result (λ l. line_view l ≡ line_of version line.now) }
{
    let words = words(alloc, line)?;
    match words.as_slice() {
        [] => Ok(Line::Nothing),
        [first, ..] if is_comment(first) => Ok(Line::Nothing),
        [_] => Ok(Line::Bad),
        [first, second, rest @ ..] => longer_line(alloc, version, first, second, rest, line),
    }
}

fn is_comment(word: &str) -> bool
    ensures { result ≡ is_comment word.now }
{
    match word.as_bytes() {
        [] => false,
        [first, ..] => *first == b'#',
    }
}

/// A line of two words or more that is no comment.
fn longer_line<'a>(
    alloc: Global,
    version: Version,
    first: &'a str,
    second: &'a str,
    rest: &[&'a str],
    line: &'a str,
) -> Result<Line<'a>, AllocError>
    ensures { IfOk result (λ l.
        line_view l
        ≡ longer_line version first.now second.now (texts rest.now) (after_equals line.now)) }
{
    if second == "=" {
        production(alloc, version, first, rest)
    } else {
        Ok(statement(first, second, rest, line))
    }
}

/// A line of two words or more that is neither a comment nor a production.
fn statement<'a>(keyword: &str, name: &'a str, rest: &[&str], line: &'a str) -> Line<'a>
    ensures { line_view result
        ≡ statement keyword.now name.now (texts rest.now) (after_equals line.now) }
{
    match rest {
        [] => keyword_line(keyword, name),
        [equals, ..] if *equals == "=" => rule(keyword, name, after_equals(line)),
        _ => Line::Bad,
    }
}

/// A line with a left side and a right side.
fn production<'a>(
    alloc: Global,
    version: Version,
    left: &'a str,
    right: &[&'a str],
) -> Result<Line<'a>, AllocError>
    ensures { IfOk result (λ l. line_view l ≡ production version left.now (texts right.now)) }
{
    if is_name(left) && are_right_words(version, right) {
        Ok(Line::Production {
            left,
            right: right.to_vec(alloc)?,
        })
    } else {
        Ok(Line::Bad)
    }
}

/// Whether all of the words may stand on a right side.
fn are_right_words(version: Version, words: &[&str]) -> bool
    ensures { result ≡ list_all (is_right_word version) (texts words.now) }
{
    words.iter().all(|word| is_right_word(version, word))
}

/// Whether the word is a name, in version 2 one that may have a mark.
fn is_right_word(version: Version, word: &str) -> bool
    ensures { result ≡ is_right_word version word.now }
{
    match version {
        Version::One => is_name(word),
        Version::Two => is_name(plain(word)),
    }
}

/// A line of a keyword, a name and a pattern.
fn rule<'a>(keyword: &str, name: &'a str, pattern: &'a str) -> Line<'a>
    ensures { line_view result ≡ rule keyword.now name.now pattern.now }
{
    match keyword {
        "token" if is_name(name) => Line::Rule {
            skip: false,
            name,
            pattern,
        },
        "skip" if is_name(name) => Line::Rule {
            skip: true,
            name,
            pattern,
        },
        _ => Line::Bad,
    }
}

/// A line of a keyword and a name.
fn keyword_line<'a>(keyword: &str, name: &'a str) -> Line<'a>
    ensures { line_view result ≡ keyword_line keyword.now name.now }
{
    match keyword {
        "start" if is_name(name) => Line::Start(name),
        "fold" if is_name(name) => Line::Fold(name),
        _ => Line::Bad,
    }
}
