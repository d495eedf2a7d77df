//! Every edit of every short text, against whole scans and parses of the text before and the text
//! after it.

ghost use Rattle.lexer.specs.Rescans.{significant_kinds};
ghost use Rattle.parser.specs.Parses.{IsParseOf};

use crate::document::{Change, Document, apply, load, open};
use crate::facts::{Branch, Facts, Placed, facts_of, kinds_in};
use docs::Language;
use lexer::Token;
use std::alloc::Global;
use std::process::Abort;
use text::Text;
use worked::{LISTS, SUMS};

/// An edit of a text: how many characters give way to how many, and from which one on.
#[derive(Clone, Copy)]
struct Cut {
    at: usize,
    removed: usize,
    inserted: usize,
}

/// The new tokens that an edit makes, and the first old one kept after them.
#[derive(Clone, Copy)]
struct Made {
    from: usize,
    to: usize,
    old_to: usize,
}

/// The significant tokens `from..to` give way to `inserted` ones.
#[derive(Clone, Copy)]
struct Splice {
    from: usize,
    to: usize,
    inserted: usize,
}

impl Splice {
    /// Whether it changes something within these tokens, of which there is one at least.
    fn touches(&self, from: usize, to: usize) -> bool {
        if self.from < self.to {
            return from < self.to && self.from < to;
        }
        self.inserted > 0 && from < self.from && self.from < to
    }

    /// Where a place after what gives way is after it.
    fn moved(&self, place: usize) -> usize {
        place
            .saturating_add(self.inserted)
            .saturating_sub(self.to.saturating_sub(self.from))
    }

    /// Where the tokens `from..to`, which it doesn't touch, are after it.
    fn moved_range(&self, from: usize, to: usize) -> (usize, usize) {
        if to <= self.from {
            return (from, to);
        }
        (self.moved(from), self.moved(to))
    }
}

/// How many tokens stand before the first one that rests on a character after offset `at`.
fn kept_prefix(tokens: &[Placed], at: usize) -> usize {
    for (k, placed) in tokens.iter().enumerate() {
        if placed.start.saturating_add(placed.token.reach as usize) > at {
            return k;
        }
    }
    tokens.len()
}

fn place_of_start(tokens: &[Placed], start: usize) -> Option<usize> {
    for (k, placed) in tokens.iter().enumerate() {
        if placed.start == start {
            return Some(k);
        }
    }
    None
}

/// What an edit is to make: all from the tokens kept at the start up to the first place after what
/// was inserted where a new token starts, and an old one started before the edit moved it.
fn made_by(old: &[Placed], new: &[Placed], cut: Cut) -> Made {
    let from = kept_prefix(old, cut.at);
    let following = cut.at.saturating_add(cut.inserted);
    for (to, placed) in new.iter().enumerate() {
        let start = placed.start.saturating_add(cut.removed);
        if placed.start >= following {
            let before = place_of_start(old, start.saturating_sub(cut.inserted));
            if let Some(old_to) = before {
                return Made { from, to, old_to };
            }
        }
    }
    Made {
        from,
        to: new.len(),
        old_to: old.len(),
    }
}

/// How the significant tokens change. Where their kinds stay, it's not at all.
fn splice_of(rt: &impl Abort, alloc: Global, old: &[Placed], new: &[Placed], made: Made) -> Splice {
    let from = kinds_in(rt, alloc, old, 0, made.from).len();
    let before = kinds_in(rt, alloc, old, made.from, made.old_to);
    let after = kinds_in(rt, alloc, new, made.from, made.to);
    let (removed, inserted) = if before.as_slice() == after.as_slice() {
        (0, 0)
    } else {
        (before.len(), after.len())
    };
    Splice {
        from,
        to: from.saturating_add(removed),
        inserted,
    }
}

/// Whether the trees of branch `o` and of branch `n` are the same. Productions in preorder
/// determine a tree, as each has its right side.
fn is_same_tree(old: &[Branch], o: usize, new: &[Branch], n: usize, size: usize) -> bool {
    for k in 0..size {
        let before = old.get(o.saturating_add(k));
        let after = new.get(n.saturating_add(k));
        match (before, after) {
            (Some(before), Some(after)) if before.production == after.production => {}
            _ => return false,
        }
    }
    true
}

/// Whether new branch `n` is an old one that the splice leaves as it was.
fn is_kept(old: &[Branch], new: &[Branch], n: usize, branch: Branch, splice: Splice) -> bool {
    for (o, before) in old.iter().enumerate() {
        let (from, to) = (before.from, before.to);
        if from < to
            && before.size == branch.size
            && !splice.touches(from, to)
            && splice.moved_range(from, to) == (branch.from, branch.to)
            && is_same_tree(old, o, new, n, branch.size)
        {
            return true;
        }
    }
    false
}

/// Which new branches lie in no kept one.
fn built_by(
    rt: &impl Abort,
    alloc: Global,
    old: &[Branch],
    new: &[Branch],
    splice: Splice,
) -> Vec<bool> {
    let mut built = Vec::new(alloc);
    let mut kept_to: usize = 0;
    for (n, branch) in new.iter().enumerate() {
        if is_kept(old, new, n, *branch, splice) {
            kept_to = kept_to.max(n.saturating_add(branch.size));
        }
        built.push(kept_to <= n).expect(rt, "memory");
    }
    built
}

/// Whether a token is like another one, and edit 1 has made it or not.
fn is_token(token: &Token, other: &Token, is_made: bool) -> bool {
    token.kind() == other.kind()
        && token.length == other.length
        && token.reach == other.reach
        && token.skipped == other.skipped
        && (token.born == 1) == is_made
}

/// Whether the tokens are these, and edit 1 has made exactly those that it is to make.
fn are_tokens(tokens: &[Placed], awaited: &[Placed], made: Made) -> bool {
    for (k, (placed, other)) in tokens.iter().zip(awaited.iter()).enumerate() {
        let is_made = made.from <= k && k < made.to;
        if !is_token(&placed.token, &other.token, is_made) {
            return false;
        }
    }
    tokens.len() == awaited.len()
}

/// Whether a branch is like another one, and edit 1 has made it or not.
fn is_branch(branch: &Branch, other: &Branch, is_built: bool) -> bool {
    branch.production == other.production
        && branch.from == other.from
        && branch.to == other.to
        && (branch.born == 1) == is_built
}

/// Whether the branches are these, and edit 1 has made exactly those that are built.
fn are_branches(branches: &[Branch], awaited: &[Branch], built: &[bool]) -> bool {
    for ((branch, other), is_built) in branches.iter().zip(awaited.iter()).zip(built.iter()) {
        if !is_branch(branch, other, *is_built) {
            return false;
        }
    }
    branches.len() == awaited.len() && branches.len() == built.len()
}

fn count_of_true(all: &[bool]) -> usize {
    let mut count: usize = 0;
    for is in all {
        if *is {
            count = count.saturating_add(1);
        }
    }
    count
}

/// Whether the counts of a document are those of its lists.
fn are_counts(document: &Document, facts: &Facts, made: Made, built: &[bool]) -> bool {
    document.tokens.count() == facts.tokens.len()
        && document.tokens.scanned() == made.to.saturating_sub(made.from)
        && document.parse.counts() == (facts.branches.len(), count_of_true(built))
}

/// Whether these facts are the awaited ones, and edit 1 has made no more than it had to.
fn are_facts(facts: &Facts, awaited: &Facts, made: Made, built: &[bool]) -> bool {
    are_tokens(&facts.tokens, &awaited.tokens, made)
        && are_branches(&facts.branches, &awaited.branches, built)
        && facts.ending == awaited.ending
        && facts.expected.as_slice() == awaited.expected.as_slice()
}

/// The place of a letter, counted from 1.
fn digit_of(letters: &[char], character: char) -> usize {
    for (k, letter) in letters.iter().enumerate() {
        if *letter == character {
            return k.saturating_add(1);
        }
    }
    0
}

/// The number of a text among all, the shorter ones first.
fn number_of(letters: &[char], text: &[char]) -> usize {
    let mut number: usize = 0;
    for character in text {
        let digit = digit_of(letters, *character);
        number = number.saturating_mul(letters.len()).saturating_add(digit);
    }
    number
}

/// How many texts are shorter than this.
fn count_below(letters: &[char], length: usize) -> usize {
    let mut count: usize = 0;
    for _ in 0..length {
        count = count.saturating_mul(letters.len()).saturating_add(1);
    }
    count
}

fn push_longer(
    rt: &impl Abort,
    alloc: Global,
    texts: &mut Vec<String>,
    text: &str,
    letters: &[char],
) {
    for letter in letters {
        let mut longer = String::from_str(alloc, text).expect(rt, "memory");
        longer.push(*letter).expect(rt, "memory");
        texts.push(longer).expect(rt, "memory");
    }
}

/// All texts up to this length, by their numbers.
fn texts_up_to(rt: &impl Abort, alloc: Global, letters: &[char], longest: usize) -> Vec<String> {
    let mut texts = Vec::new(alloc);
    texts.push(String::new(alloc)).expect(rt, "memory");
    for number in 0..count_below(letters, longest) {
        if let Some(text) = texts.get(number) {
            let text: String = text.clone().expect(rt, "memory");
            push_longer(rt, alloc, &mut texts, text.as_str(), letters);
        }
    }
    texts
}

/// What is so of a text, scanned and parsed whole.
fn facts_of_text(rt: &impl Abort, alloc: Global, language: &Language, text: &str) -> Facts {
    let document = open(rt, alloc, language, text);
    facts_of(rt, alloc, language, &document)
}

/// What is so of each of the texts.
fn facts_of_texts(
    rt: &impl Abort,
    alloc: Global,
    language: &Language,
    texts: &[String],
) -> Vec<Facts> {
    let mut all = Vec::new(alloc);
    for text in texts {
        let facts = facts_of_text(rt, alloc, language, text.as_str());
        all.push(facts).expect(rt, "memory");
    }
    all
}

/// All texts up to a length, and what is so of each. The first of them are the pieces that edits
/// put in.
#[derive(Clone, Copy)]
struct Texts<'a> {
    language: &'a Language,
    letters: &'a [char],
    texts: &'a [String],
    facts: &'a [Facts],
    pieces: usize,
}

/// A text before an edit.
#[derive(Clone, Copy)]
struct Old<'a> {
    text: &'a str,
    length: usize,
    facts: &'a Facts,
}

/// What is so of a text, which is one of all.
fn facts_among<'a>(rt: &impl Abort, alloc: Global, all: &Texts<'a>, text: &Text) -> &'a Facts {
    let characters = text.characters(alloc).expect(rt, "memory");
    let number = number_of(all.letters, &characters);
    all.facts.get(number).expect(rt, "such a text")
}

/// Whether edit 1 of an old text has brought the document to what a whole scan and parse come to,
/// and has made no more than it had to.
fn is_brought(
    rt: &impl Abort,
    alloc: Global,
    all: &Texts<'_>,
    document: &Document,
    old: &Old<'_>,
    change: &Change<'_>,
) -> bool
    requires { IsParseOf all.now.language.now.tables (significant_kinds document.now.tokens.items)
        document.now.store document.now.parse }
{
    let new = facts_among(rt, alloc, all, &document.text);
    let (at, removed) = (change.at, change.removed);
    let length = document.text.len();
    let cut = Cut {
        at,
        removed,
        inserted: length.saturating_add(removed).saturating_sub(old.length),
    };
    let made = made_by(&old.facts.tokens, &new.tokens, cut);
    let splice = splice_of(rt, alloc, &old.facts.tokens, &new.tokens, made);
    let built = built_by(rt, alloc, &old.facts.branches, &new.branches, splice);
    let facts = facts_of(rt, alloc, all.language, document);
    are_facts(&facts, new, made, &built) && are_counts(document, &facts, made, &built)
}

fn expect_brought(rt: &impl Abort, is_brought: bool, text: &str, change: &Change<'_>) {
    let (at, removed, piece) = (change.at, change.removed, change.piece);
    assert!(rt; is_brought, "'{piece}' for {removed} at {at} of '{text}'");
}

/// Makes an edit as edit 1 of a text, and sees what it comes to.
fn check_edit(rt: &impl Abort, alloc: Global, all: &Texts<'_>, old: &Old<'_>, change: &Change<'_>) {
    let mut document = open(rt, alloc, all.language, old.text);
    apply(rt, alloc, all.language, &mut document, change);
    let is_brought = is_brought(rt, alloc, all, &document, old, change);
    expect_brought(rt, is_brought, old.text, change);
}

/// Puts each piece in the place of some characters of a text.
fn check_cut(
    rt: &impl Abort,
    alloc: Global,
    all: &Texts<'_>,
    old: &Old<'_>,
    (at, removed): (usize, usize),
) {
    for piece in all.texts.iter().take(all.pieces) {
        let change = Change {
            at,
            removed,
            piece: piece.as_str(),
            number: 1,
        };
        check_edit(rt, alloc, all, old, &change);
    }
}

/// The edits of a text at one place.
fn check_place(rt: &impl Abort, alloc: Global, all: &Texts<'_>, old: &Old<'_>, at: usize) {
    for removed in 0..3 {
        if removed <= old.length.saturating_sub(at) {
            check_cut(rt, alloc, all, old, (at, removed));
        }
    }
}

/// The edits of a text at all its places.
fn check_text(rt: &impl Abort, alloc: Global, all: &Texts<'_>, number: usize) {
    let text = all.texts.get(number).expect(rt, "a text").as_str();
    let old = Old {
        text,
        length: text.chars().count(),
        facts: all.facts.get(number).expect(rt, "its facts"),
    };
    for at in 0..old.length.saturating_add(1) {
        check_place(rt, alloc, all, &old, at);
    }
}

/// Each text of a length, with each edit that puts a piece in the place of two or fewer
/// characters.
fn check_length(rt: &impl Abort, alloc: Global, all: &Texts<'_>, length: usize) {
    let first = count_below(all.letters, length);
    for number in first..count_below(all.letters, length.saturating_add(1)) {
        check_text(rt, alloc, all, number);
    }
}

/// The edits that put two characters or fewer into the texts of a length.
fn check_texts(rt: &impl Abort, alloc: Global, file: &str, letters: &[char], length: usize) {
    let texts = texts_up_to(rt, alloc, letters, length.saturating_add(2));
    let language = load(rt, alloc, file);
    let facts = facts_of_texts(rt, alloc, &language, &texts);
    let all = Texts {
        language: &language,
        letters,
        texts: &texts,
        facts: &facts,
        pieces: count_below(letters, 3),
    };
    check_length(rt, alloc, &all, length);
}

#[test]
fn sums_of_up_to_three(rt: HostRuntime) {
    let letters = ['1', '+', '(', ')', ' '];
    for length in 0..4 {
        check_texts(&rt, rt.alloc(), SUMS, &letters, length);
    }
}

#[test]
fn sums_of_four(rt: HostRuntime) {
    let letters = ['1', '+', '(', ')', ' '];
    check_texts(&rt, rt.alloc(), SUMS, &letters, 4);
}

#[test]
fn lists_of_up_to_four(rt: HostRuntime) {
    let letters = ['a', '"', ' '];
    for length in 0..5 {
        check_texts(&rt, rt.alloc(), LISTS, &letters, length);
    }
}
