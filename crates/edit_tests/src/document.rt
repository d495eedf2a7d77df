//! A document that keeps its tokens and its parse through edits.

ghost use Rattle.std.specs.Prelude.{◌≡◌, length};
ghost use Rattle.std.specs.Str.{chars};
ghost use Rattle.definitions.specs.TokenEdits.{IsSpliced, plain_splice};
ghost use Rattle.grammar.specs.Grammars.{lexicon_of};
ghost use Rattle.lexer.specs.Tokens.{AreTokensOf};
ghost use Rattle.lexer.specs.Rescans.{significant_kinds};
ghost use Rattle.parser.specs.Parses.{IsParseOf};

use definitions::{Edit, KindSplice};
use docs::{Language, Significant};
use lexer::Tokens;
use parser::{Parse, Verdict};
use std::alloc::Global;
use std::process::Abort;
use text::Text;
use trees::Store;

/// The language of a grammar file.
pub fn load(rt: &impl Abort, alloc: Global, file: &str) -> Language {
    Language::load(alloc, file).expect(rt, "a language")
}

/// A text with its tokens and its parse.
#[derive(Drop)]
pub struct Document {
    pub text: Text,
    pub tokens: Tokens,
    pub store: Store,
    pub parse: Parse,
}

/// Scans and parses a whole text.
pub fn open(rt: &impl Abort, alloc: Global, language: &Language, text: &str) -> Document
    ensures tokens { AreTokensOf (lexicon_of language.now.file) result.text result.tokens.items }
    ensures parse { IsParseOf language.now.tables (significant_kinds result.tokens.items)
        result.store result.parse }
{
    let opened = Text::open(alloc, text).expect(rt, "a text");
    let tokens = language.scan(alloc, &opened, text).expect(rt, "tokens");
    let mut store = Store::new(alloc);
    let kinds = Significant(&tokens);
    let parse = Parse::whole(alloc, language.tables(), &mut store, &kinds).expect(rt, "a parse");
    Document {
        text: opened,
        tokens,
        store,
        parse,
    }
}

/// What is reported of a parse.
#[derive(Clone, Copy, PartialEq, Eq)]
pub enum Ending {
    Tree,
    FaultAt(usize),
    FaultAtEnd,
}

pub fn ending_of(parse: &Parse) -> Ending {
    match parse.verdict() {
        Verdict::Tree(_) => Ending::Tree,
        Verdict::FaultAt(k) => Ending::FaultAt(k),
        Verdict::FaultAtEnd => Ending::FaultAtEnd,
    }
}

/// The edit of a number: a piece in the place of some characters.
#[derive(Clone, Copy)]
pub struct Change<'a> {
    pub at: usize,
    pub removed: usize,
    pub piece: &'a str,
    pub number: u64,
}

/// How many characters a piece has.
fn count(rt: &impl Abort, alloc: Global, piece: &str) -> usize
    ensures { result ≡ length (chars piece.now) }
{
    Text::open(alloc, piece).expect(rt, "a piece").len()
}

/// Puts the piece of a change into a text, brings the tokens to it, and returns how the kinds
/// change.
pub fn rescan(
    rt: &impl Abort,
    alloc: Global,
    language: &Language,
    text: &mut Text,
    tokens: &mut Tokens,
    change: &Change<'_>,
) -> KindSplice
    requires tokens { AreTokensOf (lexicon_of language.now.file) text.old tokens.old.items }
    ensures tokens { AreTokensOf (lexicon_of language.now.file) text.new tokens.new.items }
    ensures kinds { IsSpliced (plain_splice result) (significant_kinds tokens.old.items)
        (significant_kinds tokens.new.items) }
{
    let length = text.len();
    assert!(rt; change.at <= length && change.removed <= length - change.at);
    let edit = Edit {
        at: change.at,
        removed: change.removed,
        inserted: count(rt, alloc, change.piece),
        number: change.number,
    };
    text.replace(alloc, change.at, change.at + change.removed, change.piece)
        .expect(rt, "an edit");
    language
        .rescan(alloc, tokens, text, edit)
        .expect(rt, "a rescan")
}

/// Makes an edit, and brings tokens and parse to the text.
pub fn apply(
    rt: &impl Abort,
    alloc: Global,
    language: &Language,
    document: &mut Document,
    change: &Change<'_>,
)
    requires tokens { let d = document.old in
        AreTokensOf (lexicon_of language.now.file) d.text d.tokens.items }
    requires parse { IsParseOf language.now.tables (significant_kinds document.old.tokens.items)
        document.old.store document.old.parse }
    ensures tokens { let d = document.new in
        AreTokensOf (lexicon_of language.now.file) d.text d.tokens.items }
    ensures parse { IsParseOf language.now.tables (significant_kinds document.new.tokens.items)
        document.new.store document.new.parse }
{
    let (text, tokens) = (&mut document.text, &mut document.tokens);
    let splice = rescan(rt, alloc, language, text, tokens, change);
    let (tables, store) = (language.tables(), &mut document.store);
    let kinds = Significant(&document.tokens);
    document
        .parse
        .change(alloc, tables, store, &kinds, splice, change.number)
        .expect(rt, "a change");
}
