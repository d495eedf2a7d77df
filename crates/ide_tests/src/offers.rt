//! What is offered at the cursor.

use crate::languages::NOTES;
use completion::{Offers, RuleText, offers_at, texts};
use docs::{Doc, Language, Unit};
use settings_files::read;
use std::alloc::Global;
use std::process::Abort;
use worked::SUMS;

/// A small part of JSON.
const VALUES: &str = r#"lrgrammar 1
token LB = "["
token RB = "]"
token COMMA = ","
token TRUE = "true"
token FALSE = "false"
token NUM = "-"? [0-9]+ ("." [0-9]+)?
token STR = "\"" [^"\n]* "\""
skip WS = [ \t\r\n]+
start Value
Value = TRUE
Value = FALSE
Value = NUM
Value = STR
Value = LB RB
Value = LB Values RB
Values = Value
Values = Values COMMA Value
"#;

/// Settings that have texts of rules.
const TEXTS: &str = r#"
[texts]
NAME = "name"
NUM = " "
IF = "ifs"
LET = "létter"
BLANK = "blank"
"#;

/// Sums with the cursor at `|`, where the word at it begins, and what is offered.
const OF_SUMS: [(&str, usize, &str); 11] = [
    ("|", 0, "("),
    ("1|", 0, ""),
    ("1 |", 2, "+"),
    ("(1 |", 3, "+ )"),
    ("(1 | ", 3, "+ )"),
    ("(1 |) + 2", 3, "+ )"),
    ("1+|", 2, "("),
    ("(|", 1, "("),
    ("(1)|", 3, "+"),
    ("1 ) |", 4, ""),
    ("1 + |) + (", 4, "("),
];

/// The same of notes.
const OF_NOTES: [(&str, usize, &str); 34] = [
    ("|", 0, "let IF fn"),
    ("l|", 0, "let"),
    ("l|et a = ?", 0, "let"),
    ("x|", 0, ""),
    ("é|", 0, ""),
    ("F|", 0, ""),
    ("I|", 0, "IF"),
    ("i|", 0, "if"),
    ("If|", 0, "if"),
    ("let |", 4, ""),
    ("let a |", 6, "="),
    ("let a = 1|", 8, ""),
    ("let a = 1 |", 10, "+ - ;"),
    ("let a = 1 |+ 2;", 10, "+ - ;"),
    ("let a = 1;|", 10, "let IF fn"),
    ("let a = 1;\nl|et", 11, "let"),
    ("let a = 1; le|", 11, "let"),
    ("let ? = 1; |", 11, ""),
    ("let a 1; |", 9, ""),
    ("// l|", 3, ""),
    ("// |", 3, ""),
    ("//|", 2, ""),
    ("//|\n", 2, ""),
    ("// |l\n", 3, ""),
    ("// l\n|", 5, "let IF fn"),
    ("# l\n\t|", 5, "let IF fn"),
    ("# l\n# |", 6, ""),
    ("\"le|\"", 1, ""),
    ("\"le |\"", 4, ""),
    ("\"le|", 1, ""),
    ("\"le\"|", 4, ":"),
    ("fn a |;", 5, ";"),
    ("a : 1 - |", 8, ""),
    ("/|", 1, ""),
];

/// The same of notes with texts.
const OF_TEXTS: [(&str, usize, &str); 10] = [
    ("|", 0, "létter ifs fn name"),
    ("l|", 0, "létter"),
    ("lé|", 0, "létter"),
    ("le|", 0, ""),
    ("IF|", 0, "ifs"),
    ("iF|", 0, "ifs"),
    ("let |", 4, "name"),
    ("let n|", 4, "name"),
    ("let N|", 4, ""),
    ("let name = |", 11, ""),
];

/// The same of the part of JSON.
const OF_VALUES: [(&str, usize, &str); 12] = [
    ("|", 0, "[ true false"),
    ("[|", 1, "[ ] true false"),
    ("[1|]", 1, ""),
    ("[1 |]", 3, "] ,"),
    ("[1, |]", 4, "[ true false"),
    ("[1, t|]", 4, "true"),
    ("[1.|5]", 3, ""),
    ("[1.5|]", 3, ""),
    ("[-|]", 2, ""),
    ("[ \"t|\" ]", 3, ""),
    ("[ \"t\"|]", 5, "] ,"),
    ("[1] |", 4, ""),
];

/// What is offered, with a space between each two.
fn joined(rt: &impl Abort, alloc: Global, found: &Offers) -> String {
    let mut texts = String::new(alloc);
    for offer in &found.offers {
        if !texts.is_empty() {
            texts.push(' ').expect(rt, "memory");
        }
        texts.push_str(&offer.text).expect(rt, "memory");
    }
    texts
}

/// The rules of what is offered ascend, and have texts.
fn check_rules(rt: &impl Abort, texts: &[Option<RuleText>], found: &Offers) {
    let mut least = 0usize;
    for offer in &found.offers {
        assert!(rt; least <= offer.rule);
        assert!(rt; matches!(texts.get(offer.rule), Some(Some(_))));
        least = offer.rule.saturating_add(1);
    }
}

fn check(
    rt: &impl Abort,
    alloc: Global,
    language: &Language,
    texts: &[Option<RuleText>],
    row: (&str, usize, &str),
) {
    let (marked, start, wanted) = row;
    let (before, behind) = marked.split_once('|').expect(rt, "a cursor");
    let text = format!(in alloc; "{before}{behind}").expect(rt, "memory");
    let doc = Doc::open(alloc, language, Unit::Utf16, 1, &text).expect(rt, "a document");
    let offset = before.chars().count();
    let found = offers_at(alloc, language, texts, &doc, &[], offset).expect(rt, "offers");
    let offered = joined(rt, alloc, &found);
    assert!(rt; offered.as_str() == wanted, "{marked}: {offered}");
    assert!(rt; found.start == start, "{marked}: {}", found.start);
    check_rules(rt, texts, &found);
}

fn check_all(
    rt: &impl Abort,
    alloc: Global,
    file: &str,
    settings: &str,
    rows: &[(&str, usize, &str)],
) {
    let language = Language::load(alloc, file).expect(rt, "a language");
    let settings = read(alloc, language.grammar(), settings).expect(rt, "settings");
    let texts = texts(alloc, language.grammar(), &settings).expect(rt, "texts");
    for row in rows {
        check(rt, alloc, &language, &texts, *row);
    }
}

#[test]
fn sums_are_offered(rt: HostRuntime) {
    check_all(&rt, rt.alloc(), SUMS, "", &OF_SUMS);
}

#[test]
fn notes_are_offered(rt: HostRuntime) {
    check_all(&rt, rt.alloc(), NOTES, "", &OF_NOTES);
    check_all(&rt, rt.alloc(), NOTES, TEXTS, &OF_TEXTS);
}

#[test]
fn values_are_offered(rt: HostRuntime) {
    check_all(&rt, rt.alloc(), VALUES, "", &OF_VALUES);
}

#[test]
fn an_offset_past_the_end_is_the_end(rt: HostRuntime) {
    let alloc = rt.alloc();
    let language = Language::load(alloc, SUMS).expect(&rt, "a language");
    let settings = read(alloc, language.grammar(), "").expect(&rt, "settings");
    let texts = texts(alloc, language.grammar(), &settings).expect(&rt, "texts");
    let doc = Doc::open(alloc, &language, Unit::Utf8, 1, "1 + ").expect(&rt, "a document");
    let found = offers_at(alloc, &language, &texts, &doc, &[], usize::MAX).expect(&rt, "offers");
    assert!(rt; found.start == 4);
    assert!(rt; joined(&rt, alloc, &found).as_str() == "(");
}

/// Long words and long comments are looked at whole.
#[test]
fn long_words_and_comments(rt: HostRuntime) {
    let alloc = rt.alloc();
    let language = Language::load(alloc, NOTES).expect(&rt, "a language");
    let settings = read(alloc, language.grammar(), "").expect(&rt, "settings");
    let texts = texts(alloc, language.grammar(), &settings).expect(&rt, "texts");
    let long = format!(in alloc; "; {:a>300}", "").expect(&rt, "memory");
    let doc = Doc::open(alloc, &language, Unit::Utf8, 1, &long).expect(&rt, "a document");
    let found = offers_at(alloc, &language, &texts, &doc, &[], 302).expect(&rt, "offers");
    assert!(rt; found.start == 2);
    let comment = format!(in alloc; "//{:->300}", "").expect(&rt, "memory");
    let doc = Doc::open(alloc, &language, Unit::Utf8, 1, &comment).expect(&rt, "a document");
    let found = offers_at(alloc, &language, &texts, &doc, &[], 302).expect(&rt, "offers");
    assert!(rt; found.start == 302 && found.offers.is_empty());
}
