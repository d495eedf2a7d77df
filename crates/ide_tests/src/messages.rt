//! Messages of faults.

use crate::languages::notes;
use grammar::Grammar;
use settings_files::{Settings, read};
use std::alloc::Global;
use std::process::Abort;
use wording::{Found, every, message, related};

/// Settings that call some rules otherwise.
const WORDS: &str = r#"
[colours]
EQUAL = "operator"
PLUS = "operator"
MINUS = "operator"
LET = "operator"
[words]
LET = "a new name"
STR = "a text"
NUM = "a text"
[texts]
NAME = "some\nname"
BLANK = "a blank"
NOTE = "// \"x\""
"#;

/// Found texts, of rule `SEMI` (6) where nothing else is said, and their messages.
const FOUND: [(Found<'static>, &str); 15] = [
    (Found::End, "end of the text"),
    (Found::Invalid("?"), "\"?\", which begins no token"),
    (Found::Invalid(""), "\"\", which begins no token"),
    (Found::Invalid("\u{1}a"), "U+0001, which begins no token"),
    (Found::Invalid("\u{FEFF}"), "U+FEFF, which begins no token"),
    (Found::Invalid("\u{A0}"), "U+00A0, which begins no token"),
    (
        Found::Invalid("\u{F0000}"),
        "U+F0000, which begins no token",
    ),
    (
        Found::Token {
            rule: 6,
            text: "é;",
        },
        "\"é;\"",
    ),
    (
        Found::Token {
            rule: 6,
            text: "\n",
        },
        "\";\"",
    ),
    (
        Found::Token {
            rule: 0,
            text: "\t",
        },
        "a new name",
    ),
    (
        Found::Token {
            rule: 6,
            text: "\"a\n b",
        },
        "'\"a..'",
    ),
    (
        Found::Token {
            rule: 6,
            text: "\"a\"",
        },
        "'\"a\"'",
    ),
    (
        Found::Token {
            rule: 6,
            text: "\"it's\"",
        },
        "\"\"it's\"\"",
    ),
    (
        Found::Token {
            rule: 6,
            text: "123456789 123456789 123456789 ",
        },
        "\"123456789 123456789 123456789 \"",
    ),
    (
        Found::Token {
            rule: 6,
            text: "123456789 123456789 123456789 1",
        },
        "\"123456789 123456789 123456789 ..\"",
    ),
];

/// Rules that were expected, whether the end was, what the message says of them, and all with
/// their names; nothing where the message names all.
const EXPECTED: [(&[usize], bool, &str, &str); 12] = [
    (&[6], false, "\";\"", ""),
    (&[], true, "the end of the text", ""),
    (&[6, 7], false, "\";\" or \":\"", ""),
    (&[1, 6], true, "\"IF\", \";\" or the end of the text", ""),
    (&[0, 8], false, "a new name or NAME", ""),
    (&[9, 10], false, "a text", ""),
    (&[12], false, "'// \"x\"'", ""),
    (&[4, 6], false, "\";\" or \"+\"", ""),
    (
        &[4, 5, 6],
        false,
        "\";\" or an operator",
        "expected here: \"+\" (PLUS), \"-\" (MINUS), \";\" (SEMI)",
    ),
    (
        &[0, 4, 5, 8],
        true,
        "a new name, NAME, an operator or the end of the text",
        "expected here: a new name (LET), \"+\" (PLUS), \"-\" (MINUS), NAME, the end of the text",
    ),
    (
        &[1, 2, 6, 7, 8],
        true,
        "\"IF\", \"fn\", \";\", \":\", NAME or the end of the text",
        "",
    ),
    (
        &[1, 2, 6, 7, 8, 11],
        true,
        "\"IF\", \"fn\", \";\", \":\", NAME, \"a blank\", ..",
        "expected here: \"IF\" (IF), \"fn\" (FN), \";\" (SEMI), \":\" (COLON), NAME, \
         \"a blank\" (BLANK), the end of the text",
    ),
];

fn check_found(rt: &impl Abort, alloc: Global, grammar: &Grammar, settings: &Settings) {
    for (found, said) in &FOUND {
        let text = message(alloc, grammar, settings, *found, &[6], false).expect(rt, "memory");
        let wanted = format!(in alloc; "unexpected {said}; expected \";\"").expect(rt, "memory");
        assert!(rt; text == wanted, "{text}");
    }
}

fn check_expected(rt: &impl Abort, alloc: Global, grammar: &Grammar, settings: &Settings) {
    for (rules, at_end, said, all) in &EXPECTED {
        let (rules, at_end) = (*rules, *at_end);
        let text = message(alloc, grammar, settings, Found::End, rules, at_end).expect(
            rt, "memory",
        );
        let wanted = format!(in alloc; "unexpected end of the text; expected {said}");
        assert!(rt; text == wanted.expect(rt, "memory"), "{text}");
        let beside = related(alloc, grammar, settings, rules, at_end).expect(rt, "memory");
        match beside {
            Some(text) => assert!(rt; text.as_str() == *all, "{text}"),
            None => assert!(rt; all.is_empty(), "{all}"),
        }
    }
}

#[test]
fn messages_name_texts(rt: HostRuntime) {
    let alloc = rt.alloc();
    let grammar = notes(&rt, alloc);
    let settings = read(alloc, &grammar, WORDS).expect(&rt, "settings");
    check_found(&rt, alloc, &grammar, &settings);
    check_expected(&rt, alloc, &grammar, &settings);
    let all = every(alloc, &grammar, &settings, &[0, 8], true).expect(&rt, "memory");
    assert!(rt; all.len() == 3);
}
