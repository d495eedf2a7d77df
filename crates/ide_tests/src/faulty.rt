//! Faults of texts, those behind the first one too, and what mends them.

ghost use Rattle.docs.specs.Docs.{IsCurrent};

use crate::grammars::{SCRIPT, SCRIPT_SETTINGS, document, language};
use completion::texts;
use definitions::{Position, Range, Unit};
use docs::{Doc, Language};
use faults::{About, Fix, behind, mended};
use mending::Mending;
use outline::{mended_folds, mended_selections};
use settings::{RuleText, Settings};
use std::alloc::Global;
use std::process::Abort;
use text::Text;

/// A fault behind the first one: its line and character, and how the one before it is mended.
type Fault = (u32, u32, &'static str);

/// Texts, and the faults that they have behind the first.
const BEHIND: [(&str, &[Fault]); 7] = [
    ("let x = 1;", &[]),
    ("let x = 1\nlet y = 2;\n", &[]),
    // What follows from a fault is none: the brace belongs to the name that is missing.
    ("fn (a) { return a; }\n", &[]),
    (
        "let = 1;\nlet y = 2;\nlet z = 3;\nlet a = 4;\nlet b = (5;\nlet c = 6;\n",
        &[(4, 10, "if a name is put in at 1:4")],
    ),
    (
        "fn f(a {\n    print(a)\n}\nlet x = 1;\nlet z = 1 2;\n",
        &[
            (2, 0, "if \")\" is put in at 1:7"),
            (4, 10, "if \";\" is put in at 2:13"),
        ],
    ),
    (
        "let x = 1);\nlet y = 2;\nlet z = 3;\nlet a = [1, 2;\n",
        &[(3, 13, "if \")\" is left out at 1:10")],
    ),
    // A line that begins no statement, and a fault behind it.
    (
        "let x = 1;\n? ? ? ? ? ? ?\nlet y = 2;\nlet z = 3;\nlet a = 4;\nlet b = 5;\nlet c = 6;\n\
         let d = 7;\nlet e = 8;\nlet = 9;\n",
        &[(9, 4, "if \"? ? ? ? ? ? ?\" is left out at 2:1")],
    ),
];

/// A fix: what it says, and the text after it.
type Mend = (&'static str, &'static str);

/// Texts, and the preferred fix of each of their faults, by itself.
const FIXES: [(&str, &[Mend]); 9] = [
    (
        "let x = 1\nlet y = 2;\n",
        &[("put in \";\"", "let x = 1;\nlet y = 2;\n")],
    ),
    ("let = 1;", &[("a name is missing here", "let name = 1;")]),
    ("let x=(1;", &[("put in \")\"", "let x=(1);")]),
    ("let x = 1);", &[("leave out \")\"", "let x = 1;")]),
    (
        "for x xs { f(x); }",
        &[("put in \"in\"", "for x in xs { f(x); }")],
    ),
    // Words that would run together are kept apart.
    ("return)x;", &[("leave out \")\"", "return x;")]),
    (
        "let x)y;",
        &[("put \";\" in the place of \")\"", "let x;y;")],
    ),
    ("let x = f(1 2);", &[("put in \",\"", "let x = f(1, 2);")]),
    (
        "let a = (1;\nlet b = 2;\nlet c = 3;\nlet d = 4;\nlet e = [5;\n",
        &[
            (
                "put in \")\"",
                "let a = (1);\nlet b = 2;\nlet c = 3;\nlet d = 4;\nlet e = [5;\n",
            ),
            (
                "put in \"]\"",
                "let a = (1;\nlet b = 2;\nlet c = 3;\nlet d = 4;\nlet e = [5];\n",
            ),
        ],
    ),
];

/// The whole text.
const ALL: Range = Range {
    start: Position {
        line: 0,
        character: 0,
    },
    end: Position {
        line: u32::MAX,
        character: 0,
    },
};

/// What an editor shows of a language.
#[derive(Drop)]
struct Shown {
    language: Language,
    settings: Settings,
    texts: Vec<Option<RuleText>>,
}

fn script(rt: &impl Abort, alloc: Global) -> Shown {
    let (language, settings) = language(rt, alloc, SCRIPT, SCRIPT_SETTINGS);
    let texts = texts(alloc, language.grammar(), &settings).expect(rt, "texts");
    Shown {
        language,
        settings,
        texts,
    }
}

/// The mended copy of a document, if it has a fault.
fn copy_of(rt: &impl Abort, alloc: Global, shown: &Shown, doc: &Doc) -> Option<Mending>
    requires { IsCurrent shown.now.language doc.now }
{
    mended(alloc, &shown.language, &shown.texts, doc).expect(rt, "memory")
}

fn check_behind(rt: &impl Abort, alloc: Global, shown: &Shown, text: &str, rows: &[Fault]) {
    let doc = document(rt, alloc, &shown.language, text);
    let Some(mending) = copy_of(rt, alloc, shown, &doc) else {
        assert!(rt; rows.is_empty());
        return;
    };
    let (language, settings) = (&shown.language, &shown.settings);
    let faults = behind(alloc, language, settings, &doc, &mending).expect(rt, "memory");
    assert!(rt;
        faults.len() == rows.len(),
        "{} faults of {text:?}",
        faults.len()
    );
    for (fault, (line, character, condition)) in faults.iter().zip(rows) {
        let start = fault.range.start;
        assert!(rt;
            (start.line, start.character) == (*line, *character),
            "{start:?} in {text:?}"
        );
        assert!(rt;
            fault.condition.text.as_str() == *condition,
            "{}",
            fault.condition.text
        );
    }
}

#[test]
fn faults_behind_the_first(rt: HostRuntime) {
    let shown = script(&rt, rt.alloc());
    for (text, rows) in &BEHIND {
        check_behind(&rt, rt.alloc(), &shown, text, rows);
    }
}

/// The text after a fix, whose edits are made from the last to the first.
fn fixed(rt: &impl Abort, alloc: Global, text: &str, fix: &Fix) -> String {
    let mut changed = Text::open(alloc, text).expect(rt, "a text");
    for edit in fix.edits.iter().rev() {
        let (start, end) = changed.span(Unit::Utf16, Some(edit.range));
        let made = changed.replace(alloc, start, end, &edit.text);
        assert!(rt; made.is_ok());
    }
    changed.to_string(alloc).expect(rt, "memory")
}

fn check_fixes(rt: &impl Abort, alloc: Global, shown: &Shown, text: &str, rows: &[Mend]) {
    let doc = document(rt, alloc, &shown.language, text);
    let mending = copy_of(rt, alloc, shown, &doc).expect(rt, "a fault");
    let about = About {
        alloc,
        language: &shown.language,
        settings: &shown.settings,
        texts: &shown.texts,
        doc: &doc,
        mending: &mending,
    };
    let fixes = about.fixes(ALL).expect(rt, "memory");
    let mut left = rows.iter();
    for fix in fixes.iter().filter(|fix| fix.is_preferred) {
        let (title, after) = left.next().expect(rt, "a row");
        assert!(rt; fix.title.as_str() == *title, "{} for {title}", fix.title);
        let now = fixed(rt, alloc, text, fix);
        assert!(rt; now.as_str() == *after, "{now}");
    }
    assert!(rt; left.next().is_none(), "too few fixes of {text:?}");
}

#[test]
fn fixes_mend_faults(rt: HostRuntime) {
    let shown = script(&rt, rt.alloc());
    for (text, rows) in &FIXES {
        check_fixes(&rt, rt.alloc(), &shown, text, rows);
    }
}

/// Three functions, of which the second lacks a parenthesis.
const FUNCTIONS: &str =
    "fn one() {\n    f();\n}\nfn two(a {\n    f(a);\n}\nfn three() {\n    f();\n}\n";

#[test]
fn what_stands_behind_a_fault_folds(rt: HostRuntime) {
    let alloc = rt.alloc();
    let shown = script(&rt, alloc);
    let doc = document(&rt, alloc, &shown.language, FUNCTIONS);
    let mending = copy_of(&rt, alloc, &shown, &doc).expect(&rt, "a fault");
    let folds = mended_folds(alloc, &shown.language, &doc, &mending).expect(&rt, "memory");
    assert!(rt; folds.as_slice() == [(0, 2), (3, 5), (6, 8)].as_slice());
}

#[test]
fn what_stands_behind_a_fault_is_selected(rt: HostRuntime) {
    let alloc = rt.alloc();
    let shown = script(&rt, alloc);
    let doc = document(&rt, alloc, &shown.language, FUNCTIONS);
    let mending = copy_of(&rt, alloc, &shown, &doc).expect(&rt, "a fault");
    let positions = [Position {
        line: 7,
        character: 4,
    }];
    let found = mended_selections(alloc, &shown.language, &doc, &mending, &positions).expect(
        &rt, "memory",
    );
    let lines = [7, 7, 7, 6, 6, 6, 0, 0];
    let ranges = found.first().expect(&rt, "a selection");
    for (range, line) in ranges.iter().zip(&lines) {
        assert!(rt; range.start.line == *line, "{range:?}");
    }
}
