//! Outlines.

ghost use Rattle.docs.specs.Docs.{IsCurrent};

use crate::grammars::{
    JSON, JSON_SAMPLE, JSON_SETTINGS, SCRIPT, SCRIPT_SAMPLE, SCRIPT_SETTINGS, TOML, TOML_SAMPLE,
    TOML_SETTINGS, document, language,
};
use definitions::Range;
use docs::{Doc, Language};
use faults::mended;
use outline::{OutlineSymbol, outline};
use parser::Verdict;
use settings::Settings;
use std::alloc::Global;
use std::process::Abort;

/// A symbol: its depth, kind and name, its range, and that of its name.
type Row = (usize, u32, &'static str, [u32; 4], [u32; 4]);

/// The protocol's numbers of kinds of symbols.
const NAMESPACE: u32 = 3;

const PROPERTY: u32 = 7;

const FUNCTION: u32 = 12;

const VARIABLE: u32 = 13;

/// The outline of `SCRIPT_SAMPLE`.
const SCRIPT_ROWS: [Row; 6] = [
    (0, FUNCTION, "count", [1, 0, 18, 1], [1, 3, 1, 8]),
    (1, VARIABLE, "words", [2, 4, 2, 19], [2, 8, 2, 13]),
    (1, VARIABLE, "word", [3, 4, 3, 18], [3, 8, 3, 12]),
    (0, VARIABLE, "limits", [20, 0, 20, 43], [20, 4, 20, 10]),
    (0, VARIABLE, "none", [22, 0, 22, 9], [22, 4, 22, 8]),
    (0, VARIABLE, "narrow", [28, 0, 28, 58], [28, 4, 28, 10]),
];

/// The outline of `JSON_SAMPLE`.
const JSON_ROWS: [Row; 6] = [
    (0, PROPERTY, "name", [1, 4, 1, 18], [1, 4, 1, 10]),
    (0, PROPERTY, "versions", [2, 4, 2, 38], [2, 4, 2, 14]),
    (0, PROPERTY, "nothing", [3, 4, 3, 17], [3, 4, 3, 13]),
    (0, PROPERTY, "empty", [4, 4, 4, 15], [4, 4, 4, 11]),
    (0, PROPERTY, "quote", [5, 4, 5, 42], [5, 4, 5, 11]),
    (0, PROPERTY, "flags", [6, 4, 6, 38], [6, 4, 6, 11]),
];

/// The outline of `TOML_SAMPLE`.
const TOML_ROWS: [Row; 23] = [
    (0, PROPERTY, "title", [1, 0, 1, 64], [1, 0, 1, 5]),
    (0, PROPERTY, "debug", [2, 0, 2, 13], [2, 0, 2, 5]),
    (0, NAMESPACE, "owner", [4, 0, 10, 0], [4, 1, 4, 6]),
    (1, PROPERTY, "name", [5, 0, 5, 22], [5, 0, 5, 4]),
    (1, PROPERTY, "born", [6, 0, 6, 32], [6, 0, 6, 4]),
    (1, PROPERTY, "day", [7, 0, 7, 16], [7, 0, 7, 3]),
    (
        1,
        PROPERTY,
        "\"full name\".short",
        [8, 0, 8, 24],
        [8, 0, 8, 17],
    ),
    (0, NAMESPACE, "database", [10, 0, 22, 0], [10, 1, 10, 9]),
    (1, PROPERTY, "ports", [11, 0, 13, 1], [11, 0, 11, 5]),
    (1, PROPERTY, "limits", [14, 0, 14, 67], [14, 0, 14, 6]),
    (2, PROPERTY, "low", [14, 11, 14, 23], [14, 11, 14, 14]),
    (2, PROPERTY, "high", [14, 25, 14, 36], [14, 25, 14, 29]),
    (
        2,
        PROPERTY,
        "in between",
        [14, 38, 14, 65],
        [14, 38, 14, 50],
    ),
    (1, PROPERTY, "start", [15, 0, 15, 20], [15, 0, 15, 5]),
    (1, PROPERTY, "about", [16, 0, 18, 33], [16, 0, 16, 5]),
    (1, PROPERTY, "path", [19, 0, 20, 18], [19, 0, 19, 4]),
    (0, NAMESPACE, "server", [22, 0, 25, 0], [22, 2, 22, 8]),
    (1, PROPERTY, "name", [23, 0, 23, 14], [23, 0, 23, 4]),
    (0, NAMESPACE, "server", [25, 0, 29, 16], [25, 2, 25, 8]),
    (1, PROPERTY, "name", [26, 0, 26, 13], [26, 0, 26, 4]),
    (1, PROPERTY, "tags.first", [27, 0, 27, 17], [27, 0, 27, 10]),
    (1, PROPERTY, "a key", [28, 0, 28, 12], [28, 0, 28, 7]),
    (1, PROPERTY, "role", [29, 0, 29, 16], [29, 0, 29, 4]),
];

/// Texts of `JSON` and `SCRIPT` with a fault, and their outlines.
const JSON_FAULTS: [(&str, &[Row]); 7] = [
    ("", &[]),
    (
        "{\"a\": {\"b\": 1, ?",
        &[
            (0, PROPERTY, "a", [0, 1, 0, 15], [0, 1, 0, 4]),
            (1, PROPERTY, "b", [0, 7, 0, 13], [0, 7, 0, 10]),
        ],
    ),
    (
        "{\"a\": 1",
        &[(0, PROPERTY, "a", [0, 1, 0, 7], [0, 1, 0, 4])],
    ),
    (
        "{\"a\" ?",
        &[(0, PROPERTY, "a", [0, 1, 0, 5], [0, 1, 0, 4])],
    ),
    (
        "{\"a\": 1 \"b\"",
        &[(0, PROPERTY, "a", [0, 1, 0, 8], [0, 1, 0, 4])],
    ),
    (
        "{\"é😀\": 1}",
        &[(0, PROPERTY, "é😀", [0, 1, 0, 9], [0, 1, 0, 6])],
    ),
    (
        "{\"\": 1}",
        &[(0, PROPERTY, "\"\"", [0, 1, 0, 6], [0, 1, 0, 3])],
    ),
];

const SCRIPT_FAULTS: [(&str, &[Row]); 3] = [
    (
        "let x = 1; ?",
        &[(0, VARIABLE, "x", [0, 0, 0, 10], [0, 4, 0, 5])],
    ),
    (
        "fn f(a) { let x = 2; while a { let",
        &[
            (0, FUNCTION, "f", [0, 0, 0, 34], [0, 3, 0, 4]),
            (1, VARIABLE, "x", [0, 10, 0, 20], [0, 14, 0, 15]),
        ],
    ),
    (
        "fn f(a) {} let",
        &[(0, FUNCTION, "f", [0, 0, 0, 10], [0, 3, 0, 4])],
    ),
];

fn numbers(range: Range) -> [u32; 4] {
    let (start, end) = (range.start, range.end);
    [start.line, start.character, end.line, end.character]
}

fn check_row(rt: &impl Abort, symbol: &OutlineSymbol, row: &Row) {
    let (depth, kind, name, range, selection) = row;
    assert!(rt; symbol.name.as_str() == *name, "{} for {name}", symbol.name);
    assert!(rt;
        symbol.depth == *depth,
        "the depth of {name}: {}",
        symbol.depth
    );
    assert!(rt; symbol.kind == *kind, "the kind of {name}: {}", symbol.kind);
    assert!(rt;
        numbers(symbol.range) == *range,
        "{name}: {:?}",
        symbol.range
    );
    assert!(rt;
        numbers(symbol.selection) == *selection,
        "{name}: {:?}",
        symbol.selection
    );
}

fn check(
    rt: &impl Abort,
    alloc: Global,
    language: &Language,
    settings: &Settings,
    text: &str,
    rows: &[Row],
) {
    let doc = document(rt, alloc, language, text);
    let found = outline(alloc, language, settings, &doc, None).expect(rt, "memory");
    assert!(rt;
        found.len() == rows.len(),
        "{} symbols of {text:?}",
        found.len()
    );
    for (symbol, row) in found.iter().zip(rows) {
        check_row(rt, symbol, row);
    }
}

#[test]
fn samples_have_outlines(rt: HostRuntime) {
    let alloc = rt.alloc();
    let (script, settings) = language(&rt, alloc, SCRIPT, SCRIPT_SETTINGS);
    check(&rt, alloc, &script, &settings, SCRIPT_SAMPLE, &SCRIPT_ROWS);
    for (text, rows) in &SCRIPT_FAULTS {
        check(&rt, alloc, &script, &settings, text, rows);
    }
    let (json, settings) = language(&rt, alloc, JSON, JSON_SETTINGS);
    check(&rt, alloc, &json, &settings, JSON_SAMPLE, &JSON_ROWS);
    for (text, rows) in &JSON_FAULTS {
        check(&rt, alloc, &json, &settings, text, rows);
    }
    let (toml, settings) = language(&rt, alloc, TOML, TOML_SETTINGS);
    check(&rt, alloc, &toml, &settings, TOML_SAMPLE, &TOML_ROWS);
}

/// Whether a row is in the outline of a document with a character put in at the start of a line,
/// which begins no token: where that is a fault, the name has to stand before it.
fn is_left(doc: &Doc, row: &Row, line: u32) -> bool {
    let [name_line, ..] = row.4;
    name_line < line || matches!(doc.parse().verdict(), Verdict::Tree(_))
}

/// The outline of a text with a fault has the rows of the whole text whose names stand before it.
fn check_before(rt: &impl Abort, doc: &Doc, found: &[OutlineSymbol], rows: &[Row], line: u32) {
    let mut left = 0usize;
    for row in rows {
        if is_left(doc, row, line) {
            let symbol = found.get(left).expect(rt, row.2);
            assert!(rt;
                symbol.name.as_str() == row.2,
                "{} in line {line}",
                symbol.name
            );
            assert!(rt; symbol.depth == row.0 && symbol.kind == row.1, "{}", row.2);
            left = left.saturating_add(1);
        }
    }
    assert!(rt; left == found.len(), "too many with a fault in line {line}");
}

/// The outline of a mended text has the rows of the whole text.
fn check_mended(
    rt: &impl Abort,
    alloc: Global,
    language: &Language,
    settings: &Settings,
    doc: &Doc,
    rows: &[Row],
)
    requires { IsCurrent language.now doc.now }
{
    let Some(mending) = mended(alloc, language, &[], doc).expect(rt, "memory") else {
        return;
    };
    let found = outline(alloc, language, settings, doc, Some(&mending)).expect(rt, "memory");
    for (symbol, row) in found.iter().zip(rows) {
        assert!(rt;
            symbol.name.as_str() == row.2,
            "{} for {}",
            symbol.name,
            row.2
        );
        assert!(rt; symbol.depth == row.0 && symbol.kind == row.1, "{}", row.2);
    }
    assert!(rt; found.len() == rows.len(), "{} symbols", found.len());
}

/// Puts a character that begins no token at the start of each line.
fn check_lines(
    rt: &impl Abort,
    alloc: Global,
    language: &Language,
    settings: &Settings,
    sample: &str,
    rows: &[Row],
) {
    let mut before = String::new(alloc);
    let mut number = 0u32;
    for line in sample.split('\n') {
        let rest = sample.strip_prefix(before.as_str()).unwrap_or("");
        let text = format!(in alloc; "{before}\u{0}{rest}").expect(rt, "memory");
        let doc = document(rt, alloc, language, &text);
        let found = outline(alloc, language, settings, &doc, None).expect(rt, "memory");
        check_before(rt, &doc, &found, rows, number);
        check_mended(rt, alloc, language, settings, &doc, rows);
        before.push_str(line).expect(rt, "memory");
        before.push('\n').expect(rt, "memory");
        number = number.saturating_add(1);
    }
}

#[test]
fn outlines_before_faults(rt: HostRuntime) {
    let alloc = rt.alloc();
    let (script, settings) = language(&rt, alloc, SCRIPT, SCRIPT_SETTINGS);
    check_lines(&rt, alloc, &script, &settings, SCRIPT_SAMPLE, &SCRIPT_ROWS);
    let (json, settings) = language(&rt, alloc, JSON, JSON_SETTINGS);
    check_lines(&rt, alloc, &json, &settings, JSON_SAMPLE, &JSON_ROWS);
    let (toml, settings) = language(&rt, alloc, TOML, TOML_SETTINGS);
    check_lines(&rt, alloc, &toml, &settings, TOML_SAMPLE, &TOML_ROWS);
}
