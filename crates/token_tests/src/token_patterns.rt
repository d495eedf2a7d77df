//! What token patterns mean. `tests/program` has those that are refused.

use patterns::{Expression, Interval, Pattern};

#[test]
fn reads_patterns(rt: HostRuntime) {
    for text in [
        "\"\\\"\" [^\"]* \"\\\"\"",
        "[a-z]+",
        "[0-9]+",
        "[ \\t\\r\\n]+",
        "[^]",
        "\"(\"",
        "\"+\"",
        "\"if\"",
        "\"\\u{1F600}\"",
        "(\"a\"|\"b\")* \"c\"?[x]",
        " \t\"a\" ",
    ] {
        assert!(rt; Pattern::read(rt.alloc(), text).is_ok());
    }
}

#[test]
fn reads_a_class(rt: HostRuntime) {
    let pattern = Pattern::read(rt.alloc(), "[^a-c\\n]").expect(&rt, "a pattern");
    let Expression::Class { negated, intervals } = pattern.expression() else {
        panic!(rt; "no class");
    };
    let letters = Interval {
        first: 'a',
        last: 'c',
    };
    let line_feed = Interval {
        first: '\n',
        last: '\n',
    };
    assert!(rt; *negated);
    assert!(rt; intervals.as_slice() == [letters, line_feed].as_slice());
}

#[test]
fn reads_a_literal(rt: HostRuntime) {
    let pattern = Pattern::read(rt.alloc(), "\"\\u{1F600}\\t\\\\\"").expect(&rt, "a pattern");
    let Expression::Literal(characters) = pattern.expression() else {
        panic!(rt; "no literal");
    };
    assert!(rt; characters.as_slice() == ['\u{1F600}', '\t', '\\'].as_slice());
}
