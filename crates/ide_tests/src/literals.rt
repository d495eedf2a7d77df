//! The texts of patterns.

use patterns::Pattern;
use settings::literal;
use std::alloc::Global;
use std::process::Abort;

/// Patterns, the text that their tokens have, and whether its case doesn't matter. The text is
/// empty where there is none.
const PATTERNS: [(&str, &str, bool); 16] = [
    (r#""let""#, "let", false),
    (r#""<" "=""#, "<=", false),
    (r#""!=" | "<>""#, "!=", false),
    (r#"[+]"#, "+", false),
    (r#""a" [b] ("c" | "d")"#, "abc", false),
    (r#"[iI] [fF]"#, "IF", true),
    (r#"[Ii] "_" [Nn]"#, "I_N", true),
    (r#"[éÉ] [tT]"#, "ÉT", true),
    (r#"[iI] "f""#, "", false),
    (r#"[iI] [fg]"#, "", false),
    (r#"[a-b]"#, "", false),
    (r#"[^a]"#, "", false),
    (r#""a"+"#, "", false),
    (r#""a" "b"?"#, "", false),
    (r#""a" | [0-9]"#, "", false),
    (r#"[iI] | [fF]"#, "", false),
];

fn check(rt: &impl Abort, alloc: Global, pattern: &str, text: &str, any_case: bool) {
    let read = Pattern::read(alloc, pattern).expect(rt, "a pattern");
    match literal(alloc, read.expression()).expect(rt, "memory") {
        Some(found) => {
            assert!(rt; found.text.as_str() == text, "{pattern}: {found:?}");
            assert!(rt; found.any_case == any_case, "{pattern}: {found:?}");
        }
        None => assert!(rt; text.is_empty(), "{pattern}"),
    }
}

#[test]
fn patterns_have_texts(rt: HostRuntime) {
    for (pattern, text, any_case) in &PATTERNS {
        check(&rt, rt.alloc(), pattern, text, *any_case);
    }
}
