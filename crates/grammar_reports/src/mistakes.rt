//! What those write first who know another form of grammars, and what to write in its place.

/// Whether a character may stand in a name.
fn is_of_name(c: char) -> bool {
    c.is_ascii_alphanumeric() || c == '_'
}

/// What stands behind the name with which a text begins.
fn behind_name(text: &str) -> Option<&str> {
    let behind = text.trim_start_matches(is_of_name);
    if behind.len() < text.len() {
        Some(behind)
    } else {
        None
    }
}

/// What stands behind the name that a line seems to define: that of a rule, or of a production.
fn behind_defined(line: &str) -> Option<&str> {
    let line = line.trim_start();
    let rule = line.strip_prefix("token ").or(line.strip_prefix("skip "));
    behind_name(rule.unwrap_or(line).trim_start())
}

/// The right side of a production: what stands behind its name and `=`.
fn right_side(line: &str) -> Option<&str> {
    behind_name(line.trim_start())?
        .trim_start()
        .strip_prefix("=")
}

/// Whether a text begins with one of these.
fn begins_with(text: &str, signs: &[&str]) -> bool {
    for sign in signs {
        if text.starts_with(*sign) {
            return true;
        }
    }
    false
}

/// Of a line with another sign than `=` between blanks behind its name.
fn of_sign(line: &str) -> Option<&'static str> {
    let behind = behind_defined(line)?;
    let sign = behind.trim_start();
    if begins_with(
        sign,
        &["->", "=>", "<-", "::=", ":=", ":", "\u{2192}", "\u{2190}"],
    ) {
        return Some("a production is written with \"=\" and a blank on both sides, as in: S = A");
    }
    let right = sign.strip_prefix("=")?;
    let is_apart = sign.len() < behind.len() && right.trim_start().len() < right.len();
    if is_apart || right.is_empty() {
        None
    } else {
        Some("\"=\" needs a blank on both sides, as in: S = A")
    }
}

/// Of the right side of a production with something besides names, by the first such sign.
fn of_right_side(right: &str) -> Option<&'static str> {
    for c in right.chars() {
        match c {
            '|' => return Some(
                "a production has no |: write a production for each choice, as in: S = A, and below it: S = B",
            ),
            '"' | '\'' => return Some(
                "a production has names alone: give the text one, as in: token PLUS = \"+\"",
            ),
            '(' => return Some(
                "a production has no groups: give the part a name, and a production of its own",
            ),
            '[' | '{' => return Some(
                "a production has no brackets: write A? for what may be missing, and A* for what is repeated",
            ),
            '#' => return Some("a comment begins with # and has a line of its own"),
            _ => {}
        }
    }
    None
}

/// Whether a mark stands by itself, before any text in quotes.
fn has_lone_mark(line: &str) -> bool {
    let names = match line.split_once('"') {
        Some((before, _)) => before,
        None => line,
    };
    names
        .split_whitespace()
        .skip(1)
        .any(|word| word == "*" || word == "+" || word == "?")
}

/// Of a line by its first or its last sign.
fn of_ends(line: &str) -> Option<&'static str> {
    let begun = line.trim_start();
    if begun.starts_with("|") {
        Some(
            "no line goes on in the next one: write a production for each choice, as in: S = A, and below it: S = B",
        )
    } else if line.trim_end().ends_with(";") {
        Some("a line ends without ;")
    } else if begins_with(begun, &["//", "/*", "--", "(*"]) {
        Some("a comment begins with # and has a line of its own")
    } else {
        None
    }
}

/// Whether a word is a name with a mark behind it.
fn is_marked_name(word: &str) -> bool {
    let behind = behind_name(word).unwrap_or("");
    behind == "*" || behind == "+" || behind == "?"
}

/// Whether a production uses a name with a mark behind it.
fn uses_marks(line: &str) -> bool {
    match right_side(line) {
        Some(right) => right.split_whitespace().any(is_marked_name),
        None => false,
    }
}

/// What to write in the place of a line of a grammar file that is none, in words, where it is one
/// of the mistakes that are known. `first` is the first line of the file.
pub fn mistake(first: &str, line: &str) -> Option<&'static str> {
    if first == "lrgrammar 1" && uses_marks(line) {
        return Some("the marks *, + and ? behind a name need \"lrgrammar 2\" as the first line");
    }
    if let Some(words) = of_sign(line) {
        return Some(words);
    }
    if let Some(words) = right_side(line).and_then(of_right_side) {
        return Some(words);
    }
    if let Some(words) = of_ends(line) {
        return Some(words);
    }
    if has_lone_mark(line) {
        return Some("a mark comes right after the name, as in: A*");
    }
    None
}
