//! Worked grammar files, which the crates of tests share. Each line ends with a LF.
#![tactic(auto)]

/// Sums of numbers.
pub const SUMS: &str = r#"lrgrammar 1
token NUM = [0-9]+
token PLUS = "+"
token LP = "("
token RP = ")"
skip WS = [ \t\r\n]+
start Sum
fold Atom
Sum = Sum PLUS Atom
Sum = Atom
Atom = NUM
Atom = LP Sum RP
"#;

/// Lists of strings and words, the empty one included.
pub const LISTS: &str = r#"lrgrammar 1
token STR = "\"" [^"]* "\""
token W = [a-z]+
skip WS = [ ]+
start L
L =
L = L Item
Item = STR
Item = W
"#;

/// Choices with and without an `else`. An `else` after two choices may belong to either.
pub const CHOICES: &str = r#"lrgrammar 1
token IF = "if"
token ELSE = "else"
token X = "x"
skip WS = [ ]+
start S
S = IF S
S = IF S ELSE S
S = X
"#;

/// Rules of letters, of which the first is looked for past the match of the second.
pub const LETTERS: &str = r#"lrgrammar 1
token ABC = "abc"
token A = "a"
token B = "b"
token D = "d"
start S
S = ABC A B D
"#;
