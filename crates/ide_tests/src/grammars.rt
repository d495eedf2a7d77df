//! Grammars of `grammars/` without their comments, with their samples and settings.

ghost use Rattle.docs.specs.Docs.{IsCurrent};

use definitions::Unit;
use docs::{Doc, Language};
use settings_files::{Settings, read};
use std::alloc::Global;
use std::process::Abort;

/// `grammars/script.lr`.
pub const SCRIPT: &str = r##"lrgrammar 2
token SEMICOLON = ";"
token COMMA = ","
token RP = ")"
token RBRACKET = "]"
token RBRACE = "}"
token LBRACE = "{"
token LP = "("
token LBRACKET = "["
token DOT = "."
token ASSIGN = "="
token LET = "let"
token FN = "fn"
token IF = "if"
token ELSE = "else"
token WHILE = "while"
token FOR = "for"
token IN = "in"
token RETURN = "return"
token BREAK = "break"
token TRUE = "true"
token FALSE = "false"
token NIL = "nil"
token AND = "and"
token OR = "or"
token NOT = "not"
token EQUAL = "=="
token UNEQUAL = "!="
token AT_MOST = "<="
token AT_LEAST = ">="
token LESS = "<"
token GREATER = ">"
token PLUS = "+"
token MINUS = "-"
token TIMES = "*"
token OVER = "/"
token MODULO = "%"
token NAME = [a-zA-Z_] [a-zA-Z_0-9]*
token NUMBER = [0-9]+ ("." [0-9]+)? ([eE] [+\-]? [0-9]+)?
token STRING = "\"" ([^"\\\r\n] | "\\" (["\\nrt] | "u{" [0-9a-fA-F]+ "}"))* "\""
skip SPACE = [ \t\r\n\u{FEFF}]+
skip COMMENT = "//" [^\r\n]*
skip BLOCK_COMMENT = "/*" ([^*] | "*"+ [^*/])* "*"+ "/"
start Program
fold Block
fold List
Program = Statement*
Block = LBRACE Statement* RBRACE
Statement = LET NAME Value? SEMICOLON
Statement = Place ASSIGN Expression SEMICOLON
Statement = Expression SEMICOLON
Statement = If
Statement = WHILE Expression Block
Statement = FOR NAME IN Expression Block
Statement = FN NAME Function
Statement = RETURN Expression? SEMICOLON
Statement = BREAK SEMICOLON
Value = ASSIGN Expression
If = IF Expression Block Else?
Else = ELSE Block
Else = ELSE If
Function = LP Names? RP Block
Names = NAME NextName*
NextName = COMMA NAME
Expression = Expression OR Both
Expression = Both
Both = Both AND Test
Both = Test
Test = Sum Relation Sum
Test = Sum
Relation = EQUAL
Relation = UNEQUAL
Relation = AT_MOST
Relation = AT_LEAST
Relation = LESS
Relation = GREATER
Sum = Sum PLUS Product
Sum = Sum MINUS Product
Sum = Product
Product = Product TIMES Sign
Product = Product OVER Sign
Product = Product MODULO Sign
Product = Sign
Sign = MINUS Sign
Sign = NOT Sign
Sign = Postfix
Postfix = Place
Postfix = Postfix LP Expressions? RP
Postfix = Atom
Place = NAME
Place = Postfix LBRACKET Expression RBRACKET
Place = Postfix DOT NAME
Expressions = Expression NextExpression*
NextExpression = COMMA Expression
Atom = NUMBER
Atom = STRING
Atom = TRUE
Atom = FALSE
Atom = NIL
Atom = FN Function
Atom = LP Expression RP
Atom = List
List = LBRACKET Expressions? RBRACKET
"##;

/// Words and symbols of `grammars/script.toml`.
pub const SCRIPT_SETTINGS: &str = r##"[words]
NAME = "a name"
NUMBER = "a number"
STRING = "a string"

[[symbols]]
node = "Statement"
with = "FN"
name = "NAME"
kind = "Function"

[[symbols]]
node = "Statement"
with = "LET"
name = "NAME"
kind = "Variable"
"##;

/// `grammars/samples/script.txt`.
pub const SCRIPT_SAMPLE: &str = r##"// Counts the words of a text.
fn count(text, stop) {
    let words = [];
    let word = "";
    for letter in text {
        if letter == " " or letter == "\n" {
            if not is_empty(word) {
                words.push(word);
                word = "";
            }
        } else if letter != stop {
            word = word + letter; /* one letter
                                     at a time **/
        } else {
            break;
        }
    }
    return words;
}

let limits = [1, -2.5e3 * (3 + 4) / 2 % 5];
limits[0] = fn (x) { return x >= 10 and x <= 20; };
let none;
while limits[0](15) {
    print(count("one two\u{21}", nil).length, true);
    limits[1] = false;
    return;
}
let narrow = limits.length - 1 < 3 and limits[0](5) > nil;
"##;

/// `grammars/json.lr`.
pub const JSON: &str = r##"lrgrammar 1
token COMMA = ","
token COLON = ":"
token RBRACE = "}"
token RBRACKET = "]"
token LBRACE = "{"
token LBRACKET = "["
token TRUE = "true"
token FALSE = "false"
token NULL = "null"
token NUMBER = "-"? ("0" | [1-9] [0-9]*) ("." [0-9]+)? ([eE] [+\-]? [0-9]+)?
token STRING = "\"" ([^"\\\u{0}-\u{1F}] | "\\" (["\\/bfnrt] | "u" [0-9a-fA-F] [0-9a-fA-F] [0-9a-fA-F] [0-9a-fA-F]))* "\""
skip WS = [ \t\r\n\u{FEFF}]+
start Value
fold Object
fold Array
Value = STRING
Value = NUMBER
Value = TRUE
Value = FALSE
Value = NULL
Value = Object
Value = Array
Object = LBRACE RBRACE
Object = LBRACE Members RBRACE
Members = Member
Members = Members COMMA Member
Member = STRING COLON Value
Array = LBRACKET RBRACKET
Array = LBRACKET Elements RBRACKET
Elements = Value
Elements = Elements COMMA Value
"##;

/// The symbols of `grammars/json.toml`.
pub const JSON_SETTINGS: &str = r##"[[symbols]]
node = "Member"
name = "STRING"
kind = "Property"
"##;

/// `grammars/samples/json.json`.
pub const JSON_SAMPLE: &str = r##"{
    "name": "lrls",
    "versions": [1, 2.5e-3, -0, 10E+2],
    "nothing": {},
    "empty": [],
    "quote": "\"\\\/\b\f\n\r\t\u00e9 é 😀",
    "flags": [true, false, null, [[]]]
}
"##;

/// `grammars/toml.lr`.
pub const TOML: &str = r##"lrgrammar 2
token COMMA = ","
token RBRACKET = "]"
token RBRACE = "}"
token NEWLINE = "\r"? "\n"
token EQUALS = "="
token DOT = "."
token LBRACKET = "["
token LBRACE = "{"
token TRUE = "true"
token FALSE = "false"
token INTEGER = [+\-]? ("0" | [1-9] ("_"? [0-9])*) | "0x" [0-9a-fA-F] ("_"? [0-9a-fA-F])* | "0o" [0-7] ("_"? [0-7])* | "0b" [01] ("_"? [01])*
token FLOAT = [+\-]? (("0" | [1-9] ("_"? [0-9])*) ("." [0-9] ("_"? [0-9])*)? ([eE] [+\-]? [0-9] ("_"? [0-9])*)? | "inf" | "nan")
token TIME = [0-2] [0-9] ":" [0-5] [0-9] ":" [0-6] [0-9] ("." [0-9]+)?
token DATE = [0-9] [0-9] [0-9] [0-9] "-" [01] [0-9] "-" [0-3] [0-9] ([Tt ] [0-2] [0-9] ":" [0-5] [0-9] ":" [0-6] [0-9] ("." [0-9]+)? ([Zz] | [+\-] [0-2] [0-9] ":" [0-5] [0-9])?)?
token BARE = [A-Za-z0-9_\-]+
token BASIC = "\"" ([^"\\\u{0}-\u{8}\u{A}-\u{1F}\u{7F}] | "\\" (["\\bfnrt] | "u" ([0-9abcefABCEF] [0-9a-fA-F] [0-9a-fA-F] [0-9a-fA-F] | [dD] [0-7] [0-9a-fA-F] [0-9a-fA-F]) | "U" ("0000" ([0-9abcefABCEF] [0-9a-fA-F] [0-9a-fA-F] [0-9a-fA-F] | [dD] [0-7] [0-9a-fA-F] [0-9a-fA-F]) | ("000" [1-9a-fA-F] | "0010") [0-9a-fA-F] [0-9a-fA-F] [0-9a-fA-F] [0-9a-fA-F])))* "\""
token LITERAL = "'" [^'\u{0}-\u{8}\u{A}-\u{1F}\u{7F}]* "'"
token LINES = "\"\"\"" ("\""? "\""? ([^"\\\u{0}-\u{8}\u{A}-\u{1F}\u{7F}] | "\r"? "\n" | "\\" (["\\bfnrt] | [ \t]* "\r"? "\n" | "u" ([0-9abcefABCEF] [0-9a-fA-F] [0-9a-fA-F] [0-9a-fA-F] | [dD] [0-7] [0-9a-fA-F] [0-9a-fA-F]) | "U" ("0000" ([0-9abcefABCEF] [0-9a-fA-F] [0-9a-fA-F] [0-9a-fA-F] | [dD] [0-7] [0-9a-fA-F] [0-9a-fA-F]) | ("000" [1-9a-fA-F] | "0010") [0-9a-fA-F] [0-9a-fA-F] [0-9a-fA-F] [0-9a-fA-F]))))* "\""? "\""? "\"\"\""
token LITERAL_LINES = "'''" ("'"? "'"? ([^'\u{0}-\u{8}\u{A}-\u{1F}\u{7F}] | "\r"? "\n"))* "'"? "'"? "'''"
skip SPACE = [ \t\u{FEFF}]+
skip COMMENT = "#" [^\u{0}-\u{8}\u{A}-\u{1F}\u{7F}]*
start Document
fold Table
fold LastTable
fold Array
Document = Line* Table* LastTable?
Document = Line* Pair
Line = Pair NEWLINE
Line = NEWLINE
Table = Header NEWLINE Line*
LastTable = Header
LastTable = Header NEWLINE Line* Pair
Header = LBRACKET Key RBRACKET
Header = LBRACKET LBRACKET Key RBRACKET RBRACKET
Key = Name NextName*
NextName = DOT Name
Name = BARE
Name = BASIC
Name = LITERAL
Pair = Key EQUALS Value
Value = Text
Value = INTEGER
Value = FLOAT
Value = TRUE
Value = FALSE
Value = DATE
Value = TIME
Value = Array
Value = InlineTable
Text = BASIC
Text = LITERAL
Text = LINES
Text = LITERAL_LINES
Array = LBRACKET NEWLINE* Element* LastElement? RBRACKET
Element = Value NEWLINE* COMMA NEWLINE*
LastElement = Value NEWLINE*
InlineTable = LBRACE Pairs? RBRACE
Pairs = Pair NextPair*
NextPair = COMMA Pair
"##;

/// The symbols of `grammars/toml.toml`.
pub const TOML_SETTINGS: &str = r##"[[symbols]]
node = "Table"
name = "Header.Key"
kind = "Namespace"

[[symbols]]
node = "LastTable"
name = "Header.Key"
kind = "Namespace"

[[symbols]]
node = "Pair"
name = "Key"
kind = "Property"
"##;

/// `grammars/samples/toml.toml`.
pub const TOML_SAMPLE: &str = r##"# A server's configuration
title = "An example: \"quoted\", \u00e9, \uD7FF, \U0010FFFF, 😀"
debug = false

[owner]
name = 'C:\no escapes'
born = 1979-05-27T07:32:00-08:00
day = 1979-05-27
"full name".short = "T."

[database]
ports = [8000, 8_001,
    0x1F40,  # the last one
]
limits = { low = -1.5e3, high = +inf, "in between" = [[1, 2], []] }
start = 07:32:00.999
about = """
Two "lines", and \
one that goes on with a quote""""
path = '''
'literal' lines'''

[[server]]
name = "alpha"

[[server]]
name = "beta"
tags.first = true
'a key' = {}
role = "backend""##;

/// A language with its settings.
pub fn language(
    rt: &impl Abort,
    alloc: Global,
    grammar: &str,
    settings: &str,
) -> (Language, Settings) {
    let language = Language::load(alloc, grammar).expect(rt, "a language");
    let settings = read(alloc, language.grammar(), settings).expect(rt, "settings");
    (language, settings)
}

/// A document of this text.
pub fn document(rt: &impl Abort, alloc: Global, language: &Language, text: &str) -> Doc
    ensures { IsCurrent language.now result }
{
    Doc::open(alloc, language, Unit::Utf16, 1, text).expect(rt, "a document")
}
