//! Settings files, read and written.

use crate::languages::notes;
use grammar::Grammar;
use settings::guess;
use settings_files::{SettingsFault, grammar_of, read, to_toml};
use std::alloc::Global;
use std::process::Abort;

/// The settings that are guessed for `NOTES`, as a file.
const GUESSED: &str = r##"# Settings of lrls-ide: docs/IDE.md says what can stand here.
grammar = "notes.lr"
comment = "#"

[colours]
LET = "keyword"
IF = "keyword"
FN = "keyword"
EQUAL = "operator"
PLUS = "operator"
MINUS = "operator"
NAME = "variable"
NUM = "number"
STR = "string"
NOTE = "comment"
HASH = "comment"

[[symbols]]
node = "Item"
with = "LET"
name = "NAME"
kind = "Variable"

[[symbols]]
node = "Item"
with = "FN"
name = "Label"
kind = "Function"

[[symbols]]
node = "Entry"
with = "COLON"
name = "Label"
kind = "Property"
"##;

/// Other settings, as a file.
const OTHERS: &str = r##"# Settings of lrls-ide: docs/IDE.md says what can stand here.
grammar = "notes.lr"
comment = ""

[colours]
NAME = "enumMember"

[words]
NAME = "a name"
STR = '"..."'

[texts]
SEMI = ";;"

[[symbols]]
node = "Entry"
name = ["NUM?", "Label.STR"]
kind = "TypeParameter"

[[symbols]]
node = "Program"
name = []
kind = "File"
"##;

/// The settings of a file are written as the same file.
fn check_written(rt: &impl Abort, alloc: Global, grammar: &Grammar, text: &str) {
    let settings = read(alloc, grammar, text).expect(rt, "settings");
    let written = to_toml(alloc, grammar, &settings, Some("notes.lr")).expect(rt, "memory");
    assert!(rt; written.as_str() == text, "{written}");
}

#[test]
fn settings_are_written_and_read(rt: HostRuntime) {
    let grammar = notes(&rt, rt.alloc());
    let settings = guess(rt.alloc(), &grammar).expect(&rt, "memory");
    let written = to_toml(rt.alloc(), &grammar, &settings, Some("notes.lr")).expect(&rt, "memory");
    assert!(rt; written.as_str() == GUESSED, "{written}");
    let nameless = to_toml(rt.alloc(), &grammar, &settings, None).expect(&rt, "memory");
    let row = "grammar = \"notes.lr\"\n";
    let (before, behind) = GUESSED.split_once(row).expect(&rt, "a row");
    let awaited = format!(in rt.alloc(); "{before}{behind}").expect(&rt, "memory");
    assert!(rt; nameless.as_str() == awaited.as_str(), "{nameless}");
    check_written(&rt, rt.alloc(), &grammar, GUESSED);
    check_written(&rt, rt.alloc(), &grammar, OTHERS);
}

/// What a file doesn't say is guessed.
#[test]
fn an_empty_file_says_nothing(rt: HostRuntime) {
    let grammar = notes(&rt, rt.alloc());
    let settings = read(rt.alloc(), &grammar, "").expect(&rt, "settings");
    let written = to_toml(rt.alloc(), &grammar, &settings, Some("notes.lr")).expect(&rt, "memory");
    assert!(rt; written.as_str() == GUESSED, "{written}");
}

/// Files with a mistake, and what is said of it.
const MISTAKES: [(&str, &str); 25] = [
    (
        "= 1",
        "invalid key, expected letters, numbers, `-`, `_` or a quoted key (at line 1, column 1)",
    ),
    (
        "comment = \"é\"\n\"é\" 1",
        "key with no value, expected `=` (at line 2, column 5)",
    ),
    (
        "colour = 1",
        "colour: no such setting; the settings are grammar, comment, colours, words, texts, symbols",
    ),
    ("grammar = 1", "grammar: has to be a string"),
    ("comment = [\"#\"]", "comment: has to be a string"),
    ("colours = 1", "colours: has to be a table"),
    ("words = \"a\"", "words: has to be a table"),
    ("[[texts]]\nLET = \"a\"", "texts: has to be a table"),
    (
        "[symbols]\nnode = \"Item\"",
        "symbols: has to be a list of tables",
    ),
    (
        "[colours]\nLETS = \"keyword\"",
        "[colours]: LETS is no token rule of the grammar",
    ),
    (
        "[words]\nItem = \"an item\"",
        "[words]: Item is no token rule of the grammar",
    ),
    (
        "[colours]\nLET = 1",
        "[colours] LET: has to be a text in quotes",
    ),
    (
        "[colours]\nLET = \"keywrd\"",
        "[colours] LET: \"keywrd\" is none of namespace, type, class, enum, interface, struct, \
         typeParameter, parameter, variable, property, enumMember, event, function, method, macro, \
         keyword, modifier, comment, string, number, regexp, operator, decorator",
    ),
    (
        "[words]\nLET = []",
        "[words] LET: has to be a text in quotes",
    ),
    (
        "[texts]\nLET = \"\"",
        "[texts] LET: has to be a text in quotes that isn't empty",
    ),
    ("symbols = [1]", "[[symbols]] number 1: has to be a table"),
    (
        "[[symbols]]\nnode = \"Item\"",
        "[[symbols]] number 1: has `node`, `name` and `kind`, and perhaps `with`",
    ),
    (
        "[[symbols]]\nnode = \"Item\"\nname = \"NAME\"\nkind = \"Key\"\nrule = \"LET\"",
        "[[symbols]] number 1: has `node`, `name` and `kind`, and perhaps `with`",
    ),
    (
        "[[symbols]]\nnode = [\"Item\"]\nname = \"NAME\"\nkind = \"Key\"",
        "[[symbols]] number 1: node has to be a text in quotes",
    ),
    (
        "[[symbols]]\nnode = \"Item\"\nname = [[\"NAME\"]]\nkind = \"Key\"",
        "[[symbols]] number 1: name has to be a text in quotes, or a list of such texts",
    ),
    (
        "[[symbols]]\nnode = \"Item\"\nname = \"NAME\"\nkind = \"Key\"\n\
         [[symbols]]\nnode = \"Item\"\nname = \"NAME\"\nkind = \"Key\"\nwith = [\"LET\"]",
        "[[symbols]] number 2: with has to be a text in quotes",
    ),
    (
        "[[symbols]]\nnode = \"LET\"\nname = \"NAME\"\nkind = \"Key\"",
        "[[symbols]] number 1: node: LET is no nonterminal of the grammar",
    ),
    (
        "[[symbols]]\nnode = \"Item\"\nname = \"Label.NAMES\"\nkind = \"Key\"",
        "[[symbols]] number 1: name: NAMES is neither a token rule nor a nonterminal of the grammar",
    ),
    (
        "[[symbols]]\nnode = \"Item\"\nname = \"NAME\"\nkind = \"key\"",
        "[[symbols]] number 1: kind: \"key\" is none of File, Module, Namespace, Package, Class, \
         Method, Property, Field, Constructor, Enum, Interface, Function, Variable, Constant, \
         String, Number, Boolean, Array, Object, Key, Null, EnumMember, Struct, Event, Operator, \
         TypeParameter",
    ),
    (
        "[[symbols]]\nnode = \"Item\"\nname = \"NAME\"\nkind = \"Key\"\nwith = \"Item\"",
        "[[symbols]] number 1: with: Item is no token rule of the grammar",
    ),
];

fn check_mistake(rt: &impl Abort, alloc: Global, fault: SettingsFault, wanted: &str) {
    let text = format!(in alloc; "{fault}").expect(rt, "memory");
    assert!(rt; text.as_str() == wanted, "{text}");
}

#[test]
fn mistakes_are_told(rt: HostRuntime) {
    let grammar = notes(&rt, rt.alloc());
    for (text, wanted) in &MISTAKES {
        match read(rt.alloc(), &grammar, text) {
            Ok(_) => panic!(rt; "read: {text}"),
            Err(fault) => check_mistake(&rt, rt.alloc(), fault, wanted),
        }
    }
}

#[test]
fn a_file_names_its_grammar(rt: HostRuntime) {
    let alloc = rt.alloc();
    let named = grammar_of(alloc, "grammar = \"sub/notes.lr\"\nother = 1").expect(&rt, "a name");
    assert!(rt; named.is_some_and(|file| file.as_str() == "sub/notes.lr"));
    assert!(rt;
        grammar_of(alloc, "[colours]")
            .expect(&rt, "no name")
            .is_none()
    );
    let fault = grammar_of(alloc, "grammar = 1").expect_err(&rt, "no text");
    check_mistake(&rt, alloc, fault, "grammar: has to be a text in quotes");
}
