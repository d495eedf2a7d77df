//! The types of tokens and the kinds of symbols that the protocol knows.

ghost use Rattle.std.specs.Prelude.{◌<◌, length, IfSome};
ghost use Rattle.settings.specs.Settings.{IsKind};

/// The protocol's types of tokens, each at its number (LSP 3.17, "SemanticTokenTypes").
pub const TOKEN_TYPES: [&str; 23] = [
    "namespace",
    "type",
    "class",
    "enum",
    "interface",
    "struct",
    "typeParameter",
    "parameter",
    "variable",
    "property",
    "enumMember",
    "event",
    "function",
    "method",
    "macro",
    "keyword",
    "modifier",
    "comment",
    "string",
    "number",
    "regexp",
    "operator",
    "decorator",
];

/// The number of the type `variable`.
pub const VARIABLE: u32 = 8;
/// The number of the type `keyword`.
pub const KEYWORD: u32 = 15;
/// The number of the type `comment`.
pub const COMMENT: u32 = 17;
/// The number of the type `string`.
pub const STRING: u32 = 18;
/// The number of the type `number`.
pub const NUMBER: u32 = 19;
/// The number of the type `operator`.
pub const OPERATOR: u32 = 21;

/// The protocol's kinds of symbols, each before its number: the first has the number 1 (LSP 3.17,
/// "SymbolKind").
pub const SYMBOL_KINDS: [&str; 26] = [
    "File",
    "Module",
    "Namespace",
    "Package",
    "Class",
    "Method",
    "Property",
    "Field",
    "Constructor",
    "Enum",
    "Interface",
    "Function",
    "Variable",
    "Constant",
    "String",
    "Number",
    "Boolean",
    "Array",
    "Object",
    "Key",
    "Null",
    "EnumMember",
    "Struct",
    "Event",
    "Operator",
    "TypeParameter",
];

/// The number of the kind of symbols of this name.
pub fn symbol_kind(name: &str) -> Option<u32>
    ensures { IfSome result IsKind }
{
    let place = place_of(&SYMBOL_KINDS, name)?;
    Some(place as u32 + 1)
}

/// The number of the type of tokens of this name.
pub fn token_type(name: &str) -> Option<u32>
    ensures { IfSome result (λ number. number < 23) }
{
    let place = place_of(&TOKEN_TYPES, name)?;
    Some(place as u32)
}

/// The place of the first of these names that is this one.
fn place_of(names: &[&str], name: &str) -> Option<usize>
    ensures { IfSome result (λ place. place < length names.now) }
{
    names.iter().position(|other| *other == name)
}
