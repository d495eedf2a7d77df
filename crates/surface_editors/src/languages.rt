//! What callers rely on of the settings of a language: `settings` and `settings_files`.

ghost use Rattle.std.specs.Prelude.{◌≡◌, ◌<◌, All, IfErr, IfOk, IfSome, IsNone, IsSome, None, vec_len};
ghost use Rattle.toml.specs.Parse.{parse_document};
ghost use Rattle.settings.specs.Settings.{AreSettings, IsKind};
ghost use Rattle.settings_files.specs.Faults.{IsTomlFault};

use definitions::{Expression, Symbol};
use grammar::Grammar;
use settings::{
    COMMENT, KEYWORD, NUMBER, NamePart, OPERATOR, RuleText, STRING, SYMBOL_KINDS, Settings,
    SymbolRule, TOKEN_TYPES, VARIABLE,
};
use settings_files::{Mistake, Place, SettingsFault};
use std::alloc::{AllocError, Global};

/// `TOKEN_TYPES`.
pub fn token_types() -> [&'static str; 23] {
    TOKEN_TYPES
}

/// `SYMBOL_KINDS`.
pub fn symbol_kinds() -> [&'static str; 26] {
    SYMBOL_KINDS
}

/// `COMMENT`, `KEYWORD`, `NUMBER`, `OPERATOR`, `STRING` and `VARIABLE`.
pub fn types() -> [u32; 6] {
    [COMMENT, KEYWORD, NUMBER, OPERATOR, STRING, VARIABLE]
}

/// The parts of `Settings`.
type Parts = (
    Option<String>,
    Vec<Option<u32>>,
    Vec<Option<String>>,
    Vec<Option<String>>,
    Vec<SymbolRule>,
);

/// `Settings`.
pub fn settings(settings: Settings) -> Parts {
    let Settings {
        comment,
        colours,
        words,
        texts,
        symbols,
    } = settings;
    (comment, colours, words, texts, symbols)
}

/// `SymbolRule`.
pub fn symbol_rule(symbol: SymbolRule) -> (usize, Option<usize>, Vec<NamePart>, u32) {
    let SymbolRule {
        node,
        with,
        name,
        kind,
    } = symbol;
    (node, with, name, kind)
}

/// `NamePart`.
pub fn name_part(part: NamePart) -> (Option<Symbol>, Symbol) {
    match part {
        NamePart::Whole(symbol) => (None, symbol),
        NamePart::Within { part, name } => (Some(part), name),
    }
}

/// `RuleText`.
pub fn rule_text(found: RuleText) -> (String, bool) {
    let RuleText { text, any_case } = found;
    (text, any_case)
}

/// `SettingsFault`.
pub fn fault(fault: SettingsFault) -> u8 {
    match fault {
        SettingsFault::Toml {
            message: _,
            line: _,
            column: _,
        } => 0,
        SettingsFault::Mistake {
            place: _,
            mistake: _,
        } => 1,
        SettingsFault::Memory => 2,
    }
}

/// `Place`.
pub fn place(place: &Place) -> u8 {
    match place {
        Place::Setting(_) => 0,
        Place::Table(_) => 1,
        Place::Entry(_, _) => 2,
        Place::Symbol(_) => 3,
    }
}

/// `Mistake`.
pub fn mistake(mistake: &Mistake) -> u8 {
    match mistake {
        Mistake::NoSetting => 0,
        Mistake::NoString => 1,
        Mistake::NoTable => 2,
        Mistake::NoTables => 3,
        Mistake::NoText => 4,
        Mistake::EmptyText => 5,
        Mistake::NoRule(_) => 6,
        Mistake::NoType(_) => 7,
        Mistake::Keys => 8,
        Mistake::NoKeyText(_) => 9,
        Mistake::NoNames => 10,
        Mistake::NoNode(_) => 11,
        Mistake::NoPart(_) => 12,
        Mistake::NoKind(_) => 13,
        Mistake::NoWith(_) => 14,
    }
}

/// `settings::guess`.
pub fn guess(alloc: Global, grammar: &Grammar) -> Result<Settings, AllocError>
    ensures settings { IfOk result (AreSettings grammar.now) }
    ensures words { IfOk result (λ s. All IsNone s.words.items) }
    ensures texts { IfOk result (λ s. All IsNone s.texts.items) }
{
    settings::guess(alloc, grammar)
}

/// `settings::nothing`.
pub fn nothing(alloc: Global, rules: usize) -> Result<Vec<Option<String>>, AllocError>
    ensures len { IfOk result (λ texts. vec_len texts ≡ rules) }
    ensures none { IfOk result (λ texts. All IsNone texts.items) }
{
    settings::nothing(alloc, rules)
}

/// `settings::symbol_kind`.
pub fn symbol_kind(name: &str) -> Option<u32>
    ensures { IfSome result IsKind }
{
    settings::symbol_kind(name)
}

/// `settings::token_type`.
pub fn token_type(name: &str) -> Option<u32>
    ensures { IfSome result (λ number. number < 23) }
{
    settings::token_type(name)
}

/// `settings_files::read`.
pub fn read(alloc: Global, grammar: &Grammar, text: &str) -> Result<Settings, SettingsFault>
    ensures settings { IfOk result (AreSettings grammar.now) }
    ensures toml { IfOk result (λ _. IsSome (parse_document text.now)) }
    ensures no_toml { IfErr result (λ f. IsTomlFault f → parse_document text.now ≡ None) }
{
    settings_files::read(alloc, grammar, text)
}

/// `settings_files::grammar_of`.
pub fn grammar_of(alloc: Global, text: &str) -> Result<Option<String>, SettingsFault>
    ensures toml { IfOk result (λ _. IsSome (parse_document text.now)) }
    ensures no_toml { IfErr result (λ f. IsTomlFault f → parse_document text.now ≡ None) }
{
    settings_files::grammar_of(alloc, text)
}

/// `settings_files::to_toml`.
pub fn to_toml(
    alloc: Global,
    grammar: &Grammar,
    settings: &Settings,
    grammar_file: Option<&str>,
) -> Result<String, AllocError> {
    settings_files::to_toml(alloc, grammar, settings, grammar_file)
}

/// `settings::literal`.
pub fn literal(alloc: Global, expression: &Expression) -> Result<Option<RuleText>, AllocError> {
    settings::literal(alloc, expression)
}
