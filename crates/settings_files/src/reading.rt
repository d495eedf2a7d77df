//! A settings file, read.

ghost use Rattle.std.specs.Prelude.{◌≡◌, ◌<◌, All, IfErr, IfOk, codes, IsSome, None, Some, length, vec_len};
ghost use Rattle.std.specs.BTreeMap.{get_by_text};
ghost use Rattle.toml.specs.Parse.{parse_document};
ghost use Rattle.toml.specs.View.{table_view};
ghost use Rattle.settings_files.specs.Faults.{IsTomlFault};
ghost use Rattle.settings.specs.Settings.{AreSettings, IsColour, IsSymbolRule};

use crate::faults::{Mistake, Place, SettingsFault};
use crate::names::rule_named;
use crate::symbols::symbol_rules;
use grammar::Grammar;
use settings::{Settings, SymbolRule, guess, nothing, token_type};
use std::alloc::{AllocError, Global};
use toml::{Table, Value};

/// The settings of a settings file for a grammar; what the file doesn't say is guessed.
///
/// Refuses a text that is no TOML, with TOML's own fault; then the first mistake: a key or a value
/// that isn't as docs/IDE.md says, or a name that the grammar or the protocol hasn't. Keys are
/// looked at in the order of their bytes. `Memory` says that memory was refused.
pub fn read(alloc: Global, grammar: &Grammar, text: &str) -> Result<Settings, SettingsFault>
    ensures settings { IfOk result (AreSettings grammar.now) }
    ensures toml { IfOk result (λ _. IsSome (parse_document text.now)) }
    ensures no_toml { IfErr result (λ f. IsTomlFault f → parse_document text.now ≡ None) }
{
    let table = parsed(alloc, text)?;
    check_settings(alloc, &table)?;
    let guessed = guess(alloc, grammar)?;
    settings_of(alloc, grammar, &table, guessed)
}

/// The grammar file that a settings file names, as seen from it; `None` where it names none.
///
/// Refuses a text that is no TOML, and a value that is no text.
pub fn grammar_of(alloc: Global, text: &str) -> Result<Option<String>, SettingsFault>
    ensures toml { IfOk result (λ _. IsSome (parse_document text.now)) }
    ensures no_toml { IfErr result (λ f. IsTomlFault f → parse_document text.now ≡ None) }
{
    let table = parsed(alloc, text)?;
    match table.get("grammar") {
        Some(value) => file_of(alloc, value),
        None => Ok(None),
    }
}

/// The file at the key `grammar`.
fn file_of(alloc: Global, value: &Value) -> Result<Option<String>, SettingsFault>
    ensures { IfErr result (λ f. ¬ IsTomlFault f) }
{
    match value {
        Value::String(file) => Ok(Some(file.clone()?)),
        _ => Err(at_setting(alloc, "grammar", Mistake::NoText)?),
    }
}

/// The table of a TOML text, or what is wrong with it.
fn parsed(alloc: Global, text: &str) -> Result<Table, SettingsFault>
    ensures toml { IfOk result (λ table. parse_document text.now ≡ Some (table_view table)) }
    ensures no_toml { IfErr result (λ f. IsTomlFault f → parse_document text.now ≡ None) }
{
    match toml::table_from_str(alloc, text) {
        Ok(table) => Ok(table),
        Err(fault) => match fault.span() {
            Some(span) => Err(toml_fault(alloc, text, span.start, fault.message())?),
            None => Err(SettingsFault::Memory),
        },
    }
}

/// The fault at this offset of a text that is no TOML.
fn toml_fault(
    alloc: Global,
    text: &str,
    at: usize,
    message: &str,
) -> Result<SettingsFault, AllocError> {
    let (line, column) = place_at(text, at);
    Ok(SettingsFault::Toml {
        message: String::from_str(alloc, message)?,
        line,
        column,
    })
}

/// The line and the column of an offset in bytes, each from 1.
fn place_at(text: &str, at: usize) -> (usize, usize) {
    let (mut line, mut column) = (1usize, 1usize);
    for byte in text.as_bytes().iter().take(at) {
        if *byte == b'\n' {
            line = line.saturating_add(1);
            column = 1;
        } else if *byte & 0xC0 != 0x80 {
            column = column.saturating_add(1);
        }
    }
    (line, column)
}

/// The mistake at a key of the whole file.
fn at_setting(alloc: Global, key: &str, mistake: Mistake) -> Result<SettingsFault, AllocError>
    ensures { IfOk result (λ f. ¬ IsTomlFault f) }
{
    let place = Place::Setting(String::from_str(alloc, key)?);
    Ok(SettingsFault::Mistake { place, mistake })
}

/// Refuses a key of the file that is no setting, or has a value of another shape.
fn check_settings(alloc: Global, table: &Table) -> Result<(), SettingsFault>
    ensures { IfErr result (λ f. ¬ IsTomlFault f) }
{
    for (key, value) in table {
        if let Some(mistake) = mistake_of(key, value) {
            return Err(at_setting(alloc, key, mistake)?);
        }
    }
    Ok(())
}

/// What is wrong with a key of the whole file, or with the shape of its value.
fn mistake_of(key: &str, value: &Value) -> Option<Mistake> {
    let (fits, mistake) = match key {
        "grammar" | "comment" => (value.is_str(), Mistake::NoString),
        "colours" | "words" | "texts" => (value.is_table(), Mistake::NoTable),
        "symbols" => (value.is_array(), Mistake::NoTables),
        _ => (false, Mistake::NoSetting),
    };
    if fits { None } else { Some(mistake) }
}

/// The settings of a table whose values have the right shapes, with the guess for what isn't
/// there.
fn settings_of(
    alloc: Global,
    grammar: &Grammar,
    table: &Table,
    guessed: Settings,
) -> Result<Settings, SettingsFault>
    requires { AreSettings grammar.now guessed }
    ensures settings { IfOk result (AreSettings grammar.now) }
    ensures fault { IfErr result (λ f. ¬ IsTomlFault f) }
{
    let Settings {
        comment,
        colours,
        words,
        texts,
        symbols,
    } = guessed;
    Ok(Settings {
        comment: comment_or(table, comment)?,
        colours: colours_or(alloc, grammar, table, colours)?,
        words: texts_or(alloc, grammar, table, "words", words)?,
        texts: texts_or(alloc, grammar, table, "texts", texts)?,
        symbols: symbols_or(alloc, grammar, table, symbols)?,
    })
}

/// What the table says of comments, or else the guess.
fn comment_or(table: &Table, guess: Option<String>) -> Result<Option<String>, AllocError> {
    match table.get("comment") {
        Some(Value::String(comment)) if comment.is_empty() => Ok(None),
        Some(Value::String(comment)) => Ok(Some(comment.clone()?)),
        _ => Ok(guess),
    }
}

/// What the table says of the types of tokens, or else the guess.
fn colours_or(
    alloc: Global,
    grammar: &Grammar,
    table: &Table,
    guess: Vec<Option<u32>>,
) -> Result<Vec<Option<u32>>, SettingsFault>
    requires len { vec_len guess ≡ length grammar.now.names }
    requires types { All IsColour guess.items }
    ensures len { IfOk result (λ colours. vec_len colours ≡ length grammar.now.names) }
    ensures types { IfOk result (λ colours. All IsColour colours.items) }
    ensures absent { IfOk result (λ colours.
        get_by_text table.now (codes "colours") ≡ None → colours ≡ guess) }
    ensures fault { IfErr result (λ f. ¬ IsTomlFault f) }
{
    match table.get("colours") {
        Some(Value::Table(colours)) => colours_of(alloc, grammar, colours),
        _ => Ok(guess),
    }
}

/// What the table says of words or texts, or else the guess.
fn texts_or(
    alloc: Global,
    grammar: &Grammar,
    table: &Table,
    name: &'static str,
    guess: Vec<Option<String>>,
) -> Result<Vec<Option<String>>, SettingsFault>
    requires { vec_len guess ≡ length grammar.now.names }
    ensures len { IfOk result (λ texts. vec_len texts ≡ length grammar.now.names) }
    ensures absent { IfOk result (λ texts.
        get_by_text table.now name.now ≡ None → texts ≡ guess) }
    ensures fault { IfErr result (λ f. ¬ IsTomlFault f) }
{
    match table.get(name) {
        Some(Value::Table(texts)) => texts_of(alloc, grammar, name, texts),
        _ => Ok(guess),
    }
}

/// What the table says of symbols, or else the guess.
fn symbols_or(
    alloc: Global,
    grammar: &Grammar,
    table: &Table,
    guess: Vec<SymbolRule>,
) -> Result<Vec<SymbolRule>, SettingsFault>
    requires { All (IsSymbolRule grammar.now) guess.items }
    ensures symbols { IfOk result (λ symbols. All (IsSymbolRule grammar.now) symbols.items) }
    ensures absent { IfOk result (λ symbols.
        get_by_text table.now (codes "symbols") ≡ None → symbols ≡ guess) }
    ensures fault { IfErr result (λ f. ¬ IsTomlFault f) }
{
    match table.get("symbols") {
        Some(Value::Array(symbols)) => symbol_rules(alloc, grammar, symbols),
        _ => Ok(guess),
    }
}

/// The mistake at a key of a table.
fn at_entry(
    alloc: Global,
    table: &'static str,
    key: &str,
    mistake: Mistake,
) -> Result<SettingsFault, AllocError>
    ensures { IfOk result (λ f. ¬ IsTomlFault f) }
{
    let place = Place::Entry(table, String::from_str(alloc, key)?);
    Ok(SettingsFault::Mistake { place, mistake })
}

/// The rule that a key of a table names.
fn rule_of(
    alloc: Global,
    grammar: &Grammar,
    table: &'static str,
    key: &str,
) -> Result<usize, SettingsFault>
    ensures rule { IfOk result (λ rule. rule < length grammar.now.names) }
    ensures fault { IfErr result (λ f. ¬ IsTomlFault f) }
{
    match rule_named(grammar, key) {
        Some(rule) => Ok(rule),
        None => Err(SettingsFault::Mistake {
            place: Place::Table(table),
            mistake: Mistake::NoRule(String::from_str(alloc, key)?),
        }),
    }
}

/// The types of the rules that a table names.
fn colours_of(
    alloc: Global,
    grammar: &Grammar,
    table: &Table,
) -> Result<Vec<Option<u32>>, SettingsFault>
    ensures len { IfOk result (λ colours. vec_len colours ≡ length grammar.now.names) }
    ensures types { IfOk result (λ colours. All IsColour colours.items) }
    ensures fault { IfErr result (λ f. ¬ IsTomlFault f) }
{
    let mut colours = vec![in alloc; None; grammar.rules()]?;
    for (key, value) in table {
        let rule = rule_of(alloc, grammar, "colours", key)?;
        colours[rule] = Some(colour_of(alloc, key, value)?);
    }
    Ok(colours)
}

/// The number of a type of tokens at a key.
fn colour_of(alloc: Global, key: &str, value: &Value) -> Result<u32, SettingsFault>
    ensures number { IfOk result (λ number. number < 23) }
    ensures fault { IfErr result (λ f. ¬ IsTomlFault f) }
{
    let Some(name) = value.as_str() else {
        return Err(at_entry(alloc, "colours", key, Mistake::NoText)?);
    };
    match token_type(name) {
        Some(number) => Ok(number),
        None => {
            let mistake = Mistake::NoType(String::from_str(alloc, name)?);
            Err(at_entry(alloc, "colours", key, mistake)?)
        }
    }
}

/// The texts of the rules that a table names.
fn texts_of(
    alloc: Global,
    grammar: &Grammar,
    name: &'static str,
    table: &Table,
) -> Result<Vec<Option<String>>, SettingsFault>
    ensures len { IfOk result (λ texts. vec_len texts ≡ length grammar.now.names) }
    ensures fault { IfErr result (λ f. ¬ IsTomlFault f) }
{
    let mut texts = nothing(alloc, grammar.rules())?;
    for (key, value) in table {
        let rule = rule_of(alloc, grammar, name, key)?;
        texts[rule] = Some(text_of(alloc, name, key, value)?);
    }
    Ok(texts)
}

/// The text at a key, which isn't empty.
fn text_of(
    alloc: Global,
    table: &'static str,
    key: &str,
    value: &Value,
) -> Result<String, SettingsFault>
    ensures { IfErr result (λ f. ¬ IsTomlFault f) }
{
    match value {
        Value::String(text) if !text.is_empty() => Ok(text.clone()?),
        Value::String(_) => Err(at_entry(alloc, table, key, Mistake::EmptyText)?),
        _ => Err(at_entry(alloc, table, key, Mistake::NoText)?),
    }
}
