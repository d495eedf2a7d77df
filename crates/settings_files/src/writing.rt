//! Settings, written as a settings file.

use crate::names::{name_of, nonterminal_name};
use grammar::{Grammar, Kind};
use settings::{NamePart, SYMBOL_KINDS, Settings, SymbolRule, TOKEN_TYPES};
use std::alloc::{AllocError, Global};
use std::fmt;
use toml_writer::write_string;

/// A settings file that says what the settings do, for the grammar in this file; without a name,
/// for the one beside it.
///
/// Refuses for memory alone.
pub fn to_toml(
    alloc: Global,
    grammar: &Grammar,
    settings: &Settings,
    grammar_file: Option<&str>,
) -> Result<String, AllocError> {
    let mut text = String::new(alloc);
    text.push_str("# Settings of lrls-ide: docs/IDE.md says what can stand here.\n")?;
    if let Some(file) = grammar_file {
        push_row(&mut text, "grammar", file)?;
    }
    let comment = settings.comment.as_ref().map_or("", String::as_str);
    push_row(&mut text, "comment", comment)?;
    push_colours(&mut text, grammar, &settings.colours)?;
    push_texts(&mut text, grammar, "words", &settings.words)?;
    push_texts(&mut text, grammar, "texts", &settings.texts)?;
    for symbol in &settings.symbols {
        push_symbol(&mut text, grammar, symbol)?;
    }
    Ok(text)
}

/// A text as TOML writes it, in quotes.
#[derive(Clone, Copy)]
struct Quoted<'a>(&'a str);

impl fmt::Display for Quoted<'_> {
    fn fmt<W: fmt::Write>(&self, f: &mut fmt::Formatter<W>) -> fmt::Result {
        write_string(f, self.0)
    }
}

/// Adds a line with a key and a text.
fn push_row(text: &mut String, key: &str, value: &str) -> Result<(), AllocError> {
    let value = Quoted(value);
    writeln!(text, "{key} = {value}")
}

/// Adds the table of the types of tokens, if it has an entry.
fn push_colours(
    text: &mut String,
    grammar: &Grammar,
    colours: &[Option<u32>],
) -> Result<(), AllocError> {
    if colours.iter().any(|colour| colour.is_some()) {
        text.push_str("\n[colours]\n")?;
    }
    for (rule, colour) in colours.iter().enumerate() {
        if let Some(number) = colour {
            let name = name_at(&TOKEN_TYPES, *number as usize);
            push_row(text, grammar.kind_name(Kind::Rule(rule)), name)?;
        }
    }
    Ok(())
}

/// The name at this place; empty past the last one.
fn name_at(names: &[&'static str], place: usize) -> &'static str {
    names.get(place).copied().unwrap_or("")
}

/// Adds a table of texts, if it has an entry.
fn push_texts(
    text: &mut String,
    grammar: &Grammar,
    table: &str,
    texts: &[Option<String>],
) -> Result<(), AllocError> {
    if texts.iter().any(|entry| entry.is_some()) {
        writeln!(text, "\n[{table}]")?;
    }
    for (rule, entry) in texts.iter().enumerate() {
        if let Some(value) = entry {
            push_row(text, grammar.kind_name(Kind::Rule(rule)), value)?;
        }
    }
    Ok(())
}

/// Adds the table of a symbol.
fn push_symbol(
    text: &mut String,
    grammar: &Grammar,
    symbol: &SymbolRule,
) -> Result<(), AllocError> {
    text.push_str("\n[[symbols]]\n")?;
    push_row(text, "node", nonterminal_name(grammar, symbol.node))?;
    if let Some(with) = symbol.with {
        push_row(text, "with", grammar.kind_name(Kind::Rule(with)))?;
    }
    text.push_str("name = ")?;
    push_name(text, grammar, &symbol.name)?;
    let kind = (symbol.kind as usize).saturating_sub(1);
    push_row(text, "kind", name_at(&SYMBOL_KINDS, kind))
}

/// Adds the parts of a name: one by itself, or a list.
fn push_name(text: &mut String, grammar: &Grammar, parts: &[NamePart]) -> Result<(), AllocError> {
    if let [only] = parts {
        push_part(text, grammar, *only)?;
        return text.push_str("\n");
    }
    let mut separator = "[";
    for part in parts {
        text.push_str(separator)?;
        push_part(text, grammar, *part)?;
        separator = ", ";
    }
    if parts.is_empty() {
        text.push_str("[")?;
    }
    text.push_str("]\n")
}

/// Adds a part of a name in quotes.
fn push_part(text: &mut String, grammar: &Grammar, part: NamePart) -> Result<(), AllocError> {
    match part {
        NamePart::Whole(symbol) => write!(text, "{}", Quoted(name_of(grammar, symbol))),
        NamePart::Within { part, name } => {
            let (part, name) = (name_of(grammar, part), name_of(grammar, name));
            write!(text, "\"{part}.{name}\"")
        }
    }
}
