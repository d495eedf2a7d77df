//! The examples of the pages of the editor's server: for each of its crates a function with the
//! first calls that a caller makes. What is printed stands in the comment after each print, and in
//! the file `stdout`.
#![tactic(auto)]

mod copies;
mod documents;
mod languages;
mod servers;

use definitions::Kind;
use docs::Language;
use faults::ranks;
use settings::RuleText;
use settings_files::read;
use shown::Shown;
use states::Pile;
use std::alloc::Global;
use std::process::ExitCode;
use worked::SUMS;

/// Settings by which each `Atom` with a `NUM` is a symbol. The others are guessed.
const SYMBOLS: &str = r#"[[symbols]]
node = "Atom"
with = "NUM"
name = "NUM"
kind = "Number"
"#;

/// The examples that take nothing from other examples.
fn of_values(rt: &HostRuntime, alloc: Global) -> Option<()> {
    languages::use_grammar_reports(rt, alloc)?;
    servers::use_editor_replies(rt, alloc)?;
    servers::use_questions(rt, alloc)?;
    servers::use_ide(rt, alloc)
}

/// The examples that take a language, or its grammar.
fn by_language(rt: &HostRuntime, alloc: Global, language: &Language) -> Option<()> {
    languages::use_settings(rt, alloc, language.grammar())?;
    languages::use_settings_files(rt, alloc, language.grammar())?;
    documents::use_colours(rt, alloc, language)?;
    documents::use_token_rows(rt, alloc, language)?;
    documents::use_forests(rt, alloc, language)?;
    documents::use_flat_trees(rt, alloc, language)?;
    documents::use_completion(rt, alloc, language)
}

/// The example that takes settings with symbols.
fn by_symbols(rt: &HostRuntime, alloc: Global, language: &Language) -> Option<()> {
    let settings = read(alloc, language.grammar(), SYMBOLS).ok()?;
    documents::use_outline(rt, alloc, language, &settings)
}

/// The examples that take what is shown of a language.
fn by_shown(rt: &HostRuntime, alloc: Global, language: &Language, shown: &Shown) -> Option<()> {
    let (settings, texts) = (&shown.settings, &shown.texts);
    languages::use_wording(rt, alloc, language.grammar(), settings)?;
    documents::use_hover(rt, alloc, language, settings)?;
    copies::use_faults(rt, alloc, language, settings, texts)
}

/// The examples that take tables, and of these those that take the ranks of rules too.
fn by_tables(
    rt: &HostRuntime,
    alloc: Global,
    language: &Language,
    texts: &[Option<RuleText>],
) -> Option<()> {
    let tables = language.tables();
    copies::use_states(rt, alloc, tables)?;
    let ranks = ranks(alloc, language.grammar(), texts).ok()?;
    copies::use_mending(rt, alloc, tables, &ranks)?;
    let mut pile = Pile::new(alloc, tables).ok()?;
    let _goes_on = pile.read_all(&[Kind::Rule(2), Kind::Rule(0)]).ok()?;
    copies::use_remedies(rt, alloc, &ranks, &pile)
}

/// The examples of a language.
fn of_language(rt: &HostRuntime, alloc: Global) -> Option<()> {
    let language = Language::load(alloc, SUMS).ok()?;
    by_language(rt, alloc, &language)?;
    by_symbols(rt, alloc, &language)?;
    let shown = servers::shown_of(alloc, &language)?;
    by_shown(rt, alloc, &language, &shown)?;
    by_tables(rt, alloc, &language, &shown.texts)?;
    servers::use_shown(rt, alloc, language, shown)
}

/// The examples of a core with an open document.
fn of_core(rt: &HostRuntime, alloc: Global) -> Option<()> {
    let language = Language::load(alloc, SUMS).ok()?;
    let shown = servers::shown_of(alloc, &language)?;
    let known = servers::opened(alloc, language, shown)?;
    servers::use_own_replies(rt, alloc, &known)?;
    let language = Language::load(alloc, SUMS).ok()?;
    servers::use_reopening(rt, alloc, known.core.server(), language)
}

fn main(rt: HostRuntime) -> ExitCode {
    let alloc = rt.alloc();
    if of_values(&rt, alloc).is_some()
        && of_language(&rt, alloc).is_some()
        && of_core(&rt, alloc).is_some()
    {
        ExitCode::SUCCESS
    } else {
        ExitCode::FAILURE
    }
}
