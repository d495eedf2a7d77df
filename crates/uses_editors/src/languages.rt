//! Examples of what is shown of a grammar, and of settings.

use docs::Language;
use grammar::Grammar;
use grammar_reports::report;
use settings::{Settings, TOKEN_TYPES, guess};
use settings_files::read;
use std::alloc::Global;
use wording::{Found, message};

/// The example of `grammar_reports`.
pub fn use_grammar_reports(rt: &HostRuntime, alloc: Global) -> Option<()> {
    let text = "lrgrammar 1\ntoken A = [z-a]\nstart S\nS = A\n";
    let fault = Language::load(alloc, text).err()?;
    let report = report(alloc, &fault, text).ok()?;
    println!(rt; "line {}: {}", report.at.line, report.message).ok()
    // line 1: G6 bad pattern at 1: P3: the range is the wrong way round
}

/// The example of `settings`.
pub fn use_settings(rt: &HostRuntime, alloc: Global, grammar: &Grammar) -> Option<()> {
    let settings = guess(alloc, grammar).ok()?;
    let number = settings.colours.first().copied()??;
    let name = TOKEN_TYPES.get(number as usize)?;
    println!(rt; "NUM is a {name}").ok()
    // NUM is a number
}

/// The example of `settings_files`.
pub fn use_settings_files(rt: &HostRuntime, alloc: Global, grammar: &Grammar) -> Option<()> {
    let settings = read(alloc, grammar, "[colours]\nNUM = \"number\"\n").ok()?;
    let number = settings.colours.first().copied()??;
    println!(rt; "NUM has the type of number {number}").ok()
    // NUM has the type of number 19
}

/// The example of `wording`.
pub fn use_wording(
    rt: &HostRuntime,
    alloc: Global,
    grammar: &Grammar,
    settings: &Settings,
) -> Option<()> {
    let message = message(alloc, grammar, settings, Found::End, &[0, 2], false).ok()?;
    println!(rt; "{message}").ok()
    // unexpected end of the text; expected NUM or "("
}
