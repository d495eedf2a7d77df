//! The words of a command line, by `clap`.

ghost use Rattle.std.specs.Prelude.{◌≡◌, ◌⊎◌, List, [], ◌∷◌, Some, false, codes, map, option_map, string_bytes, IfOk, IsOkAnd};
ghost use Rattle.std.specs.List.{All};
ghost use Rattle.std.specs.Str.{IsUtf8};
ghost use Rattle.clap.specs.Words.{AddsSubcommand, Row, Text, app_of, first_of, found_of, rows_of, subcommand_rows_of};
ghost use Rattle.clap.specs.declared.builder.command.Command.TheViews.{out-Command as fields_of};
ghost use Rattle.commands.specs.Arguments.{AsksFor, grammar_in, lrls, one, text_in, two};
ghost use Rattle.commands.specs.CommandLines.{IsRead};

use crate::asked::Words;
use clap::error::ErrorKind;
use clap::{Arg, ArgMatches, Command, Error};
use std::alloc::{AllocError, Global};

/// A command that takes a grammar's path.
fn with_grammar<'a>(alloc: Global, name: &'a str) -> Result<Command<'a>, AllocError>
    ensures command { IfOk result (λ c. app_of c ≡ one name.entry.now) }
    ensures local { IfOk result (λ c. (fields_of c).has_globals ≡ false) }
{
    let grammar = Arg::new(alloc, "GRAMMAR").required(true);
    Command::new(alloc, name).arg(grammar)
}

/// The command `parse`, which takes a text's path too.
fn parse_command<'a>(alloc: Global) -> Result<Command<'a>, AllocError>
    ensures command { IfOk result (λ c. app_of c ≡ two) }
    ensures local { IfOk result (λ c. (fields_of c).has_globals ≡ false) }
{
    with_grammar(alloc, "parse")?.arg(Arg::new(alloc, "TEXT").required(true))
}

/// A command with another one below it, where there was memory for that.
fn with_subcommand<'a>(
    command: Command<'a>,
    below: Result<Command<'a>, AllocError>,
) -> Result<Command<'a>, AllocError>
    ensures { IfOk result (λ c. IsOkAnd below.entry (λ b. AddsSubcommand command.entry b c)) }
{
    command.subcommand(below?)
}

/// `lrls check GRAMMAR`, `lrls parse GRAMMAR TEXT` and `lrls serve GRAMMAR`, as the words say
/// them.
fn command<'a>(alloc: Global) -> Result<Command<'a>, AllocError>
    ensures { IfOk result (λ c. app_of c ≡ lrls) }
{
    let lrls = Command::new(alloc, "lrls").subcommand_required(true);
    let lrls = with_subcommand(lrls, with_grammar(alloc, "check"))?;
    let lrls = with_subcommand(lrls, parse_command(alloc))?;
    with_subcommand(lrls, with_grammar(alloc, "serve"))
}

/// The path that a command was given under this name.
fn path_of(alloc: Global, matches: &ArgMatches, name: &str) -> Result<Option<String>, AllocError>
    ensures { IfOk result (λ path.
        option_map string_bytes path ≡ first_of name.now (rows_of (found_of matches.now))) }
{
    match matches.get_str(name) {
        Some(path) => Ok(Some(String::from_str(alloc, path)?)),
        None => Ok(None),
    }
}

/// The command that was matched.
fn matched_command(alloc: Global, matches: &ArgMatches) -> Result<Option<Words>, AllocError>
    ensures one { IfOk result (λ asked. (name g : Text) (rows : List Row)
        → (name ≡ codes "check") ⊎ (name ≡ codes "serve")
        → subcommand_rows_of matches.now ≡ Some (name, rows)
        → grammar_in rows ≡ Some g → AsksFor asked name (g ∷ [])) }
    ensures two { IfOk result (λ asked. (g x : Text) (rows : List Row)
        → subcommand_rows_of matches.now ≡ Some (codes "parse", rows)
        → grammar_in rows ≡ Some g → text_in rows ≡ Some x
        → AsksFor asked (codes "parse") (g ∷ x ∷ [])) }
{
    match matches.subcommand() {
        Some(("check", check)) => Ok(path_of(alloc, check, "GRAMMAR")?.map(Words::Check)),
        Some(("parse", parse)) => parse_paths(alloc, parse),
        Some(("serve", serve)) => Ok(path_of(alloc, serve, "GRAMMAR")?.map(Words::Serve)),
        _ => Ok(None),
    }
}

/// The two paths that `parse` was given.
fn parse_paths(alloc: Global, matches: &ArgMatches) -> Result<Option<Words>, AllocError>
    ensures { IfOk result (λ asked. (g x : Text)
        → grammar_in (rows_of (found_of matches.now)) ≡ Some g
        → text_in (rows_of (found_of matches.now)) ≡ Some x
        → AsksFor asked (codes "parse") (g ∷ x ∷ [])) }
{
    match (
        path_of(alloc, matches, "GRAMMAR")?,
        path_of(alloc, matches, "TEXT")?,
    ) {
        (Some(grammar), Some(text)) => Ok(Some(Words::Parse(grammar, text))),
        _ => Ok(None),
    }
}

/// What a whole command line asks for, its first word the program's name.
fn asked_by(alloc: Global, line: &[&str]) -> Result<Option<Words>, AllocError>
    ensures { IfOk result (λ asked. (words : List Text)
        → map (λ s. s.now) line.now ≡ codes "lrls" ∷ words → All IsUtf8 words
        → IsRead words asked) }
{
    match command(alloc)?.try_get_matches_from(line) {
        Ok(matches) => matched_command(alloc, &matches),
        Err(error) if error.kind() == ErrorKind::OutOfMemory => Err(AllocError),
        Err(_) => Ok(None),
    }
}

/// Reads the words after the program's name: `None` where they are no command of the program, a
/// request for help included. Refuses for memory alone.
pub fn words(alloc: Global, given: &[String]) -> Result<Option<Words>, AllocError>
    ensures { IfOk result (IsRead (map string_bytes given.now)) }
{
    let mut line = Vec::with_capacity(alloc, given.len().saturating_add(1))?;
    line.push("lrls")?;
    for word in given {
        line.push(word.as_str())?;
    }
    asked_by(alloc, &line)
}
