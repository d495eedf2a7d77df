//! The words of the command line, by `clap`.

use clap::error::ErrorKind;
use clap::{Arg, ArgAction, ArgMatches, Command};
use std::alloc::{AllocError, Global};

/// What the words ask for.
#[derive(Debug, Drop)]
pub struct CommandLine {
    /// A grammar file, a settings file, or the name of a language.
    pub language: String,
    /// The folder with the grammars of languages that are named.
    pub grammars: Option<String>,
    /// Whether settings are written, those that are guessed for the language, and nothing is
    /// served.
    pub writes_settings: bool,
}

/// `lrls-ide [--grammars FOLDER] [--settings] LANGUAGE`, as the words say it.
fn command<'a>(alloc: Global) -> Result<Command<'a>, AllocError> {
    let language = Arg::new(alloc, "LANGUAGE").required(true);
    let grammars = Arg::new(alloc, "grammars")
        .long("grammars")
        .value_name("FOLDER");
    let settings = Arg::new(alloc, "settings")
        .long("settings")
        .action(ArgAction::SetTrue);
    Command::new(alloc, "lrls-ide")
        .arg(language)?
        .arg(grammars)?
        .arg(settings)
}

/// The text that was given under this name.
fn text_of(alloc: Global, matches: &ArgMatches, name: &str) -> Result<Option<String>, AllocError> {
    match matches.get_str(name) {
        Some(text) => Ok(Some(String::from_str(alloc, text)?)),
        None => Ok(None),
    }
}

/// What the words after the program's name ask for: none where they are no command line of it.
/// Refuses for memory alone.
pub fn words(alloc: Global, given: &[String]) -> Result<Option<CommandLine>, AllocError> {
    let mut line = Vec::with_capacity(alloc, given.len().saturating_add(1))?;
    line.push("lrls-ide")?;
    for word in given {
        line.push(word.as_str())?;
    }
    match command(alloc)?.try_get_matches_from(&line) {
        Ok(matches) => match text_of(alloc, &matches, "LANGUAGE")? {
            Some(language) => Ok(Some(CommandLine {
                language,
                grammars: text_of(alloc, &matches, "grammars")?,
                writes_settings: matches.get_flag("settings"),
            })),
            None => Ok(None),
        },
        Err(error) if error.kind() == ErrorKind::OutOfMemory => Err(AllocError),
        Err(_) => Ok(None),
    }
}
