//! The program `lrls-ide`: a language server for editors, for the language of a grammar file, on
//! standard input and output.
//!
//! It is no library: `main` reads the words of the command line and the files that they name, and
//! calls `ide::run` on the standard streams. What can be proved stands in the crates below; here
//! it is proved that the program is safe and ends.
//!
//! `lrls-ide [--grammars FOLDER] LANGUAGE` serves an editor. LANGUAGE is a grammar file, a
//! settings file, which ends in `.toml`, or the name of a grammar in FOLDER. The settings of a
//! grammar stand beside it under the same name; without them they are guessed. With `--settings`
//! it writes the settings that are guessed for LANGUAGE, to be changed, and serves nothing.
//!
//! The files of the language are looked at while it is served: what was written in them counts
//! from the next message on. Until its grammar has no fault, a language without tokens is served.
//!
//! Limits: those of README.md. Files are read whole; standard input is read as it comes, and the
//! messages to all whole frames are out before the next read.
#![tactic(auto)]

mod files;
mod reading;
mod watched;
mod words;

use commands::{Fault, Printed, load};
use files::{Files, files_of, last};
use frames::{ReadInput, WriteOutput};
use ide::{Written, run};
use reading::{Found, blank, bytes_of, find_language, grammar_path, settings_text};
use server::Language;
use settings::guess;
use settings_files::to_toml;
use std::io::{ErrorKind, Write};
use std::process::ExitCode;
use watched::Watched;
use words::words;

/// What is said of words that are none of this program.
const USAGE: &str = "usage: lrls-ide [--grammars FOLDER] [--settings] LANGUAGE";

/// The words that stand after the program's name.
fn given_words(rt: &HostRuntime) -> Result<Vec<String>, Fault> {
    let mut given = match std::env::args(rt) {
        Ok(given) => given,
        Err(error) if error.kind() == ErrorKind::OutOfMemory => return Err(Fault::Memory),
        Err(_) => return Err(Fault::CommandLine),
    };
    given.next();
    Ok(given.collect(rt.alloc())?)
}

/// Prints what a command answers, and returns its status.
fn print(rt: &HostRuntime, printed: &Printed) -> Result<u8, Fault> {
    let _ = rt.stderr().write_all(&printed.err);
    rt.stdout()
        .write_all(&printed.out)
        .map_err(|_| Fault::Write)?;
    Ok(printed.status)
}

/// Writes the settings that are guessed for a language, to be changed.
fn write_guess(rt: &HostRuntime, language: &Language, path: &str) -> Result<u8, Fault> {
    let grammar = language.grammar();
    let settings = guess(rt.alloc(), grammar)?;
    let text = to_toml(rt.alloc(), grammar, &settings, Some(last(path)))?;
    match rt.stdout().write_all(text.as_bytes()) {
        Ok(()) => Ok(0),
        Err(_) => Err(Fault::Write),
    }
}

/// The path of the grammar of these files, which have to be there.
fn path_of(rt: &HostRuntime, files: &Files) -> Result<String, Fault> {
    let text = settings_text(rt, files.settings.as_str());
    Ok(grammar_path(rt.alloc(), files, &text)?)
}

/// Writes the settings that are guessed for the language of these files, or prints why the grammar
/// gives none.
fn write_settings(rt: &HostRuntime, files: &Files) -> Result<u8, Fault> {
    let path = path_of(rt, files)?;
    let bytes = bytes_of(rt, path.as_str())?;
    match load(rt.alloc(), &bytes)? {
        Ok(language) => write_guess(rt, &language, path.as_str()),
        Err(printed) => print(rt, &printed),
    }
}

/// The language that is served first: that of the files, or where their grammar has a fault, the
/// one without tokens.
fn first_of(rt: &HostRuntime, name: &str, found: Found) -> Result<Written, Fault> {
    match found {
        Found::Language(written, _) => Ok(written),
        Found::Fault(_) => match blank(rt.alloc(), name)? {
            Some(written) => Ok(written),
            None => Err(Fault::Memory),
        },
    }
}

/// Serves an editor until it leaves.
fn serve(rt: &HostRuntime, files: Files) -> Result<u8, Fault> {
    // A file that can't be read is told at once, and not to the editor.
    let path = path_of(rt, &files)?;
    bytes_of(rt, path.as_str())?;
    let found = find_language(rt, &files)?;
    let name = String::from_str(rt.alloc(), files.name.as_str())?;
    let mut watched = Watched::new(rt, files, &found)?;
    let Written { language, shown } = first_of(rt, name.as_str(), found)?;
    let mut input = ReadInput::new(rt.stdin());
    let mut output = WriteOutput::new(rt.stdout());
    run(
        rt.alloc(),
        language,
        shown,
        &mut input,
        &mut output,
        &mut watched,
    )
    .map_err(Fault::from)
}

/// Does what the command line asks, and returns the exit status.
fn start(rt: &HostRuntime) -> Result<u8, Fault> {
    let given = given_words(rt)?;
    let Some(asked) = words(rt.alloc(), &given)? else {
        return Err(Fault::CommandLine);
    };
    let files = files_of(rt.alloc(), &asked)?;
    if asked.writes_settings {
        write_settings(rt, &files)
    } else {
        serve(rt, files)
    }
}

/// Does what the command line asks for; prints a fault on standard error.
fn main(rt: HostRuntime) -> ExitCode {
    match start(&rt) {
        Ok(status) => ExitCode::from(status),
        Err(fault) => {
            let _ = match &fault {
                Fault::CommandLine => eprintln!(rt; "{}", USAGE),
                _ => eprintln!(rt; "{fault}"),
            };
            ExitCode::from(fault.status())
        }
    }
}
