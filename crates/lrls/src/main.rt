//! The program `lrls`: checks grammars, parses texts, and is a language server on standard input
//! and output.
//!
//! It is no library: `main` reads the words of the command line and the files that they name,
//! writes what `commands` returns, and calls `serving::serve` on the standard streams. What can be
//! proved stands in the crates below; here it is proved that the program is safe and ends.
//!
//! `lrls check GRAMMAR` prints the names that no derivation from the start uses, and `ok`;
//! `lrls parse GRAMMAR TEXT` the tree of a text, or its fault; `lrls serve GRAMMAR` serves an
//! editor. docs/PROTOCOL.md has the methods, the messages and the exit statuses.
//!
//! Limits: those of README.md. Files are read whole; standard input is read as it comes, and the
//! replies to all whole frames are out before the next read.
#![tactic(auto)]

use commands::{Fault, Printed, Words, check, load, parse, words};
use frames::{ReadInput, WriteOutput};
use server::Language;
use serving::{Served, serve};
use std::io::{ErrorKind, Write};
use std::process::ExitCode;

/// The words that stand after the program's name.
fn given_words(rt: &HostRuntime) -> Result<Vec<String>, Fault> {
    let mut given = match std::env::args(rt) {
        Ok(given) => given,
        Err(error) if error.kind() == ErrorKind::OutOfMemory => return Err(Fault::Memory),
        Err(_) => return Err(Fault::CommandLine),
    };
    given.next();
    Ok(given.collect(rt.alloc())?)
}

/// The bytes of the file of this path.
fn bytes_of(rt: &HostRuntime, path: &str) -> Result<Vec<u8>, Fault> {
    match std::fs::read(rt, path) {
        Ok(bytes) => Ok(bytes),
        Err(error) if error.kind() == ErrorKind::OutOfMemory => Err(Fault::Memory),
        Err(_) => Err(Fault::CannotRead(String::from_str(rt.alloc(), path)?)),
    }
}

/// The language of the grammar in the file of this path, or what is printed where there is none.
fn load_language(rt: &HostRuntime, path: &str) -> Result<Result<Language, Printed>, Fault> {
    let bytes = bytes_of(rt, path)?;
    load(rt.alloc(), &bytes).map_err(Fault::from)
}

/// Prints what a command answers, and returns its status.
fn print(rt: &HostRuntime, printed: &Printed) -> Result<u8, Fault> {
    let _ = rt.stderr().write_all(&printed.err);
    rt.stdout()
        .write_all(&printed.out)
        .map_err(|_| Fault::Write)?;
    Ok(printed.status)
}

/// Parses the text in a file.
fn parse_file(rt: &HostRuntime, language: &Language, path: &str) -> Result<u8, Fault> {
    let bytes = bytes_of(rt, path)?;
    print(rt, &parse(rt.alloc(), language, &bytes)?)
}

/// Serves an editor until it leaves, by the grammar in the file of this path, or prints why it
/// gives no language.
fn serve_file(rt: &HostRuntime, path: &str) -> Result<u8, Fault> {
    let bytes = bytes_of(rt, path)?;
    let mut input = ReadInput::new(rt.stdin());
    let mut output = WriteOutput::new(rt.stdout());
    match serve(rt.alloc(), &bytes, &mut input, &mut output)? {
        Served::Ended(outcome) => outcome.map_err(Fault::from),
        Served::Refused(printed) => print(rt, &printed),
    }
}

/// Does what is asked, or prints why its grammar gives no language. No other file is read before
/// the grammar's.
fn perform(rt: &HostRuntime, asked: &Words) -> Result<u8, Fault> {
    let (grammar, text) = match asked {
        Words::Check(grammar) => (grammar, None),
        Words::Parse(grammar, text) => (grammar, Some(text)),
        Words::Serve(grammar) => return serve_file(rt, grammar.as_str()),
    };
    match (load_language(rt, grammar.as_str())?, text) {
        (Ok(language), Some(text)) => parse_file(rt, &language, text.as_str()),
        (Ok(language), None) => print(rt, &check(rt.alloc(), &language)?),
        (Err(printed), _) => print(rt, &printed),
    }
}

/// Does what the command line asks, and returns the exit status.
fn start(rt: &HostRuntime) -> Result<u8, Fault> {
    let given = given_words(rt)?;
    match words(rt.alloc(), &given)? {
        Some(asked) => perform(rt, &asked),
        None => Err(Fault::CommandLine),
    }
}

/// Does what the command line asks for; prints a fault on standard error.
fn main(rt: HostRuntime) -> ExitCode {
    match start(&rt) {
        Ok(status) => ExitCode::from(status),
        Err(fault) => {
            let _ = eprintln!(rt; "{fault}");
            ExitCode::from(fault.status())
        }
    }
}
