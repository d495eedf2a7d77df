//! What words ask for, and the texts and statuses of faults.

use commands::{Fault, Words, words};
use frames::FrameFault;
use std::alloc::{AllocError, Global};
use std::process::Abort;

/// The words of a line.
fn split(rt: &impl Abort, alloc: Global, line: &str) -> Vec<String> {
    let mut given = Vec::new(alloc);
    for word in line.split_whitespace() {
        let word = String::from_str(alloc, word).expect(rt, "memory");
        given.push(word).expect(rt, "memory");
    }
    given
}

/// What is asked for: the command, and the paths that it names.
fn shown(alloc: Global, asked: &Words) -> Result<String, AllocError> {
    match asked {
        Words::Check(path) => format!(in alloc; "check of {path}"),
        Words::Parse(grammar, text) => format!(in alloc; "parse by {grammar} of {text}"),
        Words::Serve(path) => format!(in alloc; "serve by {path}"),
    }
}

/// The words of the line ask for this.
fn asks(rt: &impl Abort, alloc: Global, line: &str, wanted: &str) {
    let given = split(rt, alloc, line);
    let asked = words(alloc, &given)
        .expect(rt, "words")
        .expect(rt, "a command");
    let shown = shown(alloc, &asked).expect(rt, "memory");
    assert!(rt; shown.as_str() == wanted);
}

#[test]
fn commands_name_their_grammar(rt: HostRuntime) {
    for (line, wanted) in [
        ("serve grammars/g0.lr", "serve by grammars/g0.lr"),
        ("check grammars/g0.lr", "check of grammars/g0.lr"),
        ("parse g0.lr a/sum.txt", "parse by g0.lr of a/sum.txt"),
        ("check -", "check of -"),
        ("check -- -h", "check of -h"),
        ("parse g0.lr -- --", "parse by g0.lr of --"),
        ("serve g0.lr --", "serve by g0.lr"),
    ] {
        asks(&rt, rt.alloc(), line, wanted);
    }
}

/// The words of the line ask for nothing.
fn asks_for_nothing(rt: &impl Abort, alloc: Global, line: &str) {
    let given = split(rt, alloc, line);
    let asked = words(alloc, &given).expect(rt, "words");
    assert!(rt; asked.is_none(), "{line}");
}

#[test]
fn other_words_are_refused(rt: HostRuntime) {
    for line in [
        "",
        "-h",
        "-V",
        "help check",
        "chec g0.lr",
        "-- check g0.lr",
        "check -h",
        "check -g",
        "parse g0.lr",
        "serve g0.lr -- more",
    ] {
        asks_for_nothing(&rt, rt.alloc(), line);
    }
}

/// The fault is printed so, and ends the program with this status.
fn prints(rt: &impl Abort, alloc: Global, fault: Fault, text: &str, status: u8) {
    let printed = format!(in alloc; "{fault}").expect(rt, "memory");
    assert!(rt; printed.as_str() == text, "{text}");
    assert!(rt; fault.status() == status, "{text}");
}

#[test]
fn faults_of_words_and_files_have_their_texts(rt: HostRuntime) {
    let alloc = rt.alloc();
    let usage = "usage: lrls check GRAMMAR | parse GRAMMAR TEXT | serve GRAMMAR";
    prints(&rt, alloc, Fault::CommandLine, usage, 2);
    let states = "lrls: over 4096 automaton states";
    prints(&rt, alloc, Fault::TooManyStates, states, 2);
    let sets = "lrls: over 8192 table states";
    prints(&rt, alloc, Fault::TooManySets, sets, 2);
    let grammar = "lrls: grammar is not UTF-8";
    prints(&rt, alloc, Fault::NotUtf8, grammar, 2);
    let text = "lrls: text is not UTF-8";
    prints(&rt, alloc, Fault::TextNotUtf8, text, 1);
    let large = "lrls: text too large";
    prints(&rt, alloc, Fault::TextTooLarge, large, 1);
    let path = String::from_str(alloc, "a/b").expect(&rt, "memory");
    let fault = Fault::CannotRead(path);
    prints(&rt, alloc, fault, "lrls: cannot read a/b", 1);
}

#[test]
fn faults_of_devices_have_their_texts(rt: HostRuntime) {
    let alloc = rt.alloc();
    prints(&rt, alloc, Fault::Memory, "lrls: no memory", 1);
    let frame = Fault::Frame(FrameFault::SecondLength);
    prints(&rt, alloc, frame, "lrls: frame fault F3", 1);
    prints(&rt, alloc, Fault::Read, "lrls: read fault", 1);
    prints(&rt, alloc, Fault::Write, "lrls: write fault", 1);
}
