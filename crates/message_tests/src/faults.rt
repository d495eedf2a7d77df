//! The texts of faults. The program prints few of them: the labels of frame faults and the faults
//! of grammar files, which the formats give.

use dfa::DfaFault;
use docs::{DocFault, Language, LoadFault};
use frames::{DeviceFault, FrameFault};
use rpc::{Id, RpcFault};
use sessions::RunFault;
use std::alloc::Global;
use std::process::Abort;
use tables::TableFault;
use text::TextFault;
use worked::CHOICES;

/// A text is this one.
fn reads(rt: &impl Abort, told: &str, text: &str) {
    assert!(rt; told == text);
}

#[test]
fn frame_faults_have_their_labels(rt: HostRuntime) {
    for (fault, label) in [
        (FrameFault::BadField, "F1"),
        (FrameFault::NoLength, "F2"),
        (FrameFault::SecondLength, "F3"),
        (FrameFault::BadLength, "F4"),
        (FrameFault::BadCharset, "F5"),
        (FrameFault::Truncated, "F6"),
        (FrameFault::Memory, "F7"),
        (FrameFault::LongHeader, "F8"),
    ] {
        let alone = format!(in rt.alloc(); "{fault}").expect(&rt, "memory");
        reads(&rt, alone.as_str(), label);
        let ended = RunFault::Frame(fault);
        let told = format!(in rt.alloc(); "{ended}").expect(&rt, "memory");
        reads(&rt, told.as_str(), label);
    }
}

#[test]
fn faults_of_runs_have_their_texts(rt: HostRuntime) {
    for (fault, text) in [
        (RunFault::Read, "the input failed"),
        (RunFault::Write, "the output failed"),
        (RunFault::Memory, NO_MEMORY),
    ] {
        let told = format!(in rt.alloc(); "{fault}").expect(&rt, "memory");
        reads(&rt, told.as_str(), text);
    }
    let device = format!(in rt.alloc(); "{DeviceFault}").expect(&rt, "memory");
    reads(&rt, device.as_str(), "device fault");
}

/// The text of a text and of a document that are too large.
const TOO_LARGE: &str = "the text would have more than 1,048,576 bytes in UTF-8";

/// The text of an automaton of too many states.
const TOO_MANY_STATES: &str = "the automaton would have more than 4,096 states";

/// The text of a canonical collection of too many sets.
const TOO_MANY_SETS: &str = "the canonical collection has more than 8,192 sets";

/// The text of memory that was refused.
const NO_MEMORY: &str = "memory was refused";

#[test]
fn faults_of_documents_have_their_texts(rt: HostRuntime) {
    for (fault, text) in [
        (DocFault::TooLarge, TOO_LARGE),
        (DocFault::Memory, NO_MEMORY),
    ] {
        let told = format!(in rt.alloc(); "{fault}").expect(&rt, "memory");
        reads(&rt, told.as_str(), text);
    }
    for (fault, text) in [
        (TextFault::TooLarge, TOO_LARGE),
        (TextFault::Memory, NO_MEMORY),
    ] {
        let told = format!(in rt.alloc(); "{fault}").expect(&rt, "memory");
        reads(&rt, told.as_str(), text);
    }
}

#[test]
fn faults_of_automata_and_tables_have_their_texts(rt: HostRuntime) {
    for (fault, text) in [
        (DfaFault::TooManyStates, TOO_MANY_STATES),
        (DfaFault::Memory, NO_MEMORY),
    ] {
        let told = format!(in rt.alloc(); "{fault}").expect(&rt, "memory");
        reads(&rt, told.as_str(), text);
    }
    let (sets, memory) = (TableFault::TooManySets, TableFault::Memory);
    let told = format!(in rt.alloc(); "{sets}").expect(&rt, "memory");
    reads(&rt, told.as_str(), TOO_MANY_SETS);
    let told = format!(in rt.alloc(); "{memory}").expect(&rt, "memory");
    reads(&rt, told.as_str(), NO_MEMORY);
}

/// A fault of a language has this text.
fn says(rt: &impl Abort, alloc: Global, fault: &LoadFault, text: &str) {
    let told = format!(in alloc; "{fault}").expect(rt, "memory");
    reads(rt, told.as_str(), text);
}

/// The fault of a grammar file.
fn loaded(rt: &impl Abort, alloc: Global, file: &str) -> LoadFault {
    let Err(fault) = Language::load(alloc, file) else {
        panic!(rt; "a language");
    };
    fault
}

#[test]
fn faults_of_languages_have_their_texts(rt: HostRuntime) {
    let alloc = rt.alloc();
    says(&rt, alloc, &LoadFault::TooManyStates, TOO_MANY_STATES);
    says(&rt, alloc, &LoadFault::TooManySets, TOO_MANY_SETS);
    says(&rt, alloc, &LoadFault::Memory, NO_MEMORY);
    says(
        &rt,
        alloc,
        &loaded(&rt, alloc, CHOICES),
        "the grammar isn't LR(1)",
    );
    says(&rt, alloc, &loaded(&rt, alloc, ""), "line 1: G1 first line");
}

/// A fault of a message has this text.
fn tells(rt: &impl Abort, alloc: Global, fault: &RpcFault, text: &str) {
    let told = format!(in alloc; "{fault}").expect(rt, "memory");
    reads(rt, told.as_str(), text);
}

#[test]
fn faults_of_messages_have_their_texts(rt: HostRuntime) {
    let alloc = rt.alloc();
    let none = RpcFault::Invalid { id: None };
    let unknown = RpcFault::Unknown { id: Id::Number(1) };
    let params = RpcFault::Params {
        id: Id::Number(1),
        initialize: false,
    };
    tells(&rt, alloc, &RpcFault::Parse, "the content is no JSON value");
    tells(
        &rt,
        alloc,
        &none,
        "the content is no request, notification or reply",
    );
    tells(&rt, alloc, &unknown, "the request has an unknown method");
    tells(
        &rt,
        alloc,
        &params,
        "the parameters of the request don't fit its method",
    );
    tells(&rt, alloc, &RpcFault::Memory, NO_MEMORY);
}
