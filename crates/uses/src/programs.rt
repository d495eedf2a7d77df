//! Examples of the server and of what the program prints.

use commands::{load, parse};
use docs::{Language, Unit};
use frames::{ReadInput, WriteOutput};
use rpc::read;
use server::Server;
use serving::{Served, serve};
use sessions::Phase;
use sessions::laws::each_text_is_its_edits;
use std::alloc::Global;
use worked::SUMS;

/// The example of `sessions`.
pub fn use_sessions(rt: &HostRuntime) -> Option<()> {
    each_text_is_its_edits();
    let phase = Phase::Ready(Unit::Utf16);
    println!(rt; "{phase:?}").ok()
    // Ready(Utf16)
}

/// The example of `server`.
pub fn use_server(rt: &HostRuntime, alloc: Global) -> Option<()> {
    let language = Language::load(alloc, SUMS).ok()?;
    let mut server = Server::new(alloc, language);
    let message = read(alloc, br#"{"jsonrpc":"2.0","method":"exit"}"#);
    let out = server.handle(alloc, message).ok()?;
    println!(rt; "{} replies; status {:?}", out.replies.len(), out.stop).ok()
    // 0 replies; status Some(1)
}

/// The example of `commands`.
pub fn use_commands(rt: &HostRuntime, alloc: Global) -> Option<()> {
    let language = load(alloc, SUMS.as_bytes()).ok()?.ok()?;
    let printed = parse(alloc, &language, b"1 2").ok()?;
    let line = str::from_utf8(&printed.out).unwrap_or("");
    println!(rt; "status {}: {}", printed.status, line.trim_end()).ok()
    // status 1: 0:2-0:3: unexpected NUM; expected PLUS, end
}

/// The example of `serving`.
pub fn use_serving(rt: &HostRuntime, alloc: Global) -> Option<()> {
    let session = b"Content-Length: 33\r\n\r\n{\"jsonrpc\":\"2.0\",\"method\":\"exit\"}";
    let mut input = ReadInput::new(session.as_slice());
    let mut written = Vec::new(alloc);
    let mut output = WriteOutput::new(&mut written);
    match serve(alloc, SUMS.as_bytes(), &mut input, &mut output).ok()? {
        Served::Ended(outcome) => println!(rt; "{outcome:?}").ok(),
        Served::Refused(printed) => println!(rt; "status {}", printed.status).ok(),
    }
    // Ok(1)
}
