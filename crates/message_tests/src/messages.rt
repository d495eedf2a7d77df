//! What contents are read as, and the bytes of replies, once of each kind. `tests/program` has the
//! rows that the built program shows.

use rpc::{
    Call, Change, Diagnostic, Id, Log, Loss, Message, Note, Position, Range, Refusal, Reply, Row,
    RpcFault, Stats, each_text_is_unicode, read, received_exists, received_unique, to_bytes,
};
use std::alloc::Global;
use std::process::Abort;
use std::rc::Rc;

/// The place on line 0 before a character.
fn before(character: u32) -> Position {
    Position { line: 0, character }
}

/// A fault without the version of its document. No session publishes one.
fn fault_without_version(rt: &impl Abort, alloc: Global) -> Reply {
    let range = Range {
        start: before(0),
        end: before(0),
    };
    let message = String::from_str(alloc, "unexpected end; expected NUM, LP");
    let message = message.expect(rt, "memory");
    Reply::Diagnostics {
        uri: String::from_str(alloc, "a:x").expect(rt, "memory"),
        version: None,
        diagnostic: Some(Diagnostic { range, message }),
    }
}

/// The counts after more edits than are counted.
fn greatest_count() -> Reply {
    let stats = Stats {
        edit: u64::MAX,
        scanned: 3,
        tokens: 7,
        branches: 8,
        built: 4,
        nodes: 10,
    };
    Reply::Stats {
        id: Id::Number(2),
        stats,
    }
}

/// That a document is lost because memory was refused.
fn no_memory(rt: &impl Abort, alloc: Global) -> Reply {
    let id = String::from_str(alloc, r#"a""#).expect(rt, "memory");
    Reply::Error {
        id: Some(Id::Text(id)),
        refusal: Refusal::DocumentLost(Loss::Memory),
    }
}

/// The reply has these bytes.
fn has_bytes(rt: &impl Abort, alloc: Global, reply: Reply, content: &str) {
    let bytes = to_bytes(alloc, &reply).expect(rt, "memory");
    assert!(rt; bytes.as_slice() == content.as_bytes(), "at {content}");
}

#[test]
fn replies_have_their_bytes(rt: HostRuntime) {
    let alloc = rt.alloc();
    let content = r#"{"id":3,"jsonrpc":"2.0","result":null}"#;
    has_bytes(&rt, alloc, Reply::Null { id: Id::Number(3) }, content);
    let content =
        r#"{"id":2,"jsonrpc":"2.0","result":{"branches":8,"built":4,"edit":18446744073709551615,"nodes":10,"scanned":3,"tokens":7}}"#;
    has_bytes(&rt, alloc, greatest_count(), content);
    let content =
        r#"{"jsonrpc":"2.0","method":"textDocument/publishDiagnostics","params":{"diagnostics":[{"message":"unexpected end; expected NUM, LP","range":{"end":{"character":0,"line":0},"start":{"character":0,"line":0}},"severity":1,"source":"lrls"}],"uri":"a:x"}}"#;
    has_bytes(&rt, alloc, fault_without_version(&rt, alloc), content);
    let content =
        r#"{"error":{"code":-32803,"message":"document lost: no memory"},"id":"a\"","jsonrpc":"2.0"}"#;
    has_bytes(&rt, alloc, no_memory(&rt, alloc), content);
    let log = Log::Lost(Loss::Memory);
    let content =
        r#"{"jsonrpc":"2.0","method":"window/logMessage","params":{"message":"document lost: no memory","type":1}}"#;
    has_bytes(&rt, alloc, Reply::Log { log }, content);
}

/// The token of this name from the start of the line up to a character.
fn row(rt: &impl Abort, alloc: Global, name: &str, end: u32) -> Row {
    let range = Range {
        start: before(0),
        end: before(end),
    };
    let name = String::from_str(alloc, name).expect(rt, "memory");
    let name = Rc::new(alloc, name).expect(rt, "memory");
    Row { name, range }
}

/// A range in another, and no ranges.
fn two_selections(rt: &impl Abort, alloc: Global) -> Vec<Vec<Range>> {
    let inner = Range {
        start: before(1),
        end: before(2),
    };
    let outer = Range {
        start: before(0),
        end: before(3),
    };
    let nested = Vec::from_array(alloc, [inner, outer]).expect(rt, "memory");
    Vec::from_array(alloc, [nested, Vec::new(alloc)]).expect(rt, "memory")
}

#[test]
fn lists_have_their_bytes(rt: HostRuntime) {
    let alloc = rt.alloc();
    let named = [row(&rt, alloc, r#"a"b"#, 3), row(&rt, alloc, "WS", 4)];
    let rows = Vec::from_array(alloc, named).expect(&rt, "memory");
    let content = r#"{"id":-5,"jsonrpc":"2.0","result":[["a\"b",0,0,0,3],["WS",0,0,0,4]]}"#;
    has_bytes(
        &rt,
        alloc,
        Reply::Tokens {
            id: Id::Number(-5),
            rows,
        },
        content,
    );
    let pairs = Vec::from_array(alloc, [(1, 2), (0, 3)]).expect(&rt, "memory");
    let content =
        r#"{"id":2147483647,"jsonrpc":"2.0","result":[{"endLine":2,"startLine":1},{"endLine":3,"startLine":0}]}"#;
    has_bytes(
        &rt,
        alloc,
        Reply::Folds {
            id: Id::Number(i32::MAX),
            pairs,
        },
        content,
    );
    let selections = two_selections(&rt, alloc);
    let content =
        r#"{"id":0,"jsonrpc":"2.0","result":[{"parent":{"range":{"end":{"character":3,"line":0},"start":{"character":0,"line":0}}},"range":{"end":{"character":2,"line":0},"start":{"character":1,"line":0}}},null]}"#;
    has_bytes(
        &rt,
        alloc,
        Reply::Selections {
            id: Id::Number(0),
            selections,
        },
        content,
    );
}

/// Checks `12` in the place of a character, and `3` in the place of the whole text.
fn check_changes(rt: &impl Abort, changes: &[Change]) {
    let range = Range {
        start: before(0),
        end: before(1),
    };
    assert!(rt; changes.len() == 2);
    assert!(rt; (changes[0].text.as_str(), changes[0].range) == ("12", Some(range)));
    assert!(rt; (changes[1].text.as_str(), changes[1].range) == ("3", None));
}

#[test]
fn a_change_is_read(rt: HostRuntime) {
    let content =
        br#"{"jsonrpc":"2.0","method":"textDocument/didChange","params":{"textDocument":{"uri":"a:x","version":2},"contentChanges":[{"range":{"start":{"line":0,"character":0},"end":{"line":0,"character":1}},"text":"12"},{"text":"3"}]}}"#;
    let outcome = read(rt.alloc(), content);
    let Ok(
        Message::Notice(
            Note::DidChange {
                uri,
                version,
                changes,
            },
        ),
    ) = &outcome
    else {
        panic!(rt; "no change");
    };
    assert!(rt; (uri.as_str(), *version) == ("a:x", 2));
    check_changes(&rt, changes);
}

#[test]
fn a_request_for_selections_is_read(rt: HostRuntime) {
    let content =
        br#"{"jsonrpc":"2.0","id":4,"method":"textDocument/selectionRange","params":{"textDocument":{"uri":"a:x"},"positions":[{"line":3,"character":4},{"line":0,"character":1}]}}"#;
    let outcome = read(rt.alloc(), content);
    let Ok(Message::Request(Id::Number(4), Call::SelectionRange { uri, positions })) = &outcome
    else {
        panic!(rt; "no request for selections");
    };
    assert!(rt; uri.as_str() == "a:x");
    let first = Position {
        line: 3,
        character: 4,
    };
    assert!(rt; positions.as_slice() == [first, before(1)].as_slice());
}

/// What a text of a document between these quotes is read as, where the content is a message.
fn text_of_quoted(rt: &impl Abort, alloc: Global, quoted: &str) -> Option<String> {
    let content = format!(in alloc;
        r#"{{"jsonrpc":"2.0","method":"textDocument/didOpen","params":{{"textDocument":{{"uri":"a:x","version":1,"text":{quoted}}}}}}}"#
    );
    let content = content.expect(rt, "memory");
    match read(alloc, content.as_bytes()) {
        Ok(Message::Notice(Note::DidOpen { text, .. })) => Some(text),
        Err(RpcFault::Parse) => None,
        _ => panic!(rt; "no document at {quoted}"),
    }
}

#[test]
fn surrogates_stand_in_pairs(rt: HostRuntime) {
    let alloc = rt.alloc();
    let pair = text_of_quoted(&rt, alloc, r#""\ud83d\ude00""#);
    assert!(rt; pair.as_ref().map(String::as_str) == Some("\u{1f600}"));
    for quoted in [
        r#""\ud83d""#,
        r#""\ude00""#,
        r#""\ude00\ud83d""#,
        r#""\ud83dx""#,
    ] {
        assert!(rt; text_of_quoted(&rt, alloc, quoted).is_none(), "at {quoted}");
    }
}

#[test]
fn laws_hold(_rt: HostRuntime) {
    received_unique();
    received_exists();
    each_text_is_unicode();
}
