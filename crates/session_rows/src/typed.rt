//! A session in which a text is typed.

ghost use Rattle.std.specs.Prelude.{◌≡◌, Ok, IfOk, Some, codes};
ghost use Rattle.definitions.specs.Patterns.{Matches};
ghost use Rattle.definitions.specs.Spelling.{Spells};
ghost use Rattle.session_rows.specs.Contents.{session_bytes};
ghost use Rattle.session_rows.specs.Known.{CameEither};
ghost use Rattle.session_rows.specs.Parts.{IsAtLeastOnce};
ghost use Rattle.session_rows.specs.Written.{typed, typed_and_lost};

use crate::memory::{Ran, over_input};
use definitions::laws::expected_unique;
use definitions::{Expression, Interval};
use docs::{Language, LoadFault};
use frames::{Input, ReadInput};
use patterns::one_text_has_one_meaning;
use std::alloc::{AllocError, Global};
use worked::SUMS;

/// An empty text is opened; `12` is typed in and its first character taken out; the text is asked
/// for.
const TYPING: [&str; 20] = [
    "Content-Length: 58\r\n\r\n",
    r#"{"jsonrpc":"2.0","id":1,"method":"initialize","params":{}}"#,
    "Content-Length: 128\r\n\r\n",
    r#"{"jsonrpc":"2.0","method":"textDocument/didOpen","#,
    r#""params":{"textDocument":{"uri":"a:x","languageId":"g","version":1,"#,
    r#""text":""}}}"#,
    "Content-Length: 296\r\n\r\n",
    r#"{"jsonrpc":"2.0","method":"textDocument/didChange","#,
    r#""params":{"textDocument":{"uri":"a:x","version":2},"#,
    r#""contentChanges":[{"range":{"start":{"line":0,"character":0},"#,
    r#""end":{"line":0,"character":0}},"text":"12"},"#,
    r#"{"range":{"start":{"line":0,"character":0},"end":{"line":0,"#,
    r#""character":1}},"text":""}]}}"#,
    "Content-Length: 83\r\n\r\n",
    r#"{"jsonrpc":"2.0","id":2,"method":"lr/text","#,
    r#""params":{"textDocument":{"uri":"a:x"}}}"#,
    "Content-Length: 44\r\n\r\n",
    r#"{"jsonrpc":"2.0","id":3,"method":"shutdown"}"#,
    "Content-Length: 33\r\n\r\n",
    r#"{"jsonrpc":"2.0","method":"exit"}"#,
];

/// The part at least once.
fn at_least_once(alloc: Global, part: Expression) -> Result<Expression, AllocError>
    ensures { IfOk result (λ e. IsAtLeastOnce part e) }
{
    Ok(Expression::Plus(Box::new(alloc, part)?))
}

/// An expression of `[0-9]+`, of which `2` is a text. All expressions of one text mean the same,
/// so the one that a grammar file's rule has means it too.
fn digits(alloc: Global) -> Result<Expression, AllocError>
    ensures spelled { IfOk result (λ e. Spells e (codes "[0-9]+")) }
    ensures two { IfOk result (λ e. Matches e (codes "2")) }
{
    let mut intervals = Vec::new(alloc);
    intervals.push(Interval {
        first: '0',
        last: '9',
    })?;
    let class = Expression::Class {
        negated: false,
        intervals,
    };
    at_least_once(alloc, class)
}

/// Runs it over sums, from an input in whatever pieces: the fault of the empty text is published,
/// and then none; or, where memory is refused in the change, that the document is lost.
pub fn typed_in<R: Input>(alloc: Global, input: &mut R) -> Result<Ran, LoadFault>
    requires works { R.failures input.old ≡ 0 }
    requires bytes { R.remaining input.old ≡ Some session_bytes }
    ensures { IfOk result (λ ran.
        CameEither (Ok 0) typed typed_and_lost ran.result ran.written.items) }
{
    expected_unique();
    one_text_has_one_meaning();
    let language = Language::load(alloc, SUMS)?;
    let _number = digits(alloc)?;
    Ok(over_input(alloc, language, input))
}

/// Runs it over sums, as `typed_in`, from bytes in memory.
pub fn typing(alloc: Global) -> Result<Ran, LoadFault>
    ensures { IfOk result (λ ran.
        CameEither (Ok 0) typed typed_and_lost ran.result ran.written.items) }
{
    let bytes = TYPING.concat(alloc)?;
    let mut input = ReadInput::new(bytes.as_bytes());
    typed_in(alloc, &mut input)
}
