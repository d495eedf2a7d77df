//! What a request asks that the core doesn't know.

ghost use Rattle.std.specs.Prelude.{◌≡◌, codes, option_map, IfOk};
ghost use Rattle.serde_json.specs.View.{view};
ghost use Rattle.rpc.specs.Fields.{text_at};
ghost use Rattle.rpc.specs.Reading.{uri_at};
ghost use Rattle.questions.specs.Asked.{about_document, asked_by, asked_in, asked_of, asked_view, grammar_asked, its_changes, lines_asked, name_asked, named_asked, nodes_asked, place_asked, question_view, range_asked};

use definitions::{Position, Range};
use rpc::{position_at, range_of, text_at, uri_at};
use serde_json::Value;
use std::alloc::{AllocError, Global};

/// What is asked of a document.
#[derive(Debug, Drop)]
pub enum Question {
    /// Its colours (LSP 3.17, "SemanticTokensParams").
    Colours,
    /// What has changed of its colours since the result of this name
    /// (LSP 3.17, "SemanticTokensDeltaParams").
    Changes(String),
    /// The colours of the lines from the first up to the second, that one left out
    /// (LSP 3.17, "SemanticTokensRangeParams").
    Lines(u32, u32),
    /// Its outline (LSP 3.17, "DocumentSymbolParams").
    Outline,
    /// What may follow there (LSP 3.17, "CompletionParams").
    Offers(Position),
    /// What stands there (LSP 3.17, "HoverParams").
    Hover(Position),
    /// The brackets of one node, of which one is there (LSP 3.17, "DocumentHighlightParams").
    Brackets(Position),
    /// What mends the faults at this range (LSP 3.17, "CodeActionParams").
    Fixes(Range),
    /// The tokens of the lines from the first up to the second, that one left out.
    Rows(u32, u32),
    /// The nodes of its tree around this position, and those that this value names; `null` names
    /// none.
    Nodes(Position, Value),
}

/// What a request asks.
#[derive(Debug, Drop)]
pub enum Asked {
    /// This of the document of this URI.
    About(String, Question),
    /// What is wrong with the grammar file of this text, or what settings are guessed for it.
    Grammar(String),
    /// Its parameters don't fit its method.
    Misfit,
}

/// The question, where the parameters name a document and a question is there.
fn about_document(
    alloc: Global,
    params: &Value,
    question: Option<Question>,
) -> Result<Asked, AllocError>
    ensures { IfOk result (λ asked.
        let question = option_map question_view question in
        asked_view asked ≡ about_document (uri_at (view params.now)) question) }
{
    match (uri_at(params), question) {
        (Some(uri), Some(question)) => Ok(Asked::About(String::from_str(alloc, uri)?, question)),
        _ => Ok(Asked::Misfit),
    }
}

/// The first line that the range has a part of, and the one after the last.
fn lines_asked(params: &Value) -> Option<(u32, u32)>
    ensures { result ≡ lines_asked (view params.now) }
{
    let range = range_asked(params)?;
    let (start, end) = (range.start.line, range.end.line);
    Some((start.min(end), start.max(end).saturating_add(1)))
}

/// What names the nodes that are asked for besides those around a position.
fn named_asked(params: &Value) -> Result<Value, AllocError>
    ensures { IfOk result (λ named. view named ≡ named_asked (view params.now)) }
{
    match params.get("open") {
        Some(open) => open.clone(),
        None => Ok(Value::Null),
    }
}

/// What `lrls/nodes` asks: the nodes around a position, and those that are named.
fn nodes_asked(params: &Value) -> Result<Option<Question>, AllocError>
    ensures { IfOk result (λ question.
        option_map question_view question ≡ nodes_asked (view params.now)) }
{
    match place_asked(params) {
        Some(position) => Ok(Some(Question::Nodes(position, named_asked(params)?))),
        None => Ok(None),
    }
}

/// The position that is asked about (LSP 3.17, "TextDocumentPositionParams").
fn place_asked(params: &Value) -> Option<Position>
    ensures { result ≡ place_asked (view params.now) }
{
    position_at(params, "position")
}

/// The range that is asked about (LSP 3.17, "CodeActionParams").
fn range_asked(params: &Value) -> Option<Range>
    ensures { result ≡ range_asked (view params.now) }
{
    range_of(params.get("range")?)
}

/// What `textDocument/semanticTokens/full/delta` asks: the changes since the result that it names.
fn changes_asked(alloc: Global, params: &Value) -> Result<Option<Question>, AllocError>
    ensures { IfOk result (λ question.
        option_map question_view question ≡ option_map its_changes (name_asked (view params.now))) }
{
    match text_at(params, "previousResultId") {
        Some(name) => Ok(Some(Question::Changes(String::from_str(alloc, name)?))),
        None => Ok(None),
    }
}

/// What `lrls/grammar` asks: of a grammar file of the text that the parameters have.
fn grammar_asked(alloc: Global, params: &Value) -> Result<Asked, AllocError>
    ensures { IfOk result (λ asked.
        asked_view asked ≡ grammar_asked (text_at (codes "text") (view params.now))) }
{
    match text_at(params, "text") {
        Some(text) => Ok(Asked::Grammar(String::from_str(alloc, text)?)),
        None => Ok(Asked::Misfit),
    }
}

/// What a request of this method asks, where the editor's server answers it.
fn asked_of(alloc: Global, method: &str, params: &Value) -> Result<Option<Asked>, AllocError>
    ensures { IfOk result (λ asked.
        option_map asked_view asked ≡ asked_of method.now (view params.now)) }
{
    let question = match method {
        "textDocument/semanticTokens/full" => Some(Question::Colours),
        "textDocument/semanticTokens/full/delta" => changes_asked(alloc, params)?,
        "textDocument/semanticTokens/range" => {
            lines_asked(params).map(|lines| Question::Lines(lines.0, lines.1))
        }
        "textDocument/documentSymbol" => Some(Question::Outline),
        "textDocument/completion" => place_asked(params).map(Question::Offers),
        "textDocument/hover" => place_asked(params).map(Question::Hover),
        "textDocument/documentHighlight" => place_asked(params).map(Question::Brackets),
        "textDocument/codeAction" => range_asked(params).map(Question::Fixes),
        "lrls/tokens" => lines_asked(params).map(|lines| Question::Rows(lines.0, lines.1)),
        "lrls/nodes" => nodes_asked(params)?,
        "lrls/grammar" => return Ok(Some(grammar_asked(alloc, params)?)),
        _ => return Ok(None),
    };
    Ok(Some(about_document(alloc, params, question)?))
}

/// What a JSON value asks. Without `params` they are `null`.
fn asked_by(alloc: Global, value: &Value) -> Result<Option<Asked>, AllocError>
    ensures { IfOk result (λ asked. option_map asked_view asked ≡ asked_by (view value.now)) }
{
    let none = Value::Null;
    let params = value.get("params").unwrap_or(&none);
    match text_at(value, "method") {
        Some(method) => asked_of(alloc, method, params),
        None => Ok(None),
    }
}

/// What a content asks that is a request of a method which the core doesn't know. Refuses for
/// memory alone.
pub(crate) fn asked_in(alloc: Global, content: &[u8]) -> Result<Option<Asked>, AllocError>
    ensures { IfOk result (λ asked. option_map asked_view asked ≡ asked_in content.now) }
{
    match Value::from_slice(alloc, content) {
        Ok(value) => asked_by(alloc, &value),
        Err(error) if error.is_memory() => Err(AllocError),
        Err(_) => Ok(None),
    }
}
