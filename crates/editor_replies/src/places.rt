//! What stands at a position of a document: a text about it, and brackets.

ghost use Rattle.std.specs.Prelude.{◌≡◌, option_map, OnOk};
ghost use Rattle.serde_json.specs.Events.{SendsValue};
ghost use Rattle.editor_replies.specs.Sent.{hover_view, markup_name, pair_view};
ghost use Rattle.editor_replies.specs.Sending.{brackets_result, content_data, highlight_data, hover_data, hover_result, pair_data};

use definitions::Range;
use hover::{BracketPair, HoverText, Markup};
use replies::send_range;
use serde::Serializer;

/// The number of a highlight that is neither read nor written (LSP 3.17,
/// "DocumentHighlightKind").
const TEXT: u64 = 1;

/// The name of a form of texts (LSP 3.17, "MarkupKind").
fn markup_name(markup: Markup) -> &'static str
    ensures { result.now ≡ markup_name markup }
{
    match markup {
        Markup::Plain => "plaintext",
        Markup::Markdown => "markdown",
    }
}

/// A text in its form (LSP 3.17, "MarkupContent").
fn send_content<S: Serializer>(form: &str, text: &str, out: &mut S) -> Result<(), S::Error>
    ensures { OnOk result
        (SendsValue (content_data form.now text.now) (S.written out.old) (S.written out.new)) }
{
    out.begin_map(Some(2))?;
    out.key("kind")?;
    out.str(form)?;
    out.key("value")?;
    out.str(text)?;
    out.end_map()
}

/// A text about a range (LSP 3.17, "Hover").
fn send_text<S: Serializer>(hover: &HoverText, form: Markup, out: &mut S) -> Result<(), S::Error>
    ensures { OnOk result (SendsValue (hover_data (hover_view form hover.now))
        (S.written out.old) (S.written out.new)) }
{
    out.begin_map(Some(2))?;
    out.key("contents")?;
    send_content(markup_name(form), hover.text.as_str(), out)?;
    out.key("range")?;
    send_range(hover.range, out)?;
    out.end_map()
}

/// The text about what stands at a position; `null` where there is none
/// (LSP 3.17, "Hover Request").
pub(crate) fn send_hover<S: Serializer>(
    hover: &Option<HoverText>,
    form: Markup,
    out: &mut S,
) -> Result<(), S::Error>
    ensures { let shown = option_map (hover_view form) hover.now in
        OnOk result (SendsValue (hover_result shown) (S.written out.old) (S.written out.new)) }
{
    match hover {
        Some(hover) => send_text(hover, form, out),
        None => out.unit(),
    }
}

/// A range that is highlighted (LSP 3.17, "DocumentHighlight").
fn send_highlight<S: Serializer>(range: Range, out: &mut S) -> Result<(), S::Error>
    ensures { OnOk result
        (SendsValue (highlight_data range) (S.written out.old) (S.written out.new)) }
{
    out.begin_map(Some(2))?;
    out.key("kind")?;
    out.u64(TEXT)?;
    out.key("range")?;
    send_range(range, out)?;
    out.end_map()
}

/// Two brackets.
fn send_pair<S: Serializer>(pair: BracketPair, out: &mut S) -> Result<(), S::Error>
    ensures { OnOk result
        (SendsValue (pair_data (pair_view pair)) (S.written out.old) (S.written out.new)) }
{
    out.begin_seq(Some(2))?;
    send_highlight(pair.opening, out)?;
    send_highlight(pair.closing, out)?;
    out.end_seq()
}

/// The brackets of a node, if any (LSP 3.17, "Document Highlights Request").
pub(crate) fn send_brackets<S: Serializer>(
    pair: Option<BracketPair>,
    out: &mut S,
) -> Result<(), S::Error>
    ensures { let shown = option_map pair_view pair in
        OnOk result (SendsValue (brackets_result shown) (S.written out.old) (S.written out.new)) }
{
    match pair {
        Some(pair) => send_pair(pair, out),
        None => {
            out.begin_seq(Some(0))?;
            out.end_seq()
        }
    }
}
