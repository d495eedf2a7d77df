//! The results of requests.

ghost use Rattle.std.specs.Prelude.{Some, None, map, OnOk};
ghost use Rattle.serde_json.specs.Events.{SendsValue};
ghost use Rattle.replies.specs.Replies.{capability_list, capabilities, synchronisation, document_data, row_data, row_view, rows_data, stats_data, fold_data, folds_data, range_data, with_parent, nested, selection_data, selections_data};
ghost use Rattle.replies.specs.Sending.{outcome_data};

use crate::parts::{send_integer, send_range};
use crate::reply::unit_name;
use definitions::{Range, Row, Stats, Unit};
use serde::Serializer;

/// A token's name, and the lines and characters where it starts and ends.
fn send_row<S: Serializer>(row: &Row, out: &mut S) -> Result<(), S::Error>
    ensures { OnOk result
        (SendsValue (row_data (row_view row.now)) (S.written out.old) (S.written out.new)) }
{
    let Range { start, end } = row.range;
    out.begin_seq(Some(5))?;
    out.str(row.name.as_str())?;
    out.u64(start.line as u64)?;
    out.u64(start.character as u64)?;
    out.u64(end.line as u64)?;
    out.u64(end.character as u64)?;
    out.end_seq()
}

/// The rows of tokens, in order.
fn send_rows<S: Serializer>(rows: &[Row], out: &mut S) -> Result<(), S::Error>
    ensures { OnOk result
        (SendsValue (rows_data (map row_view rows.now)) (S.written out.old) (S.written out.new)) }
{
    out.begin_seq(Some(rows.len()))?;
    for row in rows {
        send_row(row, out)?;
    }
    out.end_seq()
}

/// How text is synchronised (LSP 3.17, "TextDocumentSyncOptions"), for the JSON writer.
pub fn send_synchronisation<S: Serializer>(out: &mut S) -> Result<(), S::Error>
    ensures { OnOk result (SendsValue synchronisation (S.written out.old) (S.written out.new)) }
{
    out.begin_map(Some(2))?;
    out.key("change")?;
    out.u64(2)?;
    out.key("openClose")?;
    out.bool(true)?;
    out.end_map()
}

/// What the server can do, where positions count this unit (LSP 3.17, "ServerCapabilities").
fn send_capability_list<S: Serializer>(unit: Unit, out: &mut S) -> Result<(), S::Error>
    ensures { OnOk result
        (SendsValue (capability_list unit) (S.written out.old) (S.written out.new)) }
{
    out.begin_map(Some(4))?;
    out.key("foldingRangeProvider")?;
    out.bool(true)?;
    out.key("positionEncoding")?;
    out.str(unit_name(unit))?;
    out.key("selectionRangeProvider")?;
    out.bool(true)?;
    out.key("textDocumentSync")?;
    send_synchronisation(out)?;
    out.end_map()
}

/// The reply to `initialize` (LSP 3.17, "InitializeResult").
fn send_capabilities<S: Serializer>(unit: Unit, out: &mut S) -> Result<(), S::Error>
    ensures { OnOk result (SendsValue (capabilities unit) (S.written out.old) (S.written out.new)) }
{
    out.begin_map(Some(1))?;
    out.key("capabilities")?;
    send_capability_list(unit, out)?;
    out.end_map()
}

/// A document's text and version.
fn send_document<S: Serializer>(version: i32, text: &str, out: &mut S) -> Result<(), S::Error>
    ensures { OnOk result
        (SendsValue (document_data version text.now) (S.written out.old) (S.written out.new)) }
{
    out.begin_map(Some(2))?;
    out.key("text")?;
    out.str(text)?;
    out.key("version")?;
    send_integer(version, out)?;
    out.end_map()
}

/// How much there is of a document, and what its last edit made.
fn send_stats<S: Serializer>(stats: Stats, out: &mut S) -> Result<(), S::Error>
    ensures { OnOk result (SendsValue (stats_data stats) (S.written out.old) (S.written out.new)) }
{
    out.begin_map(Some(6))?;
    out.key("branches")?;
    out.u64(stats.branches)?;
    out.key("built")?;
    out.u64(stats.built)?;
    out.key("edit")?;
    out.u64(stats.edit)?;
    out.key("nodes")?;
    out.u64(stats.nodes)?;
    out.key("scanned")?;
    out.u64(stats.scanned)?;
    out.key("tokens")?;
    out.u64(stats.tokens)?;
    out.end_map()
}

/// The first and last line of what can be folded (LSP 3.17, "FoldingRange").
fn send_fold<S: Serializer>(pair: (u32, u32), out: &mut S) -> Result<(), S::Error>
    ensures { OnOk result (SendsValue (fold_data pair) (S.written out.old) (S.written out.new)) }
{
    out.begin_map(Some(2))?;
    out.key("endLine")?;
    out.u64(pair.1 as u64)?;
    out.key("startLine")?;
    out.u64(pair.0 as u64)?;
    out.end_map()
}

/// The folds, in order.
fn send_folds<S: Serializer>(pairs: &[(u32, u32)], out: &mut S) -> Result<(), S::Error>
    ensures { OnOk result
        (SendsValue (folds_data pairs.now) (S.written out.old) (S.written out.new)) }
{
    out.begin_seq(Some(pairs.len()))?;
    for pair in pairs {
        send_fold(*pair, out)?;
    }
    out.end_seq()
}

/// The last range around others, which has no parent (LSP 3.17, "SelectionRange").
fn send_outermost<S: Serializer>(range: Range, out: &mut S) -> Result<(), S::Error>
    ensures { OnOk result
        (SendsValue (with_parent (range_data range) None) (S.written out.old) (S.written out.new)) }
{
    out.begin_map(Some(1))?;
    out.key("range")?;
    send_range(range, out)?;
    out.end_map()
}

/// A range, and those around it from inner to outer as its parents (LSP 3.17, "SelectionRange").
fn send_nested<S: Serializer>(range: Range, outer: &[Range], out: &mut S) -> Result<(), S::Error>
    ensures { OnOk result (SendsValue (with_parent (range_data range) (nested outer.now))
        (S.written out.old) (S.written out.new)) }
{
    let [parent, rest @ ..] = outer else {
        return send_outermost(range, out);
    };
    out.begin_map(Some(2))?;
    out.key("parent")?;
    send_nested(*parent, rest, out)?;
    out.key("range")?;
    send_range(range, out)?;
    out.end_map()
}

/// Ranges from inner to outer, each with the next one as its parent; `null` where there are none.
fn send_selection<S: Serializer>(ranges: &[Range], out: &mut S) -> Result<(), S::Error>
    ensures { OnOk result
        (SendsValue (selection_data ranges.now) (S.written out.old) (S.written out.new)) }
{
    match ranges {
        [] => out.unit(),
        [range, outer @ ..] => send_nested(*range, outer, out),
    }
}

/// The selections, in order.
fn send_selections<S: Serializer>(selections: &[Vec<Range>], out: &mut S) -> Result<(), S::Error>
    ensures { OnOk result (SendsValue (selections_data (map (λ s. s.items) selections.now))
        (S.written out.old) (S.written out.new)) }
{
    out.begin_seq(Some(selections.len()))?;
    for ranges in selections {
        send_selection(ranges, out)?;
    }
    out.end_seq()
}

/// What a request is answered with.
#[derive(Clone, Copy)]
pub(crate) enum Outcome<'r> {
    Null,
    Capabilities(Unit),
    Document(i32, &'r str),
    Rows(&'r [Row]),
    Tree(&'r str),
    Stats(Stats),
    Folds(&'r [(u32, u32)]),
    Selections(&'r [Vec<Range>]),
}

/// What a request is answered with.
pub(crate) fn send_outcome<S: Serializer>(outcome: Outcome<'_>, out: &mut S) -> Result<(), S::Error>
    ensures { OnOk result
        (SendsValue (outcome_data outcome.entry) (S.written out.old) (S.written out.new)) }
{
    match outcome {
        Outcome::Null => out.unit(),
        Outcome::Capabilities(unit) => send_capabilities(unit, out),
        Outcome::Document(version, text) => send_document(version, text, out),
        Outcome::Rows(rows) => send_rows(rows, out),
        Outcome::Tree(text) => out.str(text),
        Outcome::Stats(stats) => send_stats(stats, out),
        Outcome::Folds(pairs) => send_folds(pairs, out),
        Outcome::Selections(selections) => send_selections(selections, out),
    }
}
