//! The numbers of colours, and what has changed of them.

ghost use Rattle.std.specs.Prelude.{Some, None, option_map, OnOk};
ghost use Rattle.serde_json.specs.Data.{array};
ghost use Rattle.serde_json.specs.Events.{SendsValue};
ghost use Rattle.editor_replies.specs.Sent.{change_view};
ghost use Rattle.editor_replies.specs.Sending.{change_data, change_items, changes_result, colours_result, number_items};

use crate::sent::Change;
use serde::Serializer;

/// Numbers, in order.
fn send_numbers<S: Serializer>(numbers: &[u32], out: &mut S) -> Result<(), S::Error>
    ensures { OnOk result (SendsValue (array (number_items numbers.now))
        (S.written out.old) (S.written out.new)) }
{
    out.begin_seq(Some(numbers.len()))?;
    for number in numbers {
        out.u64(*number as u64)?;
    }
    out.end_seq()
}

/// The numbers of colours on some lines.
fn send_unnamed<S: Serializer>(numbers: &[u32], out: &mut S) -> Result<(), S::Error>
    ensures { OnOk result (SendsValue (colours_result None numbers.now)
        (S.written out.old) (S.written out.new)) }
{
    out.begin_map(Some(1))?;
    out.key("data")?;
    send_numbers(numbers, out)?;
    out.end_map()
}

/// The numbers of the colours of a document, with the name of the result.
fn send_named<S: Serializer>(name: &str, numbers: &[u32], out: &mut S) -> Result<(), S::Error>
    ensures { OnOk result (SendsValue (colours_result (Some name.now) numbers.now)
        (S.written out.old) (S.written out.new)) }
{
    out.begin_map(Some(2))?;
    out.key("data")?;
    send_numbers(numbers, out)?;
    out.key("resultId")?;
    out.str(name)?;
    out.end_map()
}

/// The numbers of colours (LSP 3.17, "SemanticTokens").
pub(crate) fn send_colours<S: Serializer>(
    name: Option<&str>,
    numbers: &[u32],
    out: &mut S,
) -> Result<(), S::Error>
    ensures { let name = option_map (λ text. text.now) name.entry in OnOk result
        (SendsValue (colours_result name numbers.now) (S.written out.old) (S.written out.new)) }
{
    match name {
        Some(name) => send_named(name, numbers, out),
        None => send_unnamed(numbers, out),
    }
}

/// A change of numbers (LSP 3.17, "SemanticTokensEdit").
fn send_change<S: Serializer>(change: &Change, out: &mut S) -> Result<(), S::Error>
    ensures { OnOk result (SendsValue (change_data (change_view change.now))
        (S.written out.old) (S.written out.new)) }
{
    out.begin_map(Some(3))?;
    out.key("data")?;
    send_numbers(&change.numbers, out)?;
    out.key("deleteCount")?;
    out.u64(change.delete_count as u64)?;
    out.key("start")?;
    out.u64(change.start as u64)?;
    out.end_map()
}

/// The list of one change.
fn send_one_change<S: Serializer>(change: &Change, out: &mut S) -> Result<(), S::Error>
    ensures { OnOk result (SendsValue (array (change_items (Some (change_view change.now))))
        (S.written out.old) (S.written out.new)) }
{
    out.begin_seq(Some(1))?;
    send_change(change, out)?;
    out.end_seq()
}

/// The list of no change.
fn send_no_change<S: Serializer>(out: &mut S) -> Result<(), S::Error>
    ensures { OnOk result
        (SendsValue (array (change_items None)) (S.written out.old) (S.written out.new)) }
{
    out.begin_seq(Some(0))?;
    out.end_seq()
}

/// The list of a change, if there is one.
fn send_change_list<S: Serializer>(change: &Option<Change>, out: &mut S) -> Result<(), S::Error>
    ensures { let change = option_map change_view change.now in OnOk result
        (SendsValue (array (change_items change)) (S.written out.old) (S.written out.new)) }
{
    match change {
        Some(change) => send_one_change(change, out),
        None => send_no_change(out),
    }
}

/// What has changed of the colours of a document (LSP 3.17, "SemanticTokensDelta").
pub(crate) fn send_changes<S: Serializer>(
    name: &str,
    change: &Option<Change>,
    out: &mut S,
) -> Result<(), S::Error>
    ensures { let change = option_map change_view change.now in OnOk result
        (SendsValue (changes_result name.now change) (S.written out.old) (S.written out.new)) }
{
    out.begin_map(Some(2))?;
    out.key("edits")?;
    send_change_list(change, out)?;
    out.key("resultId")?;
    out.str(name)?;
    out.end_map()
}
