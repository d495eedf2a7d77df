//! What may stand at a range of a document.

ghost use Rattle.std.specs.Prelude.{map, OnOk};
ghost use Rattle.serde_json.specs.Data.{array};
ghost use Rattle.serde_json.specs.Events.{SendsValue};
ghost use Rattle.editor_replies.specs.Sent.{offer_view};
ghost use Rattle.editor_replies.specs.Sending.{offer_data, offer_items, offers_result, text_edit_data};

use crate::sent::Offered;
use definitions::Range;
use replies::send_range;
use serde::Serializer;

/// What a text edit puts at a range (LSP 3.17, "TextEdit").
fn send_text_edit<S: Serializer>(range: Range, text: &str, out: &mut S) -> Result<(), S::Error>
    ensures { OnOk result
        (SendsValue (text_edit_data range text.now) (S.written out.old) (S.written out.new)) }
{
    out.begin_map(Some(2))?;
    out.key("newText")?;
    out.str(text)?;
    out.key("range")?;
    send_range(range, out)?;
    out.end_map()
}

/// What may stand at a range (LSP 3.17, "CompletionItem").
fn send_offer<S: Serializer>(range: Range, offer: &Offered, out: &mut S) -> Result<(), S::Error>
    ensures { OnOk result (SendsValue (offer_data range (offer_view offer.now))
        (S.written out.old) (S.written out.new)) }
{
    out.begin_map(Some(5))?;
    out.key("detail")?;
    out.str(offer.name.as_str())?;
    out.key("filterText")?;
    out.str(offer.text.as_str())?;
    out.key("kind")?;
    out.u64(offer.kind as u64)?;
    out.key("label")?;
    out.str(offer.text.as_str())?;
    out.key("textEdit")?;
    send_text_edit(range, offer.text.as_str(), out)?;
    out.end_map()
}

/// All that may stand at a range, in order.
fn send_items<S: Serializer>(range: Range, offers: &[Offered], out: &mut S) -> Result<(), S::Error>
    ensures { OnOk result (SendsValue (array (offer_items range (map offer_view offers.now)))
        (S.written out.old) (S.written out.new)) }
{
    out.begin_seq(Some(offers.len()))?;
    for offer in offers {
        send_offer(range, offer, out)?;
    }
    out.end_seq()
}

/// All that may stand at a range: a whole list (LSP 3.17, "CompletionList").
pub(crate) fn send_offers<S: Serializer>(
    range: Range,
    offers: &[Offered],
    out: &mut S,
) -> Result<(), S::Error>
    ensures { OnOk result (SendsValue (offers_result range (map offer_view offers.now))
        (S.written out.old) (S.written out.new)) }
{
    out.begin_map(Some(2))?;
    out.key("isIncomplete")?;
    out.bool(false)?;
    out.key("items")?;
    send_items(range, offers, out)?;
    out.end_map()
}
