//! What may follow at a position, as it is offered.

ghost use Rattle.std.specs.Prelude.{◌≡◌, map, IfOk, string_bytes};

use completion::Offer;
use editor_replies::Offered;
use grammar::{Grammar, Kind};
use settings::{KEYWORD, OPERATOR};
use std::alloc::{AllocError, Global};

/// The protocol's numbers of kinds (LSP 3.17, "CompletionItemKind").
const TEXT_KIND: u32 = 1;

const KEYWORD_KIND: u32 = 14;

const OPERATOR_KIND: u32 = 24;

/// The kind of what has this colour.
fn kind_of(colour: Option<u32>) -> u32 {
    match colour {
        Some(KEYWORD) => KEYWORD_KIND,
        Some(OPERATOR) => OPERATOR_KIND,
        _ => TEXT_KIND,
    }
}

/// The name of a rule; empty where the grammar has none of this number.
fn name_of(grammar: &Grammar, rule: usize) -> &str {
    if rule < grammar.rules() {
        grammar.kind_name(Kind::Rule(rule))
    } else {
        ""
    }
}

/// An offer as it is shown.
fn offered(
    alloc: Global,
    grammar: &Grammar,
    palette: &[Option<u32>],
    offer: &Offer,
) -> Result<Offered, AllocError>
    ensures { let text = string_bytes offer.now.text in
        IfOk result (λ shown. string_bytes shown.text ≡ text) }
{
    let colour = palette.get(offer.rule).copied().flatten();
    Ok(Offered {
        name: String::from_str(alloc, name_of(grammar, offer.rule))?,
        kind: kind_of(colour),
        text: String::from_str(alloc, offer.text.as_str())?,
    })
}

/// The offers as they are shown, in order.
pub(crate) fn all_offered(
    alloc: Global,
    grammar: &Grammar,
    palette: &[Option<u32>],
    offers: &[Offer],
) -> Result<Vec<Offered>, AllocError>
    ensures { let texts = map (λ offer. string_bytes offer.text) offers.now in
        IfOk result (λ shown. map (λ offer. string_bytes offer.text) shown.items ≡ texts) }
{
    let mut shown = Vec::new(alloc);
    for offer in offers {
        shown.push(offered(alloc, grammar, palette, offer)?)?;
    }
    Ok(shown)
}
