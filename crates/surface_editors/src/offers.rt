//! What callers rely on of what is offered at the cursor: `completion`.

ghost use Rattle.std.specs.Prelude.{IfOk, map};
ghost use Rattle.docs.specs.Docs.{IsCurrent};
ghost use Rattle.completion.specs.Offers.{AreOffers, offer};
ghost use Rattle.completion.specs.Texts.{AreTexts};

use completion::{Offer, Offers, RuleText};
use docs::{Doc, Language};
use grammar::Grammar;
use mending::Repair;
use settings::Settings;
use std::alloc::{AllocError, Global};

/// `Offer`.
pub fn offer(offer: Offer) -> (usize, String) {
    let Offer { rule, text } = offer;
    (rule, text)
}

/// `Offers`.
pub fn offered(found: Offers) -> (usize, Vec<Offer>) {
    let Offers { start, offers } = found;
    (start, offers)
}

/// `completion::texts`.
pub fn texts(
    alloc: Global,
    grammar: &Grammar,
    settings: &Settings,
) -> Result<Vec<Option<RuleText>>, AllocError>
    ensures { IfOk result (λ texts. AreTexts grammar.now settings.now texts.items) }
{
    completion::texts(alloc, grammar, settings)
}

/// `completion::offers_at`.
pub fn offers_at(
    alloc: Global,
    language: &Language,
    texts: &[Option<RuleText>],
    doc: &Doc,
    repairs: &[Repair],
    offset: usize,
) -> Result<Offers, AllocError>
    requires { IsCurrent language.now doc.now }
    ensures { let text = doc.now.text in IfOk result (λ found.
        AreOffers language.now.file texts.now repairs.now text offset found.start
        (map offer found.offers.items)) }
{
    completion::offers_at(alloc, language, texts, doc, repairs, offset)
}
