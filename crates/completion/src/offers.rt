//! What is offered at the cursor.

ghost use Rattle.std.specs.Prelude.{◌≡◌, ◌++◌, ℕ, Bool, List, IfOk, OnOk, flat_map, map, string_bytes};
ghost use Rattle.std.specs.List.{list_any};
ghost use Rattle.std.specs.Str.{chars};
ghost use Rattle.std.specs.Char.Unicode.Lowercase.{is_lowercase};
ghost use Rattle.docs.specs.Docs.{IsCurrent};
ghost use Rattle.tables.specs.Expected.{in_file_order};
ghost use Rattle.completion.specs.Offers.{AreOffers, offer};
ghost use Rattle.completion.specs.Words.{goes_on, offer_of, offered_text};

use crate::following::following;
use crate::words::{text_between, word_start};
use docs::{Doc, Language};
use mending::Repair;
use settings::RuleText;
use std::alloc::{AllocError, Global};
use tables::Expected;

/// What may be put in the place of the word at the cursor.
#[derive(Debug, PartialEq, Eq, Drop)]
pub struct Offer {
    /// The number of the token rule.
    pub rule: usize,
    /// Its text, in the case of what is typed.
    pub text: String,
}

/// What is offered at the cursor.
#[derive(Debug, PartialEq, Eq, Drop)]
pub struct Offers {
    /// Where the word at the cursor begins, in characters from the start of the text.
    pub start: usize,
    /// What may stand in its place, in file order.
    pub offers: Vec<Offer>,
}

/// Whether there is a small letter.
fn has_small_letter(word: &str) -> bool
    ensures { result ≡ list_any is_lowercase (chars word.now) }
{
    let mut found = false;
    for character in word.chars() {
        if character.is_lowercase() {
            found = true;
        }
    }
    found
}

/// Whether the text of a rule goes on with a word.
fn goes_on(alloc: Global, rule: &RuleText, word: &str) -> Result<bool, AllocError>
    ensures { IfOk result (λ b. b ≡ goes_on rule.now word.now) }
{
    if !rule.any_case {
        return Ok(rule.text.as_bytes().starts_with(word.as_bytes()));
    }
    let (text, typed) = (rule.text.to_lowercase(alloc)?, word.to_lowercase(alloc)?);
    Ok(text.as_bytes().starts_with(typed.as_bytes()))
}

/// The text that is offered for a rule where a word is typed.
fn offered_text(alloc: Global, rule: &RuleText, word: &str) -> Result<String, AllocError>
    ensures { IfOk result (λ text. string_bytes text ≡ offered_text rule.now word.now) }
{
    if rule.any_case && has_small_letter(word) {
        rule.text.to_lowercase(alloc)
    } else {
        String::from_str(alloc, &rule.text)
    }
}

/// Adds the offer of a rule, if its text goes on with the word.
fn push_offer(
    alloc: Global,
    offers: &mut Vec<Offer>,
    texts: &[Option<RuleText>],
    word: &str,
    rule: usize,
) -> Result<(), AllocError>
    ensures { OnOk result (map offer offers.new.items
        ≡ map offer offers.old.items ++ offer_of texts.now word.now rule) }
{
    let Some(Some(found)) = texts.get(rule) else {
        return Ok(());
    };
    if goes_on(alloc, found, word)? {
        let text = offered_text(alloc, found, word)?;
        offers.push(Offer { rule, text })?;
    }
    Ok(())
}

/// The offers of the rules that are expected, of those that go on with the word.
fn offers_of(
    alloc: Global,
    texts: &[Option<RuleText>],
    word: &str,
    expected: Expected<'_>,
) -> Result<Vec<Offer>, AllocError>
    ensures { (rules : List ℕ) (at_end : Bool) → expected.entry ≡ in_file_order rules at_end
        → IfOk result (λ v. map offer v.items ≡ flat_map (offer_of texts.now word.now) rules) }
{
    let mut offers = Vec::new(alloc);
    for look in expected {
        if let Some(rule) = look {
            push_offer(alloc, &mut offers, texts, word, rule)?;
        }
    }
    Ok(offers)
}

/// What may follow at an offset of a document, counted in characters; past the end of the text it
/// is that end. `texts` are those of the language's rules (`texts`), and `repairs` those that mend
/// the document: where no sentence begins with the kinds before the word, it is what may follow
/// those that the repairs make of them. Refuses for memory alone.
pub fn offers_at(
    alloc: Global,
    language: &Language,
    texts: &[Option<RuleText>],
    doc: &Doc,
    repairs: &[Repair],
    offset: usize,
) -> Result<Offers, AllocError>
    requires { IsCurrent language.now doc.now }
    ensures { let text = doc.now.text in IfOk result (λ found.
        AreOffers language.now.file texts.now repairs.now text offset found.start
        (map offer found.offers.items)) }
{
    let text = doc.characters();
    let end = offset.min(text.len());
    let start = word_start(text, end);
    let word = text_between(alloc, text, start, end)?;
    let expected = following(alloc, language, doc, repairs, start)?;
    let offers = offers_of(alloc, texts, &word, expected)?;
    Ok(Offers { start, offers })
}
