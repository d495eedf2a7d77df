//! What may follow at a position.

ghost use Rattle.docs.specs.Docs.{IsCurrent};

use definitions::Position;
use docs::{Doc, Language};
use forests::Numbers;
use lexer::MoreThan;
use mending::Mending;
use states::Pile;
use std::alloc::{AllocError, Global};
use tables::Expected;

/// The rules that may follow at a position of a document, and the end: behind the tokens that
/// begin before it. Where the text has a fault it is as its mended copy goes on, which is the
/// document's.
///
/// Refuses for memory alone.
pub fn following<'a>(
    alloc: Global,
    language: &'a Language,
    doc: &Doc,
    mending: Option<&Mending>,
    position: Position,
) -> Result<Expected<'a>, AllocError>
    requires { IsCurrent language.now doc.now }
{
    let count = count_before(doc, doc.characters().offset(doc.unit(), position));
    let found = match mending {
        Some(mending) => pile_in_copy(alloc, language, mending, count)?,
        None => Pile::at(alloc, language.tables(), doc.nodes(), doc.parse(), count)?,
    };
    match found {
        Some(pile) => Ok(pile.expected()),
        None => Ok(Expected::nothing()),
    }
}

/// How many significant tokens begin before an offset.
fn count_before(doc: &Doc, offset: usize) -> usize {
    let tokens = doc.tokens();
    let (place, before) = tokens.items().locate(&MoreThan::Characters(offset));
    let count = before.significant as usize;
    match tokens.token(place) {
        Some(token) if !token.skipped && (before.characters as usize) < offset => {
            count.saturating_add(1)
        }
        _ => count,
    }
}

/// The stack behind the last kind of a copy that stands for one of so many first tokens.
fn pile_in_copy<'a>(
    alloc: Global,
    language: &'a Language,
    mending: &Mending,
    count: usize,
) -> Result<Option<Pile<'a>>, AllocError> {
    let mut pile = Pile::new(alloc, language.tables())?;
    let Some(last) = count.checked_sub(1) else {
        return Ok(Some(pile));
    };
    let end = match Numbers::of(alloc, mending)?.last_up_to(last) {
        Some(place) => place.saturating_add(1),
        None => 0,
    };
    match mending.kinds().get(..end) {
        Some(kinds) if pile.read_all(kinds)? => Ok(Some(pile)),
        _ => Ok(None),
    }
}
