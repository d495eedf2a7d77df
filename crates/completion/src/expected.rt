//! What may follow some tokens of a document, as repairs mend them.

ghost use Rattle.std.specs.Prelude.{◌≡◌, ◌≤◌, ◌++◌, List, IfOk, IfSome, MatchOption, length, option_to_list, take};
ghost use Rattle.definitions.specs.declared.Kind.{Kind as TokenKind};
ghost use Rattle.definitions.specs.Sentences.{IsViable};
ghost use Rattle.lexer.specs.Rescans.{significant_kinds};
ghost use Rattle.parser.specs.Parses.{IsParseOf};
ghost use Rattle.states.specs.Piles.{AreStatesAfter};
ghost use Rattle.tables.specs.Expected.{AreExpected};
ghost use Rattle.completion.specs.Mended.{GoOnAs, mended_before};

use crate::before::{ends_invalid, kinds_before, mended_before};
use definitions::Kind;
use docs::Doc;
use lexer::Tokens;
use mending::Repair;
use states::Pile;
use std::alloc::{AllocError, Global};
use tables::{Expected, Tables};

/// How many of the first `count` tokens aren't skipped; none past what the tokens' sums can count,
/// which is more than a text has.
fn significant_before(tokens: &Tokens, count: usize) -> Option<usize>
    ensures { IfSome result
        (λ n. n ≡ length (significant_kinds (take count tokens.now.items))) }
{
    if count > u32::MAX as usize {
        return None;
    }
    let sums = tokens.items().total_before(count);
    Some(sums.significant as usize)
}

/// The stack after the kinds of the first `count` tokens that aren't skipped, where these are on
/// the parser's stack, and the tables lead to them.
fn pile_in_tree<'a>(
    alloc: Global,
    tables: &'a Tables,
    doc: &Doc,
    count: usize,
) -> Result<Option<Pile<'a>>, AllocError>
    requires { IsParseOf tables.now (significant_kinds doc.now.tokens.items) doc.now.store
        doc.now.parse }
    ensures tables { IfOk result (λ found. IfSome found (λ pile. pile.tables ≡ tables.now)) }
    ensures after { let kinds = significant_kinds (take count doc.now.tokens.items) in
        IfOk result (λ found. IfSome found (λ pile. AreStatesAfter tables.now kinds pile.states)) }
{
    let Some(significant) = significant_before(doc.tokens(), count) else {
        return Ok(None);
    };
    Pile::at(alloc, tables, doc.nodes(), doc.parse(), significant)
}

/// The stack after these kinds more; none where no sentence goes on with them.
fn after<'a>(mut pile: Pile<'a>, kinds: &[Kind]) -> Result<Option<Pile<'a>>, AllocError>
    ensures tables { IfOk result (λ found. IfSome found (λ p. p.tables ≡ pile.entry.tables)) }
    ensures after { (x : List TokenKind) → AreStatesAfter pile.entry.tables x pile.entry.states
        → let t = pile.entry.tables in let all = x ++ kinds.now in
        IfOk result (λ found. MatchOption found (¬ IsViable t.grammar all)
        (λ p. IsViable t.grammar all × AreStatesAfter t all p.states)) }
{
    if pile.read_all(kinds)? {
        Ok(Some(pile))
    } else {
        Ok(None)
    }
}

/// The stack after the kinds of the first `count` tokens that aren't skipped and one more; none
/// where no sentence begins with them.
fn pile_at<'a>(
    alloc: Global,
    tables: &'a Tables,
    doc: &Doc,
    count: usize,
    last: Option<Kind>,
) -> Result<Option<Pile<'a>>, AllocError>
    requires parse { IsParseOf tables.now (significant_kinds doc.now.tokens.items) doc.now.store
        doc.now.parse }
    requires within { count ≤ length doc.now.tokens.items }
    ensures tables { IfOk result (λ found. IfSome found (λ pile. pile.tables ≡ tables.now)) }
    ensures after { let tokens = take count doc.now.tokens.items in
        let kinds = significant_kinds tokens ++ option_to_list last in
        IfOk result (λ found. MatchOption found (¬ IsViable tables.now.grammar kinds)
        (λ p. IsViable tables.now.grammar kinds × AreStatesAfter tables.now kinds p.states)) }
{
    if let Some(pile) = pile_in_tree(alloc, tables, doc, count)? {
        return after(pile, last.as_slice());
    }
    let kinds = kinds_before(alloc, doc.tokens(), count, last)?;
    let first = Pile::new(alloc, tables)?;
    after(first, &kinds)
}

/// The stack after these kinds as repairs mend them; none where no sentence begins with what the
/// repairs make of them.
fn pile_mended<'a>(
    alloc: Global,
    tables: &'a Tables,
    repairs: &[Repair],
    kinds: Vec<Kind>,
) -> Result<Option<Pile<'a>>, AllocError>
    ensures tables { IfOk result (λ found. IfSome found (λ pile. pile.tables ≡ tables.now)) }
    ensures after { let mended = mended_before repairs.now kinds.items in
        IfOk result (λ found. MatchOption found (¬ IsViable tables.now.grammar mended)
        (λ p. IsViable tables.now.grammar mended × AreStatesAfter tables.now mended p.states)) }
{
    let mended = mended_before(alloc, repairs, kinds)?;
    let first = Pile::new(alloc, tables)?;
    after(first, &mended)
}

/// What may follow the first `count` tokens and one more of this kind, in file order, and then the
/// end. Where no sentence begins with their kinds, it is what may follow these as the repairs mend
/// them, and nothing where none begins with these either, or where the last of them begins no
/// token. Refuses for memory alone.
pub fn expected<'a>(
    alloc: Global,
    tables: &'a Tables,
    doc: &Doc,
    repairs: &[Repair],
    count: usize,
    last: Option<Kind>,
) -> Result<Expected<'a>, AllocError>
    requires parse { IsParseOf tables.now (significant_kinds doc.now.tokens.items) doc.now.store
        doc.now.parse }
    requires within { count ≤ length doc.now.tokens.items }
    ensures { let tokens = take count doc.now.tokens.items in
        let kinds = significant_kinds tokens ++ option_to_list last in
        IfOk result (λ looks. (others : List TokenKind)
        × GoOnAs tables.now.grammar repairs.now kinds others
        × AreExpected tables.now.grammar others looks) }
{
    if let Some(pile) = pile_at(alloc, tables, doc, count, last)? {
        return Ok(pile.expected());
    }
    let kinds = kinds_before(alloc, doc.tokens(), count, last)?;
    if ends_invalid(&kinds) {
        return Ok(Expected::nothing());
    }
    match pile_mended(alloc, tables, repairs, kinds)? {
        Some(pile) => Ok(pile.expected()),
        None => Ok(Expected::nothing()),
    }
}
