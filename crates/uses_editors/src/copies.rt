//! Examples of mended copies, and of what mends a fault.

use definitions::Kind;
use docs::{Doc, Language, Unit};
use faults::{About, behind, mended};
use mending::{Listed, Mending, Rank};
use remedies::{Balance, Fault, Guide, Pairs};
use settings::{RuleText, Settings};
use states::Pile;
use std::alloc::Global;
use tables::Tables;

/// The example of `faults`.
pub fn use_faults(
    rt: &HostRuntime,
    alloc: Global,
    language: &Language,
    settings: &Settings,
    texts: &[Option<RuleText>],
) -> Option<()> {
    let doc = Doc::open(alloc, language, Unit::Utf16, 1, "(1 2)+(3 4)").ok()?;
    let mending = mended(alloc, language, texts, &doc).ok()??;
    let all = behind(alloc, language, settings, &doc, &mending).ok()?;
    println!(rt; "{}", all.first()?.message).ok()?;
    // unexpected "4"; expected ")" or "+"
    let about = About {
        alloc,
        language,
        settings,
        texts,
        doc: &doc,
        mending: &mending,
    };
    let fixes = about.fixes(all.first()?.range).ok()?;
    println!(rt; "{}", fixes.first()?.title).ok()
    // leave out "4"
}

/// The example of `states`.
pub fn use_states(rt: &HostRuntime, alloc: Global, tables: &Tables) -> Option<()> {
    let mut pile = Pile::new(alloc, tables).ok()?;
    let goes_on = pile.read(Kind::Rule(0)).ok()?;
    println!(rt; "{goes_on}, then {:?}", pile.expected().next()?).ok()
    // true, then Some(1)
}

/// The example of `mending`.
pub fn use_mending(rt: &HostRuntime, alloc: Global, tables: &Tables, ranks: &[Rank]) -> Option<()> {
    let kinds = [Kind::Rule(2), Kind::Rule(0)];
    let listed = Listed { kinds: &kinds };
    let mended = Mending::whole(alloc, tables, ranks, &listed).ok()?;
    let repair = mended.repairs().first()?;
    println!(rt; "from {} on: {:?}", repair.at, repair.changes).ok()
    // from 0 on: [Keep, Keep, PutIn(3)]
}

/// The example of `remedies`.
pub fn use_remedies(
    rt: &HostRuntime,
    alloc: Global,
    ranks: &[Rank],
    pile: &Pile<'_>,
) -> Option<()> {
    let pairs = Pairs::of(alloc, ranks.len(), &[]).ok()?;
    let fault = Fault {
        pile,
        early: pile,
        lead: 0,
        last: None,
        kinds: &[],
        most: 2,
        moves: 2048,
    };
    let guide = Guide {
        ranks,
        pairs: &pairs,
        balance: Balance::EVEN,
    };
    let remedy = fault.remedy(alloc, guide).ok()??;
    println!(rt; "{:?}", remedy.changes).ok()
    // [PutIn(3)]
}
