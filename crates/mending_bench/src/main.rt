//! Plants faults in the kinds of texts and mends them, for `bench/mending`.
//!
//! Prints a line for each text with faults: how many are planted, how many faults are found, 1
//! where the copy is whole, the microseconds that mending took and those of a parse without
//! faults, each the least of three, and the bytes of the text. A text that the grammar doesn't
//! accept has no line.
#![tactic(auto)]

mod following;
mod planting;
mod ranks;

use anyhow::{Result, bail};
use definitions::{Kind, Unit};
use docs::{Doc, Language};
use following::Following;
use mending::{Listed, Mending, Rank};
use planting::{Planter, is_faulty};
use rand_pcg::Pcg32;
use ranks::ranks;
use std::alloc::{AllocError, Global};
use std::env::Args;
use std::time::Instant;

/// Of how many times the least counts.
const ROUNDS: usize = 3;

const USAGE: &str = "usage: mending_bench [follow] GRAMMAR MOST COUNT SEED TEXT..";

/// What is asked for.
#[derive(Clone, Copy)]
struct Request {
    /// How many faults are planted at most.
    most: usize,
    /// How many texts with so many faults are made of each text.
    count: usize,
    seed: u64,
    /// Whether copies follow edits.
    is_following: bool,
}

/// A word of the command line.
fn word(words: &mut Args) -> Result<String> {
    match words.next() {
        Some(word) => Ok(word),
        None => bail!("{USAGE}"),
    }
}

/// A number of the command line.
fn number(words: &mut Args) -> Result<usize> {
    Ok(word(words)?.as_str().parse::<usize>()?)
}

/// The text of a file.
fn read(rt: &HostRuntime, path: &str) -> Result<String> {
    Ok(String::from_utf8(std::fs::read(rt, path)?)?)
}

/// The kinds of a document's tokens that aren't skipped.
fn kinds_of(alloc: Global, doc: &Doc) -> Result<Vec<Kind>, AllocError> {
    let mut kinds = Vec::new(alloc);
    for k in 0..doc.tokens().significant() {
        if let Some(kind) = doc.tokens().kind(k) {
            kinds.push(kind)?;
        }
    }
    Ok(kinds)
}

/// The kinds of a text.
fn kinds_in(alloc: Global, language: &Language, text: &str) -> Result<Vec<Kind>> {
    match Doc::open(alloc, language, Unit::Utf8, 1, text) {
        Ok(doc) => Ok(kinds_of(alloc, &doc)?),
        Err(_) => bail!("a text was refused"),
    }
}

/// The kinds of a language that aren't skipped.
fn rules_of(alloc: Global, language: &Language) -> Result<Vec<Kind>, AllocError> {
    let mut rules = Vec::new(alloc);
    for rule in 0..language.grammar().rules() {
        if !language.grammar().is_skipped(Kind::Rule(rule)) {
            rules.push(Kind::Rule(rule))?;
        }
    }
    Ok(rules)
}

/// What came of a mending.
#[derive(Clone, Copy)]
struct Outcome {
    faults: usize,
    is_whole: bool,
    micros: u128,
}

/// A text that the grammar accepts.
#[derive(Clone, Copy)]
struct Sample<'a> {
    kinds: &'a [Kind],
    bytes: usize,
    /// How long a parse of it takes.
    micros: u128,
}

/// What is done with each text.
#[derive(Clone, Copy)]
struct Bench<'a> {
    rt: &'a HostRuntime,
    language: &'a Language,
    ranks: &'a [Rank],
    planter: Planter<'a>,
    request: Request,
}

impl<'a> Bench<'a> {
    /// Mends kinds.
    fn mended(&self, kinds: &[Kind]) -> Result<Outcome> {
        let begun = Instant::now(self.rt)?;
        let tables = self.language.tables();
        let mended = Mending::whole(self.rt.alloc(), tables, self.ranks, &Listed { kinds })?;
        Ok(Outcome {
            faults: mended.repairs().len(),
            is_whole: mended.tree().is_some(),
            micros: begun.elapsed(self.rt)?.as_micros(),
        })
    }

    /// Mends kinds in which so many faults are planted, and prints what came of it.
    fn mend(&self, sample: Sample<'_>, faulty: &[Kind], planted: usize) -> Result<()> {
        let mut best = self.mended(faulty)?;
        for _ in 1..ROUNDS {
            let next = self.mended(faulty)?;
            if next.micros < best.micros {
                best = next;
            }
        }
        let whole = u8::from(best.is_whole);
        let (faults, micros) = (best.faults, best.micros);
        println!(self.rt;
            "{planted} {faults} {whole} {micros} {} {}",
            sample.micros, sample.bytes
        )?;
        Ok(())
    }

    /// Mends a text with so many faults, as often as it is asked for.
    fn plant(&self, random: &mut Pcg32, sample: Sample<'_>, count: usize) -> Result<()> {
        for _ in 0..self.request.count {
            let (faulty, planted) = self.planter.plant(random, sample.kinds, count)?;
            if 0 < planted {
                self.mend(sample, &faulty, planted)?;
            }
        }
        Ok(())
    }

    /// How long a parse takes, if the kinds are a sentence.
    fn parse(&self, kinds: &[Kind]) -> Result<Option<u128>> {
        let mut least = u128::MAX;
        for _ in 0..ROUNDS {
            let begun = Instant::now(self.rt)?;
            if is_faulty(self.rt.alloc(), self.language.tables(), kinds)? {
                return Ok(None);
            }
            least = least.min(begun.elapsed(self.rt)?.as_micros());
        }
        Ok(Some(least))
    }

    /// What follows edits of a text of so many bytes.
    fn following(&self, bytes: usize) -> Following<'a> {
        Following {
            rt: self.rt,
            planter: self.planter,
            ranks: self.ranks,
            bytes,
        }
    }

    /// Mends the texts that are made of a file's.
    fn run(&self, path: &str) -> Result<()> {
        let text = read(self.rt, path)?;
        let kinds = kinds_in(self.rt.alloc(), self.language, text.as_str())?;
        let Some(micros) = self.parse(&kinds)? else {
            return Ok(());
        };
        let sample = Sample {
            kinds: &kinds,
            bytes: text.len(),
            micros,
        };
        let mut random = Pcg32::new(self.request.seed, 54);
        if self.request.is_following {
            let (most, count) = (self.request.most, self.request.count);
            return self
                .following(sample.bytes)
                .run(&mut random, &kinds, most, count);
        }
        for count in 0..self.request.most {
            self.plant(&mut random, sample, count.saturating_add(1))?;
        }
        Ok(())
    }
}

fn main(rt: HostRuntime) -> Result<()> {
    let alloc = rt.alloc();
    let mut words = std::env::args(&rt)?;
    words.next();
    let mut first = word(&mut words)?;
    let is_following = first.as_str() == "follow";
    if is_following {
        first = word(&mut words)?;
    }
    let grammar = read(&rt, first.as_str())?;
    let request = Request {
        most: number(&mut words)?,
        count: number(&mut words)?,
        seed: number(&mut words)? as u64,
        is_following,
    };
    let Ok(language) = Language::load(alloc, grammar.as_str()) else {
        bail!("the grammar was refused");
    };
    let rules = rules_of(alloc, &language)?;
    let ranks = ranks(alloc, &language)?;
    let planter = Planter {
        alloc,
        tables: language.tables(),
        rules: &rules,
    };
    let bench = Bench {
        rt: &rt,
        language: &language,
        ranks: &ranks,
        planter,
        request,
    };
    for path in words {
        bench.run(path.as_str())?;
    }
    Ok(())
}
