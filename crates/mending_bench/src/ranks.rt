//! Which of changes that are as good are made.

use anyhow::Result;
use completion::texts;
use docs::Language;
use mending::Rank;
use settings::guess;
use std::alloc::Global;

/// The rank of each token rule, by the guessed settings of its language.
pub fn ranks(alloc: Global, language: &Language) -> Result<Vec<Rank>> {
    let settings = guess(alloc, language.grammar())?;
    let texts = texts(alloc, language.grammar(), &settings)?;
    Ok(faults::ranks(alloc, language.grammar(), &texts)?)
}
