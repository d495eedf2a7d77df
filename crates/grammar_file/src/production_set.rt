//! Productions, each found by its two sides.

ghost use Rattle.std.specs.Prelude.{◌≡◌, ◌∷◌, [], IfOk, OnOk};
ghost use Rattle.grammar_line.specs.Kept.{texts};
ghost use Rattle.grammar_file.specs.Kept.{are_among, with_names};

use indexmap::IndexSet;
use std::alloc::{AllocError, Global};
use std::marker::Model;

/// Productions, each once: the left side, and after it the names of the right side.
#[derive(Drop)]
pub struct ProductionSet<'a> {
    sides: IndexSet<Vec<&'a str>>,
}

impl<'a> Model for ProductionSet<'a> {
    ghost use Rattle.std.specs.Prelude.{List, map};
    ghost use Rattle.grammar_line.specs.Words.{Word};

    ghost Value = { List (List Word) };

    ghost view = { λ s. map (λ names. map (λ w. w.now) names.items) s.sides.keys };
}

impl<'a> ProductionSet<'a> {
    /// No productions.
    pub fn new(alloc: Global) -> ProductionSet<'a>
        ensures { result ≡ [] }
    {
        ProductionSet {
            sides: IndexSet::new(alloc),
        }
    }

    /// Whether one of the productions has these sides.
    pub fn contains(
        &self,
        alloc: Global,
        left: &'a str,
        right: &[&'a str],
    ) -> Result<bool, AllocError>
        ensures { IfOk result (λ found. found ≡ are_among (left.now ∷ texts right.now) self.now) }
    {
        let sides = sides_of(alloc, left, right)?;
        Ok(self.sides.contains(sides.as_slice()))
    }

    /// Adds a production unless it is there.
    pub fn add(&mut self, alloc: Global, left: &'a str, right: &[&'a str]) -> Result<(), AllocError>
        ensures { OnOk result (self.new ≡ with_names self.old (left.now ∷ texts right.now)) }
    {
        let sides = sides_of(alloc, left, right)?;
        match self.sides.insert(sides) {
            Ok(_) => Ok(()),
            Err(_) => Err(AllocError),
        }
    }
}

/// The left side, and after it the right side.
fn sides_of<'a>(alloc: Global, left: &'a str, right: &[&'a str]) -> Result<Vec<&'a str>, AllocError>
    ensures { IfOk result (λ sides. texts sides.items ≡ left.now ∷ texts right.now) }
{
    let mut sides = Vec::new(alloc);
    sides.push(left)?;
    sides.extend_from_slice(right)?;
    Ok(sides)
}
