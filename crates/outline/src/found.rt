//! The symbols that are found, one after another.

ghost use Rattle.std.specs.Prelude.{◌≡◌, ◌≤◌, ◌∷◌, ◌++◌, [], OnOk, length};

use crate::symbols::OutlineSymbol;
use std::alloc::{AllocError, Global};

/// The symbols so far.
#[derive(Drop)]
pub(crate) struct Found {
    pub(crate) symbols: Vec<OutlineSymbol>,
    /// For the symbols around the last one and itself, the place after the last token of each.
    around: Vec<usize>,
}

impl Found {
    /// No symbol.
    pub(crate) fn new(alloc: Global) -> Found
        ensures symbols { result.symbols.items ≡ [] }
        ensures around { result.around.items ≡ [] }
    {
        Found {
            symbols: Vec::new(alloc),
            around: Vec::new(alloc),
        }
    }

    /// How many symbols a node lies in whose first token has this place.
    pub(crate) fn depth_at(&mut self, place: usize) -> usize
        ensures depth { result ≡ length self.new.around.items }
        ensures fewer { length self.new.around.items ≤ length self.old.around.items }
        ensures same { self.new.symbols ≡ self.old.symbols }
    {
        while self.around.last().is_some_and(|end| *end <= place) {
            self.around.pop();
        }
        self.around.len()
    }

    /// Adds a symbol that ends before the token at this place.
    pub(crate) fn push(&mut self, symbol: OutlineSymbol, end: usize) -> Result<(), AllocError>
        ensures symbols { OnOk result
            (self.new.symbols.items ≡ self.old.symbols.items ++ (symbol ∷ [])) }
        ensures around { OnOk result
            (self.new.around.items ≡ self.old.around.items ++ (end ∷ [])) }
    {
        self.symbols.push(symbol)?;
        self.around.push(end)?;
        Ok(())
    }
}
