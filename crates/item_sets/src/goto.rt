//! Where symbols lead from a set of items.
ghost use Rattle.std.specs.Prelude.{◌≡◌, ◌<◌, ◌+◌, ℕ, [], All, IfOk, length, slice_index_or};
ghost use Rattle.item_sets.specs.Order.{IsRising};
ghost use Rattle.item_sets.specs.Sets.{IsItem};
ghost use Rattle.item_sets.specs.States.{IsKernelAfter};
ghost use Rattle.productions.specs.Symbols.{symbol_of};

use crate::item::Item;
use productions::{AugmentedGrammar, Bucket, empty_buckets, number_of};
use std::alloc::{AllocError, Global};

/// The kernels after the symbols, by the numbers of these.
pub fn kernels_after(
    alloc: Global,
    grammar: &AugmentedGrammar,
    items: &[Item],
) -> Result<Vec<Bucket<Item>>, AllocError>
    requires known { All (IsItem grammar.now) items.now }
    requires rising { IsRising items.now }
    ensures count { IfOk result (λ kernels. length kernels.items
        ≡ grammar.now.grammar.rules + grammar.now.nonterminals) }
    ensures each { IfOk result (λ kernels. (k : ℕ) → k < length kernels.items
        → IsKernelAfter grammar.now items.now (symbol_of grammar.now.grammar k)
        (slice_index_or kernels.items k [])) }
{
    let mut kernels = empty_buckets(alloc, grammar.symbols())?;
    for item in items {
        if let Some(symbol) = item.next(grammar) {
            let kernel = &mut kernels[number_of(grammar, symbol)];
            kernel.add(Item {
                production: item.production,
                at: item.at + 1,
                look: item.look,
            })?;
        }
    }
    Ok(kernels)
}
