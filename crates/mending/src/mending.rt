//! A mended copy of kinds.

ghost use Rattle.std.specs.Prelude.{◌≡◌, ◌↔◌, ◌≤◌, List, [], ◌++◌, IfOk, IfSome, OnOk, drop, length, take, true};
ghost use Rattle.definitions.specs.declared.Kind.{Kind as TokenKind};
ghost use Rattle.definitions.specs.Sentences.{IsSentence, IsTreeOf};
ghost use Rattle.definitions.specs.TreeEdits.{plain};
ghost use Rattle.trees.specs.Cells.{tree};
ghost use Rattle.trees.specs.declared.store.Child.{Child};
ghost use Rattle.tables.specs.Tables.{Sets};
ghost use Rattle.mending.specs.Mendings.{HasParse, IsMendingOf};

use crate::balances::balance_of;
use crate::kinds::{are_same, copied, replaced};
use crate::listed::Listed;
use crate::repair::Repair;
use crate::walk::{Mended, mend_all};
use definitions::{Kind, KindSplice};
use parser::{Parse, Verdict};
use remedies::{Guide, Origins, Pairs, Rank};
use std::alloc::{AllocError, Global};
use tables::Tables;
use trees::{Kinds, NodeId, Store};

/// A mended copy of kinds, with its parse. It means something only beside its tables, which are
/// those that were handed in.
#[derive(Drop)]
pub struct Mending {
    /// The kinds that are mended.
    pub(crate) origin: Vec<Kind>,
    /// Which of these stand side by side.
    pub(crate) pairs: Pairs,
    /// The kinds of the copy.
    pub(crate) copy: Vec<Kind>,
    /// The nodes of its parse.
    pub(crate) store: Store,
    pub(crate) parse: Parse,
    pub(crate) repairs: Vec<Repair>,
}

impl Mending {
    /// A copy of the kinds that is mended fault after fault, until it is a sentence, nothing is
    /// found that mends it, or 256 faults are mended. Of what mends a fault as cheaply and lets as
    /// many kinds go on, what has the lowest sum of `ranks` is taken; a rule without one is put in
    /// last. Refuses for memory alone.
    #[tactic(auto, using(crate::proofs::Mended::unrepaired))]
    pub fn whole<K: Kinds>(
        alloc: Global,
        tables: &Tables,
        ranks: &[Rank],
        kinds: &K,
    ) -> Result<Mending, AllocError>
        ensures mended { IfOk result (IsMendingOf tables.now (K.kinds kinds.now)) }
        ensures sentence { IsSentence tables.now.grammar (K.kinds kinds.now)
            → IfOk result (λ m. m.repairs.items ≡ []) }
    {
        let origin = copied(alloc, kinds)?;
        let pairs = Pairs::of(alloc, ranks.len(), &origin)?;
        let guide = Guide {
            ranks,
            pairs: &pairs,
            balance: balance_of(ranks, &origin),
        };
        let Mended { copy, repairs } = mend_all(alloc, tables, guide, &origin)?;
        let mut mending = Mending::with_copy(alloc, tables, origin, pairs, copy)?;
        if mending.settle(alloc, tables, repairs)? {
            return Ok(mending);
        }
        Mending::unmended(alloc, tables, mending.origin, mending.pairs)
    }

    /// A copy, whose repairs aren't known, of what is mended.
    fn with_copy(
        alloc: Global,
        tables: &Tables,
        origin: Vec<Kind>,
        pairs: Pairs,
        copy: Vec<Kind>,
    ) -> Result<Mending, AllocError>
        ensures parse { IfOk result (HasParse tables.now) }
        ensures kinds { IfOk result (λ m. (m.origin ≡ origin) × (m.copy ≡ copy)) }
        ensures repairs { IfOk result (λ m. m.repairs.items ≡ []) }
    {
        let mut store = Store::new(alloc);
        let parse = Parse::whole(alloc, tables, &mut store, &Listed { kinds: &copy })?;
        Ok(Mending {
            origin,
            pairs,
            copy,
            store,
            parse,
            repairs: Vec::new(alloc),
        })
    }

    /// The copy before anything is mended.
    fn unmended(
        alloc: Global,
        tables: &Tables,
        origin: Vec<Kind>,
        pairs: Pairs,
    ) -> Result<Mending, AllocError>
        ensures { IfOk result (IsMendingOf tables.now origin.items) }
    {
        let copy = Vec::from_slice(alloc, &origin)?;
        Mending::with_copy(alloc, tables, origin, pairs, copy)
    }

    /// Puts kinds in the place of those from number `from` up to number `to`.
    pub(crate) fn replace(
        &mut self,
        alloc: Global,
        tables: &Tables,
        from: usize,
        to: usize,
        kinds: Vec<Kind>,
    ) -> Result<(), AllocError>
        requires ordered { from ≤ to }
        requires inside { to ≤ length self.old.copy.items }
        requires parse { HasParse tables.now self.old }
        ensures copy { let old = self.old.copy.items in OnOk result (self.new.copy.items
            ≡ take from old ++ (kinds.items ++ drop to old)) }
        ensures parse { OnOk result (HasParse tables.now self.new) }
        ensures same { (self.new.repairs ≡ self.old.repairs)
            × (self.new.origin ≡ self.old.origin) }
    {
        let copy = replaced(alloc, &self.copy, from, to, &kinds)?;
        let number = self.parse.number().saturating_add(1);
        let splice = KindSplice { from, to, kinds };
        let listed = Listed { kinds: &copy };
        self.parse
            .change(alloc, tables, &mut self.store, &listed, splice, number)?;
        self.copy = copy;
        Ok(())
    }

    /// Whether these are the kinds that are mended.
    pub fn is_of<K: Kinds>(&self, kinds: &K) -> bool
        ensures { (t : Sets) (mended : List TokenKind) → IsMendingOf t mended self.now
            → (result ≡ true ↔ mended ≡ K.kinds kinds.now) }
    {
        are_same(&self.origin, kinds)
    }

    /// The repairs, in order.
    pub fn repairs(&self) -> &[Repair]
        ensures { result.now ≡ self.now.repairs.items }
    {
        &self.repairs
    }

    /// For each kind of the copy its number in what is mended; none for one that is put in.
    /// Refuses for memory alone.
    pub fn origins(&self, alloc: Global) -> Result<Vec<Option<usize>>, AllocError> {
        let mut origins = Origins::new(alloc);
        for repair in &self.repairs {
            origins.pass(repair.from)?;
            origins.change(&repair.changes)?;
        }
        origins.fill(self.copy.len())
    }

    /// The kinds of the copy.
    pub fn kinds(&self) -> &[Kind]
        ensures { result.now ≡ self.now.copy.items }
    {
        &self.copy
    }

    /// The parse of the copy.
    pub fn parse(&self) -> &Parse
        ensures { result.now ≡ self.now.parse }
    {
        &self.parse
    }

    /// The store that has the nodes of the parse.
    pub fn nodes(&self) -> &Store
        ensures { result.now ≡ self.now.store }
    {
        &self.store
    }

    /// The tree of the copy, where it is a sentence.
    pub fn tree(&self) -> Option<NodeId>
        ensures { (t : Sets) (kinds : List TokenKind) → IsMendingOf t kinds self.now
            → IfSome result (λ id. IsTreeOf t.grammar self.now.copy.items
            (plain (tree self.now.store (Child.Node id)))) }
    {
        match self.parse.verdict() {
            Verdict::Tree(id) => Some(id),
            Verdict::FaultAt(_) | Verdict::FaultAtEnd => None,
        }
    }
}
