//! Mended copies that follow edits.

ghost use Rattle.std.specs.Prelude.{IfOk, List};
ghost use Rattle.definitions.specs.declared.Kind.{Kind as TokenKind};
ghost use Rattle.mending.specs.Mendings.{IsMendingOf};

use crate::planting::Planter;
use anyhow::Result;
use definitions::Kind;
use mending::{Listed, Mending, Rank};
use rand_pcg::Pcg32;
use std::time::Instant;

/// What follows, and what is printed of it.
#[derive(Clone, Copy)]
pub struct Following<'a> {
    pub rt: &'a HostRuntime,
    pub planter: Planter<'a>,
    pub ranks: &'a [Rank],
    /// How many bytes the text has.
    pub bytes: usize,
}

impl<'a> Following<'a> {
    /// The copy of these kinds, made anew, and how many microseconds that takes.
    fn anew(&self, kinds: &[Kind]) -> Result<(Mending, u128)>
        ensures { let tables = self.now.planter.tables.now in
            IfOk result (λ found. IsMendingOf tables kinds.now found.0) }
    {
        let begun = Instant::now(self.rt)?;
        let (alloc, tables) = (self.rt.alloc(), self.planter.tables);
        let mending = Mending::whole(alloc, tables, self.ranks, &Listed { kinds })?;
        Ok((mending, begun.elapsed(self.rt)?.as_micros()))
    }

    /// Follows an edit, and prints how many microseconds that took, how many it takes to make the
    /// copy anew, 1 where both are the same, how many faults it has, and the bytes of the text.
    fn follow(&self, mending: Mending, kinds: &[Kind]) -> Result<Mending>
        requires { (old : List TokenKind) × IsMendingOf self.now.planter.tables.now old mending }
        ensures { IfOk result (IsMendingOf self.now.planter.tables.now kinds.now) }
    {
        let begun = Instant::now(self.rt)?;
        let (alloc, tables) = (self.rt.alloc(), self.planter.tables);
        let followed = mending.follow(alloc, tables, self.ranks, &Listed { kinds })?;
        let micros = begun.elapsed(self.rt)?.as_micros();
        let (anew, whole) = self.anew(kinds)?;
        let is_same = followed.kinds() == anew.kinds() && followed.repairs() == anew.repairs();
        let (same, faults) = (u8::from(is_same), anew.repairs().len());
        println!(self.rt; "{micros} {whole} {same} {faults} {}", self.bytes)?;
        Ok(followed)
    }

    /// Plants so many faults in kinds, and then one after another, each of which is taken back.
    pub fn run(
        &self,
        random: &mut Pcg32,
        kinds: &[Kind],
        planted: usize,
        count: usize,
    ) -> Result<()> {
        let (faulty, _) = self.planter.plant(random, kinds, planted)?;
        let (mut mending, _) = self.anew(&faulty)?;
        for _ in 0..count {
            let edited = self.planter.edit(random, &faulty)?;
            mending = self.follow(mending, &edited)?;
            mending = self.follow(mending, &faulty)?;
        }
        Ok(())
    }
}
