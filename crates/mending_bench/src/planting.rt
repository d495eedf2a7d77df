//! Faults that are planted in kinds at random.

use definitions::Kind;
use mending::Listed;
use parser::{Parse, Verdict};
use rand_core::utils::NextWord;
use rand_pcg::Pcg32;
use std::alloc::{AllocError, Global};
use tables::Tables;
use trees::Store;

/// How often a fault is looked for that makes the kinds faulty by itself.
const MOST_TRIES: usize = 100;

/// What a fault makes of the kind where it stands.
#[derive(Clone, Copy, Debug)]
enum Form {
    /// It is left out.
    LeftOut,
    /// A kind is put in before it.
    PutIn(Kind),
    /// A kind stands in its place.
    Exchanged(Kind),
    /// It and the next one stand in the other order.
    Swapped,
}

/// A fault, with the number of the kind where it stands.
#[derive(Clone, Copy, Debug)]
struct Fault {
    place: usize,
    form: Form,
}

/// A number below `most`; 0 where there is none.
fn below(random: &mut Pcg32, most: usize) -> usize {
    match (random.next_word() as usize).checked_rem(most) {
        Some(number) => number,
        None => 0,
    }
}

/// A fault of kinds, of which there are so many, with one of these rules.
fn some_fault(random: &mut Pcg32, rules: &[Kind], count: usize) -> Fault {
    let form = below(random, 4);
    let kind = match rules.get(below(random, rules.len())) {
        Some(kind) => *kind,
        None => Kind::Invalid,
    };
    let form = match form {
        0 => Form::LeftOut,
        1 => Form::PutIn(kind),
        2 => Form::Exchanged(kind),
        _ => Form::Swapped,
    };
    Fault {
        place: below(random, count.saturating_sub(1)),
        form,
    }
}

/// Whether a fault stands at the same kind as one of these, or right beside it.
fn is_beside(fault: Fault, others: &[Fault]) -> bool {
    others
        .iter()
        .any(|other| other.place.abs_diff(fault.place) < 2)
}

/// What stands in the place of the kind of a number.
fn instead(kinds: &[Kind], number: usize, faults: &[Fault]) -> [Option<Kind>; 2] {
    let kind = kinds.get(number).copied();
    let before = number.checked_sub(1);
    for fault in faults {
        if fault.place == number {
            return match fault.form {
                Form::LeftOut => [None, None],
                Form::PutIn(new) => [Some(new), kind],
                Form::Exchanged(new) => [Some(new), None],
                Form::Swapped => [kinds.get(number.saturating_add(1)).copied(), kind],
            };
        }
        if let Form::Swapped = fault.form
            && before == Some(fault.place)
        {
            return [None, None];
        }
    }
    [kind, None]
}

/// The kinds with these faults.
fn with_faults(alloc: Global, kinds: &[Kind], faults: &[Fault]) -> Result<Vec<Kind>, AllocError> {
    let mut faulty = Vec::with_capacity(alloc, kinds.len())?;
    for number in 0..kinds.len() {
        let [first, second] = instead(kinds, number, faults);
        faulty.extend(first)?;
        faulty.extend(second)?;
    }
    Ok(faulty)
}

/// Whether the kinds are no sentence.
pub fn is_faulty(alloc: Global, tables: &Tables, kinds: &[Kind]) -> Result<bool, AllocError> {
    let mut store = Store::new(alloc);
    let parse = Parse::whole(alloc, tables, &mut store, &Listed { kinds })?;
    Ok(!matches!(parse.verdict(), Verdict::Tree(_)))
}

/// What plants faults in the sentences of a grammar.
#[derive(Clone, Copy)]
pub struct Planter<'a> {
    pub alloc: Global,
    pub tables: &'a Tables,
    /// The kinds that are put in.
    pub rules: &'a [Kind],
}

impl<'a> Planter<'a> {
    /// A fault that makes these kinds faulty by itself and isn't beside the others, if one is
    /// found.
    fn fault(
        &self,
        random: &mut Pcg32,
        kinds: &[Kind],
        others: &[Fault],
    ) -> Result<Option<Fault>, AllocError> {
        for _ in 0..MOST_TRIES {
            let fault = some_fault(random, self.rules, kinds.len());
            if is_beside(fault, others) {
                continue;
            }
            let faulty = with_faults(self.alloc, kinds, &[fault])?;
            if is_faulty(self.alloc, self.tables, &faulty)? {
                return Ok(Some(fault));
            }
        }
        Ok(None)
    }

    /// The kinds with so many faults, each of which would make them faulty by itself. How many
    /// there are.
    pub fn plant(
        &self,
        random: &mut Pcg32,
        kinds: &[Kind],
        count: usize,
    ) -> Result<(Vec<Kind>, usize), AllocError> {
        let mut faults = Vec::new(self.alloc);
        for _ in 0..count {
            if let Some(fault) = self.fault(random, kinds, &faults)? {
                faults.push(fault)?;
            }
        }
        let faulty = with_faults(self.alloc, kinds, &faults)?;
        Ok((faulty, faults.len()))
    }

    /// The kinds after an edit at a random place.
    pub fn edit(&self, random: &mut Pcg32, kinds: &[Kind]) -> Result<Vec<Kind>, AllocError> {
        let fault = some_fault(random, self.rules, kinds.len());
        with_faults(self.alloc, kinds, &[fault])
    }
}
