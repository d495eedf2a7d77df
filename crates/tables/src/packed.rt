//! A row of a table in little room: 16 bits for each entry, where all entries have numbers of so
//! few.

ghost use Rattle.std.specs.Prelude.{◌≡◌, ◌<◌, [], None, drop, length, map, slice_index_or, IfOk, IfSome};
ghost use Rattle.tables.specs.Packed.{entries_in, HasLarge};

use std::alloc::{AllocError, Global};
use std::marker::Model;

/// What may stand in a row. A small entry has a number of 16 bits, and a missing one has one too.
pub trait Small: Copy + Drop {
    ghost use Rattle.std.specs.Prelude.{◌≡◌, ◌≢◌, ◌<◌, ◌^◌, ℕ, Option, None, IfSome};

    /// What a number stands for.
    ghost meant: { ℕ → Option Self };

    /// The number of an entry, where it has one.
    fn number(entry: Option<Self>) -> Option<u16>
        ensures is { IfSome result (λ n. meant n ≡ entry) }
        ensures none { result ≡ None → (n : ℕ) → n < 2 ^ 16 → meant n ≢ entry };

    /// The entry of a number.
    fn entry(number: u16) -> Option<Self>
        ensures { result ≡ meant number };
}

/// Entries, each of which may be missing. They lie in 16 bits each, but where one of them has no
/// such number.
#[derive(Drop)]
pub struct PackedRow<T: Small> {
    form: Form<T>,
}

/// How a row lies in memory.
#[derive(Drop)]
enum Form<T: Small> {
    /// The number of each entry.
    Narrow(Vec<u16>),
    /// Each entry as it is.
    Wide(Vec<Option<T>>),
}

impl<T: Small> Model for PackedRow<T> {
    ghost use Rattle.std.specs.Prelude.{List, Option};
    ghost use Rattle.tables.specs.Packed.{entries_in, IsNarrowIfSmall};

    ghost Value = { List (Option T) };

    ghost view = { λ r. entries_in T.meant r.form };

    ghost invariant = { λ r. IsNarrowIfSmall T.meant r.form };
}

impl<T: Small> PackedRow<T> {
    /// The row of these entries. Refuses for memory alone.
    pub fn new(alloc: Global, entries: &[Option<T>]) -> Result<PackedRow<T>, AllocError>
        ensures { IfOk result (λ row. row ≡ entries.now) }
    {
        let form = match numbers_of(alloc, entries)? {
            Some(numbers) => Form::Narrow(numbers),
            None => Form::Wide(Vec::from_slice(alloc, entries)?),
        };
        Ok(PackedRow { form })
    }

    /// The entries.
    pub fn entries(&self) -> Entries<'_, T>
        ensures { result ≡ self.now }
    {
        let form = match &self.form {
            Form::Narrow(numbers) => Lent::Narrow(numbers.as_slice()),
            Form::Wide(entries) => Lent::Wide(entries.as_slice()),
        };
        Entries { form }
    }

    /// The entry at a place.
    pub fn at(&self, place: usize) -> Option<T>
        requires { place < length self.now }
        ensures { result ≡ slice_index_or self.now place None }
    {
        match &self.form {
            Form::Narrow(numbers) => T::entry(numbers[place]),
            Form::Wide(entries) => entries[place],
        }
    }
}

/// Entries of a row, from one of them on.
#[derive(Drop)]
pub struct Entries<'a, T: Small> {
    form: Lent<'a, T>,
}

/// How they lie in memory.
#[derive(Drop)]
enum Lent<'a, T: Small> {
    /// The number of each entry.
    Narrow(&'a [u16]),
    /// Each entry as it is.
    Wide(&'a [Option<T>]),
}

impl<'a, T: Small> Model for Entries<'a, T> {
    ghost use Rattle.std.specs.Prelude.{List, Option};
    ghost use Rattle.tables.specs.Packed.{entries_lent};

    ghost Value = { List (Option T) };

    ghost view = { λ e. entries_lent T.meant e.form };
}

impl<'a, T: Small> Entries<'a, T> {
    /// No entry.
    pub fn none() -> Entries<'a, T>
        ensures { result ≡ [] }
    {
        Entries {
            form: Lent::Narrow(&[]),
        }
    }

    /// How many there are.
    pub fn len(&self) -> usize
        ensures { result ≡ length self.now }
    {
        match &self.form {
            Lent::Narrow(numbers) => numbers.len(),
            Lent::Wide(entries) => entries.len(),
        }
    }

    /// The entry at a place; none past the last one.
    pub fn at(&self, place: usize) -> Option<T>
        ensures { result ≡ slice_index_or self.now place None }
    {
        match &self.form {
            Lent::Narrow(numbers) => T::entry(*numbers.get(place)?),
            Lent::Wide(entries) => *entries.get(place)?,
        }
    }

    /// The entries after the first one.
    pub fn after_first(self) -> Entries<'a, T>
        requires { 0 < length self }
        ensures { result ≡ drop 1 self.entry }
    {
        let form = match self.form {
            Lent::Narrow(numbers) => Lent::Narrow(&numbers[1..]),
            Lent::Wide(entries) => Lent::Wide(&entries[1..]),
        };
        Entries { form }
    }
}

/// The numbers of the entries, where each has one.
fn numbers_of<T: Small>(
    alloc: Global,
    entries: &[Option<T>],
) -> Result<Option<Vec<u16>>, AllocError>
    ensures all { IfOk result (λ found. IfSome found (λ ns. map T.meant ns.items ≡ entries.now)) }
    ensures none { IfOk result (λ found. found ≡ None → HasLarge T.meant entries.now) }
{
    let mut numbers = Vec::with_capacity(alloc, entries.len())?;
    for entry in entries {
        match T::number(*entry) {
            Some(number) => numbers.push(number)?,
            None => return Ok(None),
        }
    }
    Ok(Some(numbers))
}
