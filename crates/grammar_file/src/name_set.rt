//! Names in order, each found by its text.

ghost use Rattle.std.specs.Prelude.{◌≡◌, ◌<◌, ◌^◌, [], length, OnOk};
ghost use Rattle.grammar_file.specs.Contents.{is_among, number_of, with_name};
ghost use Rattle.grammar_line.specs.Kept.{texts};

use indexmap::IndexSet;
use std::alloc::{AllocError, Global};
use std::marker::Model;

/// Names, each once, numbered in the order in which they were added.
#[derive(Drop)]
pub struct NameSet<'a> {
    names: IndexSet<&'a str>,
}

impl<'a> Model for NameSet<'a> {
    ghost use Rattle.std.specs.Prelude.{List, map};
    ghost use Rattle.grammar_line.specs.Words.{Word};

    ghost Value = { List Word };

    ghost view = { λ s. map (λ w. w.now) s.names.keys };
}

impl<'a> NameSet<'a> {
    /// No names.
    pub(crate) fn new(alloc: Global) -> NameSet<'a>
        ensures { result ≡ [] }
    {
        NameSet {
            names: IndexSet::new(alloc),
        }
    }

    /// How many names there are.
    pub fn len(&self) -> usize
        ensures len { result ≡ length self.now }
        ensures small { result < 2 ^ 63 }
    {
        self.names.len()
    }

    /// The names, in order.
    pub fn as_slice(&self) -> &[&'a str]
        ensures { texts result.now ≡ self.now }
    {
        self.names.as_slice()
    }

    /// Whether this is one of the names.
    pub fn contains(&self, name: &str) -> bool
        ensures { result ≡ is_among name.now self.now }
    {
        self.names.contains(name)
    }

    /// The number of a name; the count of the names where it is none of them.
    pub fn number(&self, name: &str) -> usize
        ensures { result ≡ number_of name.now self.now }
    {
        self.names.get_index_of(name).unwrap_or(self.names.len())
    }

    /// Adds a name unless it is there.
    pub(crate) fn add(&mut self, name: &'a str) -> Result<(), AllocError>
        ensures { OnOk result (self.new ≡ with_name self.old name.now) }
    {
        match self.names.insert(name) {
            Ok(_) => Ok(()),
            Err(_) => Err(AllocError),
        }
    }
}
