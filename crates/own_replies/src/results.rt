//! The colours that were sent, and what changed since.

ghost use Rattle.std.specs.Prelude.{◌≡◌, None, option_map, IfOk};
ghost use Rattle.editor_replies.specs.Sent.{NumbersEdit, change_view};
ghost use Rattle.own_replies.specs.Replies.{edited, since};
ghost use Rattle.own_replies.specs.Servers.{after, last_of, number_of, state_with, told_view};
ghost use Rattle.server.specs.declared.state.Server.{Server};
ghost use Rattle.shown.specs.declared.shown.Shown.{Shown};

use colours::{DataEdit, delta};
use editor_replies::Change;
use std::alloc::{AllocError, Global};

/// The colours of a whole document that were sent last.
#[derive(Debug, Drop)]
pub(crate) struct Told {
    pub uri: String,
    /// The name of the result.
    pub name: String,
    pub numbers: Vec<u32>,
}

/// The results with the colours of whole documents that were sent.
#[derive(Debug, Drop)]
pub struct Results {
    /// How many they are, at most 2^64 - 1.
    pub(crate) number: u64,
    /// The last one, since which changes are asked for.
    pub(crate) last: Option<Told>,
}

impl Results {
    /// None.
    pub fn new() -> Results
        ensures number { number_of result ≡ 0 }
        ensures last { last_of result ≡ None }
    {
        Results {
            number: 0,
            last: None,
        }
    }

    /// Forgets the last one: all numbers are sent where changes since it are asked for.
    pub fn forget(&mut self)
        ensures number { number_of self.new ≡ number_of self.old }
        ensures last { last_of self.new ≡ None }
    {
        self.last = None;
    }

    /// Adds one, if there is one.
    pub(crate) fn add(&mut self, told: Option<Told>)
        ensures { (core : Server) (shown : Shown)
            → state_with core shown self.new ≡ after (state_with core shown self.old) told }
    {
        if let Some(told) = told {
            self.number = self.number.saturating_add(1);
            self.last = Some(told);
        }
    }
}

/// The numbers that were sent last, where they are this document's and the result has this name.
pub(crate) fn since<'t>(told: &'t Option<Told>, uri: &str, previous: &str) -> Option<&'t [u32]>
    ensures { option_map (λ numbers. numbers.now) result
        ≡ since (option_map told_view told.now) uri.now previous.now }
{
    match told {
        Some(told) if told.uri.as_str() == uri && told.name.as_str() == previous => {
            Some(&told.numbers)
        }
        _ => None,
    }
}

/// An edit of numbers, with its own copy of them.
fn change_of(alloc: Global, edit: DataEdit<'_>) -> Result<Change, AllocError>
    ensures { let edit = edit.entry in
        let copied : NumbersEdit = record {
          start = edit.start;
          delete_count = edit.delete_count;
          numbers = edit.numbers.now;
        } in
        IfOk result (λ change. change_view change ≡ copied) }
{
    Ok(Change {
        start: edit.start,
        delete_count: edit.delete_count,
        numbers: Vec::from_slice(alloc, edit.numbers)?,
    })
}

/// What makes the new numbers of the old ones; none where they are the same.
pub(crate) fn change(alloc: Global, old: &[u32], new: &[u32]) -> Result<Option<Change>, AllocError>
    ensures { IfOk result (λ change. edited (option_map change_view change) old.now ≡ new.now) }
{
    match delta(old, new) {
        Some(edit) => Ok(Some(change_of(alloc, edit)?)),
        None => Ok(None),
    }
}
