//! The documents that a server holds.

ghost use Rattle.std.specs.Prelude.{◌≡◌, ◌||◌, None, option_map, IfSome, OnOk, OnErr, string_bytes};
ghost use Rattle.std.specs.FinMap as map;
ghost use Rattle.rpc.specs.Loss.TheVariants.{Memory};
ghost use Rattle.sessions.specs.Documents.{has_room, is_lost};
ghost use Rattle.server.specs.Holding.{entry_view, IsEntryOf};

use crate::entry::Entry;
use docs::Language;
use rpc::Loss;
use std::alloc::{AllocError, Global};
use std::collections::BTreeMap;
use std::marker::Model;
use std::mem::replace;

/// How many documents are held at most, lost ones among them.
pub const MOST_DOCUMENTS: usize = 64;

/// A language, and the documents that are held, by their URIs, which are compared byte for byte.
/// Each open document is one of the language.
#[derive(Drop)]
pub struct Documents {
    language: Language,
    by_uri: BTreeMap<String, Entry>,
}

impl Model for Documents {
    ghost use Rattle.std.specs.Coded.{codes};
    ghost use Rattle.definitions.specs.contracts.expression.Expression as e;
    ghost use Rattle.server.specs.Holding.{Holding, documents_of, AreCurrent};
    ghost use Rattle.sessions.specs.Stored.{held_code};

    ghost Value = { Holding };

    ghost coded = { Prim.hlevel (codes, held_code, e.the_row.coded) };

    ghost view = { λ d. record {
      language = d.language;
      documents = documents_of d.by_uri.entries;
    } };

    ghost invariant = { λ d. AreCurrent d.language d.by_uri.entries };
}

impl Documents {
    /// None is held.
    pub fn new(alloc: Global, language: Language) -> Documents
        ensures language { result.language ≡ language }
        ensures documents { result.documents ≡ map.empty }
    {
        Documents {
            language,
            by_uri: BTreeMap::new(alloc),
        }
    }

    /// The language of the documents.
    pub fn language(&self) -> &Language
        ensures { result.now ≡ self.now.language }
    {
        &self.language
    }

    /// What is held under this URI, if anything is.
    pub fn get(&self, uri: &str) -> Option<&Entry>
        ensures is { let held = map.get self.now.documents uri.now in
            option_map (λ e. entry_view e.now) result ≡ held }
        ensures current { IfSome result (λ e. IsEntryOf self.now.language e.now) }
    {
        self.by_uri.get(uri)
    }

    /// Whether anything is held under this URI.
    pub fn holds(&self, uri: &str) -> bool
        ensures { result ≡ map.contains_key self.now.documents uri.now }
    {
        self.by_uri.contains_key(uri)
    }

    /// Holds the entry under this URI, in the place of the one before. Refuses for memory alone,
    /// and only where nothing was held under it.
    pub fn insert(&mut self, uri: String, entry: Entry) -> Result<(), AllocError>
        requires { IsEntryOf self.old.language entry }
        ensures ok { let old = self.old.documents in
            let held = map.insert old (string_bytes uri) (entry_view entry) in
            OnOk result (self.new.documents ≡ held) }
        ensures err { OnErr result (self.new.documents ≡ self.old.documents) }
        ensures absent { OnErr result (map.get self.old.documents (string_bytes uri) ≡ None) }
        ensures language { self.new.language ≡ self.old.language }
    {
        self.by_uri.insert(uri, entry)?;
        Ok(())
    }

    /// Takes out what is held under this URI, if anything is. Until another entry is held there,
    /// it counts as lost for memory. It takes no memory.
    pub fn take(&mut self, uri: &str) -> Option<Entry>
        ensures is { option_map (entry_view) result ≡ map.get self.old.documents uri.now }
        ensures current { IfSome result (IsEntryOf self.old.language) }
        ensures documents { let held = map.insert self.old.documents uri.now (is_lost Memory) in
            IfSome result (λ _. self.new.documents ≡ held) }
        ensures nothing { result ≡ None → self.new.documents ≡ self.old.documents }
        ensures language { self.new.language ≡ self.old.language }
    {
        match self.by_uri.get_mut(uri) {
            Some(held) => Some(replace(held, Entry::Lost(Loss::Memory))),
            None => None,
        }
    }

    /// Removes what is held under this URI, and says whether anything was.
    pub fn remove(&mut self, uri: &str) -> bool
        ensures is { result ≡ map.contains_key self.old.documents uri.now }
        ensures documents { self.new.documents ≡ map.remove self.old.documents uri.now }
        ensures language { self.new.language ≡ self.old.language }
    {
        self.by_uri.remove(uri).is_some()
    }

    /// Whether something is held under this URI already, or one more document may be held.
    pub fn has_room(&self, uri: &str) -> bool
        ensures { result ≡ has_room uri.now self.now.documents }
    {
        self.holds(uri) || self.by_uri.len() < MOST_DOCUMENTS
    }
}
