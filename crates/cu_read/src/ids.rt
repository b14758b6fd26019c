//! The ids of the nodes so far, by their numbers.
ghost use Rattle.std.specs.Prelude.{◌≡◌, ◌≤◌, ◌<◌, ◌∷◌, ◌++◌, [], length, bytes_eq, false, OnOk};
ghost use Rattle.std.specs.List.{list_any, position, position_or_len};

use indexmap::IndexSet;
use std::alloc::{AllocError, Global};
use std::marker::Model;

/// The ids of the nodes so far, at most 256, each once. Contracts see them as the list of their texts.
#[derive(Drop)]
pub(crate) struct Ids {
    set: IndexSet<String>,
}

impl Model for Ids {
    ghost use Rattle.std.specs.Prelude.{◌≤◌, List, ℕ, map, length, string_bytes};

    ghost Value = { List (List ℕ) };

    ghost view = { λ i. map string_bytes i.set.keys };

    ghost invariant = { λ i. length i.set.keys ≤ 256 };
}

impl Ids {
    /// No ids.
    pub(crate) fn new(alloc: Global) -> Ids
        ensures { result ≡ [] }
    {
        Ids {
            set: IndexSet::new(alloc),
        }
    }

    /// The number of ids.
    pub(crate) fn len(&self) -> u32
        ensures count { result ≡ length self.now }
        ensures few { result ≤ 256 }
    {
        self.set.len() as u32
    }

    /// The number of the node with this id, or of the node that comes next where none has it.
    pub(crate) fn place(&self, id: &str) -> u32
        ensures { result ≡ position_or_len (bytes_eq id.now) self.now }
    {
        match self.set.get_index_of(id) {
            Some(place) => place as u32,
            None => self.set.len() as u32,
        }
    }

    /// The number of the node with this id.
    pub(crate) fn find(&self, id: &str) -> Option<u32>
        ensures { result ≡ position (bytes_eq id.now) self.now }
    {
        let place = self.place(id);
        if place < self.len() {
            Some(place)
        } else {
            None
        }
    }

    /// Whether a node has this id.
    pub(crate) fn has(&self, id: &str) -> bool
        ensures { result ≡ list_any (bytes_eq id.now) self.now }
    {
        self.set.contains(id)
    }

    /// Adds the id of the next node.
    pub(crate) fn add(&mut self, alloc: Global, id: &str) -> Result<(), AllocError>
        requires new { list_any (bytes_eq id.now) self.old ≡ false }
        requires room { length self.old < 256 }
        ensures ok { OnOk result (self.new ≡ self.old ++ id.now ∷ []) }
    {
        let text = String::from_str(alloc, id)?;
        match self.set.insert(text) {
            Ok(_) => Ok(()),
            Err(_) => Err(AllocError),
        }
    }
}
