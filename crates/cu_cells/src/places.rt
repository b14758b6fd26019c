//! The places of keys, looked up by their texts.
ghost use Rattle.std.specs.Prelude.{◌≡◌, ◌∷◌, ◌++◌, [], IfOk, OnOk, bytes_eq, false, map};
ghost use Rattle.std.specs.List.{list_any, position};
ghost use Rattle.cu_store.specs.Share.{KeysDiffer};

use cu_store::{Key, NoMemory, Spec};
use indexmap::IndexSet;
use std::alloc::{AllocError, Global};
use std::marker::Model;

/// Keys that differ, in order, each found by its text. Contracts see them as the list of their
/// texts.
#[derive(Drop)]
pub struct Places {
    set: IndexSet<String>,
}

impl Model for Places {
    ghost use Rattle.std.specs.Prelude.{List, ℕ, map, string_bytes};

    ghost Value = { List (List ℕ) };

    ghost view = { λ p. map string_bytes p.set.keys };
}

impl Places {
    /// No keys.
    fn new(alloc: Global) -> Places
        ensures { result ≡ [] }
    {
        Places {
            set: IndexSet::new(alloc),
        }
    }

    /// The place of a key.
    pub(crate) fn find(&self, key: &Key) -> Option<usize>
        ensures { result ≡ position (bytes_eq key.now) self.now }
    {
        self.set.get_index_of(key.text())
    }

    /// Adds the next key.
    fn add(&mut self, alloc: Global, key: &Key) -> Result<(), AllocError>
        requires new { list_any (bytes_eq key.now) self.old ≡ false }
        ensures ok { OnOk result (self.new ≡ self.old ++ key.now ∷ []) }
    {
        let text = String::from_str(alloc, key.text())?;
        match self.set.insert(text) {
            Ok(_) => Ok(()),
            Err(_) => Err(AllocError),
        }
    }
}

/// The places of these keys.
pub(crate) fn places_of(alloc: Global, specs: &[Spec]) -> Result<Places, NoMemory>
    requires { KeysDiffer specs.now }
    ensures { IfOk result (λ p. p ≡ map (λ s. s.key) specs.now) }
{
    let mut places = Places::new(alloc);
    for spec in specs {
        match places.add(alloc, &spec.key) {
            Ok(()) => {}
            Err(_) => return Err(NoMemory),
        }
    }
    Ok(places)
}
