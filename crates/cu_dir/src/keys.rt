//! The keys that a yard serves, of which those that may be put are found by their texts.
ghost use Rattle.std.specs.Prelude.{◌≡◌, ◌||◌, ◌&&◌, ℕ, List, bytes_eq, IfOk, OnOk};
ghost use Rattle.std.specs.HashSet.{contains_text};
ghost use Rattle.cu_store.specs.Yard.{is_made};
ghost use Rattle.cu_dir.specs.Keys.{AreMadeOf};

use cu_store::{Key, NoMemory, Spec};
use std::alloc::{AllocError, Global};
use std::collections::HashSet;
use std::marker::Model;

/// The keys that a yard serves. Contracts see them as the list of their specs.
#[derive(Drop)]
pub struct Keys {
    specs: Vec<Spec>,
    made: HashSet<String>,
}

impl Model for Keys {
    ghost use Rattle.std.specs.Prelude.{List};
    ghost use Rattle.cu_store.specs.declared.yard.Spec.{Spec};
    ghost use Rattle.cu_dir.specs.Keys.{AreMadeOf};

    ghost Value = { List Spec };

    ghost view = { λ k. k.specs.items };

    ghost invariant = { λ k. AreMadeOf k.specs.items k.made };
}

impl Keys {
    /// The keys of these specs.
    pub(crate) fn of(alloc: Global, specs: &[Spec]) -> Result<Keys, NoMemory>
        ensures { IfOk result (λ keys. keys ≡ specs.now) }
    {
        let made = made_of(alloc, specs)?;
        let specs = copied(alloc, specs)?;
        Ok(Keys { specs, made })
    }

    /// Whether the key may be put.
    pub(crate) fn is_made(&self, key: &Key) -> bool
        ensures { result ≡ is_made self.now key.now }
    {
        self.made.contains(key.text())
    }
}

/// A copy of the specs.
fn copied(alloc: Global, specs: &[Spec]) -> Result<Vec<Spec>, NoMemory>
    ensures { IfOk result (λ copy. copy.items ≡ specs.now) }
{
    let mut copy = Vec::new(alloc);
    match copy.extend_from_slice(specs) {
        Ok(()) => Ok(copy),
        Err(_) => Err(NoMemory),
    }
}

/// The keys that may be put.
fn made_of(alloc: Global, specs: &[Spec]) -> Result<HashSet<String>, NoMemory>
    ensures { IfOk result (AreMadeOf specs.now) }
{
    let mut made = HashSet::new(alloc);
    for spec in specs {
        match add_made(&mut made, alloc, spec) {
            Ok(()) => {}
            Err(_) => return Err(NoMemory),
        }
    }
    Ok(made)
}

/// Adds the key, if it may be put.
fn add_made(made: &mut HashSet<String>, alloc: Global, spec: &Spec) -> Result<(), AllocError>
    ensures { OnOk result ((key : List ℕ) → contains_text made.new key ≡ (contains_text made.old key || spec.now.made && bytes_eq spec.now.key key)) }
{
    if !spec.made {
        return Ok(());
    }
    let text = String::from_str(alloc, spec.key.text())?;
    match made.insert(text) {
        Ok(_) => Ok(()),
        Err(_) => Err(AllocError),
    }
}
