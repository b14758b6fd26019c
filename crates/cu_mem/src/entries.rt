//! What is held: a list of places for keys, each with its bytes where the key is held. The first
//! place of a key counts.
ghost use Rattle.std.specs.Prelude.{◌≡◌, ◌<◌, ◌≤◌, ◌+◌, ℕ, List, IfOk, OnOk, IsTrue, None, Some, option_map, if◌then◌else◌, vec_len};
ghost use Rattle.std.specs.Vec.{vec_capacity};
ghost use Rattle.std.specs.List.{position};
ghost use Rattle.std.specs.Option.{option_copied};
ghost use Rattle.std.specs.Str.{bytes_eq};
ghost use Rattle.cu_mem.specs.Entries.{held_in, has_place, IsFirstUnder};

use cu_cells::same_key;
use cu_store::{Key, NoMemory};
use std::alloc::Global;
use std::marker::Model;

/// A key and its bytes.
#[derive(Drop)]
pub(crate) struct StoredKey {
    key: Key,
    bytes: Vec<u8>,
}

impl Model for StoredKey {
    ghost use Rattle.std.specs.Prelude.{ℕ, List};

    ghost Value = { List ℕ × List ℕ };

    ghost view = { λ e. (e.key, e.bytes.items) };
}

impl StoredKey {
    /// The key, with these bytes.
    pub(crate) fn of(key: Key, bytes: Vec<u8>) -> StoredKey
        ensures { result ≡ (key, bytes.items) }
    {
        StoredKey { key, bytes }
    }

    /// The key, with a copy of the bytes.
    pub(crate) fn copy(alloc: Global, key: &Key, bytes: &[u8]) -> Result<StoredKey, NoMemory>
        ensures { IfOk result (λ e. e ≡ (key.now, bytes.now)) }
    {
        match Vec::from_slice(alloc, bytes) {
            Ok(bytes) => Ok(StoredKey { key: *key, bytes }),
            Err(_) => Err(NoMemory),
        }
    }
}

/// A place for a key, and its bytes where it is held. A key keeps its place once it has one.
#[derive(Drop)]
pub(crate) struct Slot {
    key: Key,
    bytes: Option<Vec<u8>>,
}

impl Model for Slot {
    ghost use Rattle.std.specs.Prelude.{ℕ, List, Option, option_map};

    ghost Value = { List ℕ × Option (List ℕ) };

    ghost view = { λ s. (s.key, option_map (λ v. v.items) s.bytes) };
}

impl Slot {
    /// Whether it is the key's.
    fn is_under(&self, key: &Key) -> bool
        ensures { result ≡ bytes_eq self.now.0 key.now }
    {
        same_key(&self.key, key)
    }

    /// The bytes, where the key is held.
    fn bytes(&self) -> Option<&[u8]>
        ensures { option_copied result ≡ self.now.1 }
    {
        match &self.bytes {
            Some(bytes) => Some(bytes.as_slice()),
            None => None,
        }
    }
}

/// The place of a key.
fn place_of(slots: &[Slot], key: &Key) -> Option<usize>
    ensures { result ≡ position (λ e. bytes_eq e.0 key.now) slots.now }
{
    slots.iter().position(|e| e.is_under(key))
}

/// The bytes that are held under a key.
pub(crate) fn bytes_of<'a>(slots: &'a [Slot], key: &Key) -> Option<&'a [u8]>
    ensures { option_copied result ≡ held_in slots.now key.now }
{
    for e in slots {
        if e.is_under(key) {
            return e.bytes();
        }
    }
    None
}

/// Puts bytes in the place of a key that has one.
fn set_place(slots: &mut Vec<Slot>, at: usize, key: Key, bytes: Option<Vec<u8>>)
    requires at { at < vec_len slots.old }
    requires first { IsFirstUnder slots.old.items at key }
    ensures held { (k : List ℕ) → held_in slots.new.items k ≡ (if bytes_eq key k then option_map (λ v. v.items) bytes else held_in slots.old.items k) }
    ensures places { (k : List ℕ) → has_place slots.new.items k ≡ has_place slots.old.items k }
    ensures len { vec_len slots.new ≡ vec_len slots.old }
    ensures capacity { vec_capacity slots.new ≡ vec_capacity slots.old }
{
    slots[at] = Slot { key, bytes };
}

/// Puts an entry in the place of its key, or at the end, where there is room for it.
pub(crate) fn store(slots: &mut Vec<Slot>, entry: StoredKey)
    requires { vec_len slots.old < vec_capacity slots.old }
    ensures stored { (key : List ℕ) → held_in slots.new.items key ≡ (if bytes_eq entry.0 key then Some entry.1 else held_in slots.old.items key) }
    ensures places { (key : List ℕ) → IsTrue (has_place slots.old.items key) → IsTrue (has_place slots.new.items key) }
    ensures len { vec_len slots.new ≤ vec_len slots.old + 1 }
    ensures capacity { vec_capacity slots.old ≤ vec_capacity slots.new }
{
    let StoredKey { key, bytes } = entry;
    match place_of(slots, &key) {
        Some(i) => set_place(slots, i, key, Some(bytes)),
        None => match slots.push(Slot {
            key,
            bytes: Some(bytes),
        }) {
            Ok(()) => {}
            Err(_) => unreachable!(),
        },
    }
}

/// Puts these bytes in the place of a key that has one.
pub(crate) fn fill_place(slots: &mut Vec<Slot>, key: &Key, bytes: Vec<u8>)
    requires { IsTrue (has_place slots.old.items key.now) }
    ensures stored { (k : List ℕ) → held_in slots.new.items k ≡ (if bytes_eq key.now k then Some bytes.items else held_in slots.old.items k) }
    ensures places { (k : List ℕ) → has_place slots.new.items k ≡ has_place slots.old.items k }
    ensures len { vec_len slots.new ≡ vec_len slots.old }
    ensures capacity { vec_capacity slots.new ≡ vec_capacity slots.old }
{
    match place_of(slots, key) {
        Some(i) => set_place(slots, i, *key, Some(bytes)),
        None => unreachable!(),
    }
}

/// Makes a key absent. It keeps its place.
pub(crate) fn take_away(slots: &mut Vec<Slot>, gone: &Key)
    ensures gone { (key : List ℕ) → held_in slots.new.items key ≡ (if bytes_eq gone.now key then None else held_in slots.old.items key) }
    ensures places { (key : List ℕ) → has_place slots.new.items key ≡ has_place slots.old.items key }
    ensures len { vec_len slots.new ≡ vec_len slots.old }
    ensures capacity { vec_capacity slots.new ≡ vec_capacity slots.old }
{
    match place_of(slots, gone) {
        Some(i) => set_place(slots, i, *gone, None),
        None => {}
    }
}

/// Gives a key a place, and keeps room for so many more.
pub(crate) fn keep_place(slots: &mut Vec<Slot>, key: &Key, more: usize) -> Result<(), NoMemory>
    requires { vec_len slots.old + more ≤ vec_capacity slots.old }
    ensures held { (k : List ℕ) → held_in slots.new.items k ≡ held_in slots.old.items k }
    ensures places { (k : List ℕ) → IsTrue (has_place slots.old.items k) → IsTrue (has_place slots.new.items k) }
    ensures kept { OnOk result (IsTrue (has_place slots.new.items key.now)) }
    ensures room { vec_len slots.new + more ≤ vec_capacity slots.new }
{
    match place_of(slots, key) {
        Some(_) => return Ok(()),
        None => {}
    }
    match slots.reserve(more + 1) {
        Ok(()) => {}
        Err(_) => return Err(NoMemory),
    }
    match slots.push(Slot {
        key: *key,
        bytes: None,
    }) {
        Ok(()) => Ok(()),
        Err(_) => unreachable!(),
    }
}
