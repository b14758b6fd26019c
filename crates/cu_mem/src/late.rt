//! Puts that failed and land at a later call.
ghost use Rattle.std.specs.Prelude.{◌≡◌, ◌≤◌, ◌+◌, ℕ, List, IsTrue, vec_len};
ghost use Rattle.std.specs.Option.{option_or};
ghost use Rattle.std.specs.Vec.{vec_capacity};
ghost use Rattle.cu_mem.specs.Entries.{held_in, has_place};
ghost use Rattle.cu_mem.specs.Late.{lands_on, waiting};

use crate::entries::{Slot, StoredKey, store};

/// A put that failed, and after how many further calls it lands.
#[derive(Drop)]
pub(crate) struct Waiting {
    pub(crate) entry: StoredKey,
    pub(crate) wait: u32,
}

/// A call begins: the late puts that wait for no further call land, in the order in which they
/// failed, and the others wait for one call less.
pub(crate) fn land_due(slots: &mut Vec<Slot>, late: &mut Vec<Waiting>)
    requires { vec_len slots.old + vec_len late.old ≤ vec_capacity slots.old }
    ensures landed { (key : List ℕ) → held_in slots.new.items key ≡ option_or (lands_on late.old.items key) (held_in slots.old.items key) }
    ensures places { (key : List ℕ) → IsTrue (has_place slots.old.items key) → IsTrue (has_place slots.new.items key) }
    ensures waiting { late.new.items ≡ waiting late.old.items }
    ensures fewer { vec_len slots.new + vec_len late.new ≤ vec_len slots.old + vec_len late.old }
    ensures short { vec_len late.new ≤ vec_len late.old }
    ensures capacity { (vec_capacity slots.old ≤ vec_capacity slots.new) × (vec_capacity late.old ≤ vec_capacity late.new) }
{
    let mut i = 0;
    while i < late.len() {
        if late[i].wait == 0 {
            let Waiting { entry, wait: _ } = late.remove(i);
            store(slots, entry);
        } else {
            late[i].wait -= 1;
            i += 1;
        }
    }
}
