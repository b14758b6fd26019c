//! The memory that tasks are lent.
ghost use Rattle.std.specs.Prelude.{◌≡◌, ◌<◌, ◌≤◌, IfOk, length, vec_capacity, vec_len};
ghost use Rattle.cu_work.specs.Rooms.{task_bytes, task_words, rooms_of};

use cu_op::{Plan, projected, steps_within};
use cu_store::NoMemory;
use std::alloc::Global;
use std::marker::Model;
use std::mem;

/// The memory of one worker: the most bytes and the most words that any task of a plan is lent. It is
/// seen as how many are taken of each.
#[derive(Drop)]
pub struct Rooms {
    pub(crate) bytes: Vec<u8>,
    pub(crate) words: Vec<u64>,
}

impl Model for Rooms {
    ghost use Rattle.std.specs.Prelude.{vec_capacity};
    ghost use Rattle.cu_work.specs.Rooms.{RoomSizes};

    ghost Value = { RoomSizes };

    ghost view = { λ r. record { bytes = vec_capacity r.bytes; words = vec_capacity r.words } };
}

impl Rooms {
    /// The memory for the tasks of the plan. It is taken, and nothing is written to it.
    pub fn make(alloc: Global, plan: &Plan) -> Result<Rooms, NoMemory>
        ensures { IfOk result (λ rooms. rooms ≡ rooms_of plan.now) }
    {
        let mut most_bytes = 0;
        let mut most_words = 0;
        for op in 0..plan.ops().len() as u32 {
            most_bytes = task_bytes(plan, op).max(most_bytes);
            most_words = task_words(plan, op).max(most_words);
        }
        let Ok(bytes) = Vec::with_capacity(alloc, most_bytes) else {
            return Err(NoMemory);
        };
        let Ok(words) = Vec::with_capacity(alloc, most_words) else {
            return Err(NoMemory);
        };
        Ok(Rooms { bytes, words })
    }
}

/// Writes zeros behind these until there are at least so many, within the memory that is taken for them.
pub(crate) fn write_zeros<T: Copy + Drop>(items: &mut Vec<T>, zero: T, count: usize)
    requires { count ≤ vec_capacity items.old }
    ensures many { count ≤ vec_len items.new }
    ensures taken { vec_capacity items.new ≡ vec_capacity items.old }
{
    // Taken out of the reference: through it the length would be stored after each item.
    let none = Vec::new(*items.allocator());
    let mut filled = mem::replace(items, none);
    while filled.len() < count {
        filled.push_reserved(zero);
    }
    *items = filled;
}

/// The bytes that a task of the operation is lent, besides its words.
pub fn task_bytes(plan: &Plan, op: u32) -> usize
    requires { op < length plan.now.ops }
    ensures { result ≡ task_bytes plan.now op }
{
    // that the plan is sound is told by the plan alone
    let _ops = plan.ops();
    (projected(plan, op) - plan.reserved() - 512 * steps_within(plan, op)) as usize
}

/// The words that a task of the operation is lent.
pub fn task_words(plan: &Plan, op: u32) -> usize
    requires { op < length plan.now.ops }
    ensures { result ≡ task_words plan.now op }
{
    let _ops = plan.ops();
    64 * steps_within(plan, op) as usize
}
