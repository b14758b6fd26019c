//! What an operation needs with the operations inside its tasks.
ghost use Rattle.std.specs.Prelude.{◌≡◌, ◌^◌, ◌<◌, ◌≤◌, All, IfSome, None, length};
ghost use Rattle.cu_fuse.specs.Rooms.{joined, needs, own_room, room_fits, IsModest};
ghost use Rattle.cu_op.specs.Operation.{reads_of, writes_of};
ghost use Rattle.cu_op.specs.Projection.{input_room};

use cu_op::{ArrayInfo, Op, input_room, output_room, scratch_room};

/// What an operation needs with the operations inside its tasks.
#[derive(Clone, Copy)]
pub(crate) struct Room {
    /// The instructions of all of them.
    pub(crate) steps: u32,
    /// The stored arrays that they read; one that is read twice counts twice.
    pub(crate) reads: u32,
    /// The greatest chunk of an array that one of them reads or writes, in bytes.
    pub(crate) scratch: u64,
    /// The input regions of all of them, in bytes.
    pub(crate) inputs: u64,
    /// The output regions of the outermost one, in bytes.
    pub(crate) output: u64,
}

impl Room {
    /// The bytes of memory that a worker needs for a task, the reserved ones counted.
    pub(crate) fn needs(self, reserved: u64) -> u128
        requires { self.steps ≤ 64 }
        ensures { result ≡ needs reserved self }
    {
        u128::from(reserved)
            + u128::from(self.scratch)
            + u128::from(self.inputs)
            + u128::from(self.output)
            + 512 * u128::from(self.steps)
    }

    /// Whether an operation may need so much, with others inside its tasks.
    pub(crate) fn fits(self, allowed: u64, reserved: u64) -> bool
        requires { self.steps ≤ 64 }
        ensures { result ≡ room_fits allowed reserved self }
    {
        self.steps <= 32 && self.reads <= 8 && self.needs(reserved) <= u128::from(allowed)
    }
}

/// What an operation needs alone, over stored arrays.
pub(crate) fn own_room(arrays: &[ArrayInfo], op: &Op) -> Room
    requires reads { All (λ a. a < length arrays.now) (reads_of op.now) }
    requires writes { All (λ a. a < length arrays.now) (writes_of op.now) }
    requires small { input_room arrays.now op.now < 2 ^ 64 }
    ensures room { result ≡ own_room arrays.now op.now }
    ensures steps { result.steps ≤ 32 }
    ensures reads { result.reads ≤ 8 }
{
    Room {
        steps: op.steps(),
        reads: op.reads().len() as u32,
        scratch: scratch_room(arrays, op),
        inputs: input_room(arrays, op),
        output: output_room(arrays, op),
    }
}

/// What an operation needs with another inside its tasks; none where the input regions of both are
/// past 64 bits. The result of the inner one is an input region of the outer one, and is counted
/// there alone.
pub(crate) fn joined(outer: Room, inner: Room) -> Option<Room>
    requires outer { IsModest outer }
    requires inner { IsModest inner }
    requires read { 0 < outer.reads }
    ensures room { IfSome result (λ room. room ≡ joined outer inner) }
    ensures none { result ≡ None → 2 ^ 64 ≤ (joined outer inner).inputs }
{
    let inputs = outer.inputs.checked_add(inner.inputs)?;
    Some(Room {
        steps: outer.steps + inner.steps,
        reads: outer.reads + inner.reads - 1,
        scratch: outer.scratch.max(inner.scratch),
        inputs,
        output: outer.output,
    })
}
