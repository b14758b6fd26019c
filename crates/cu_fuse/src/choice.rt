//! Which arrays of a plan are made where they are read.
ghost use Rattle.std.specs.Prelude.{◌≡◌, ◌==◌, ◌||◌, ℕ, ◌+◌, ◌^◌, ◌<◌, ◌≤◌, All, IfOk};
ghost use Rattle.std.specs.Prelude.{IfSome, None, OnOk, OnSome, count_by, if◌then◌else◌, length};
ghost use Rattle.std.specs.Prelude.{map, set, slice_get, Some};
ghost use Rattle.std.specs.List.{range_with_len};
ghost use Rattle.cu_fuse.specs.Choosing.{all_stored, plan_view, IsChosenTo};
ghost use Rattle.cu_fuse.specs.Inlining.{inlining, is_numbered, prefix_where, read_count};
ghost use Rattle.cu_fuse.specs.Inlining.{MayBeInlined};
ghost use Rattle.cu_fuse.specs.Rooms.{room_within, IsModest};
ghost use Rattle.cu_name.specs.Keys.{made_prefix_of};
ghost use Rattle.cu_name.specs.Name.{IsArrayName};
ghost use Rattle.cu_op.specs.Arrays.{array_at, is_inlined, maker_at};
ghost use Rattle.cu_op.specs.Operation.{reads_of, target_of};
ghost use Rattle.cu_op.specs.PlanView.{op_of, operation_at};
ghost use Rattle.cu_op.specs.Projection.{projection};

use crate::room::{Room, joined, own_room};
use cu_name::made_prefix;
use cu_op::{ArrayInfo, Planned};
use cu_store::Key;
use std::alloc::{AllocError, Global};

/// A plan while the arrays are chosen that are made where they are read.
#[derive(Drop)]
pub(crate) struct Choice {
    pub(crate) arrays: Vec<ArrayInfo>,
    pub(crate) ops: Vec<Planned>,
    pub(crate) out: u32,
    pub(crate) allowed: u64,
    pub(crate) reserved: u64,
}

/// How often a number stands in a list.
fn times(numbers: &[u32], a: u32) -> usize
    ensures count { result ≡ count_by (λ b. b == a) numbers.now }
    ensures few { result ≤ length numbers.now }
{
    numbers.iter().filter(|b| **b == a).count()
}

/// How many inputs of operations an array is.
fn read_count(ops: &[Planned], a: u32) -> u64
    requires { length ops.now < 2 ^ 32 }
    ensures { result ≡ read_count ops.now a }
{
    let mut count = 0;
    for planned in ops {
        count += times(planned.op.reads().as_slice(), a) as u64;
    }
    count
}

impl Choice {
    /// The maker of an array that operation `k` reads; none where the array isn't to be inlined
    /// whatever it needs.
    fn maker(&self, k: u32, a: u32) -> Option<u32>
        requires few { length self.now.ops.items < 2 ^ 32 }
        requires reader { k < length self.now.ops.items }
        requires array { a < length self.now.arrays.items }
        requires makers { (m : ℕ) → maker_at self.now.arrays.items a ≡ Some m
            → m < length self.now.ops.items }
        requires target { target_of (op_of (plan_view self.now) k) < length self.now.arrays.items }
        ensures maker { IfSome result (λ m. maker_at self.now.arrays.items a ≡ Some m) }
        ensures may { OnSome result (MayBeInlined (plan_view self.now) k a) }
        ensures none { result ≡ None → MayBeInlined (plan_view self.now) k a → ⊥ }
    {
        let maker = self.arrays[a as usize].maker?;
        if a == self.out || !self.ops[maker as usize].op.writes_one_chunk() {
            return None;
        }
        if !self.ops[k as usize].op.reads_by_chunk(&self.arrays, a) {
            return None;
        }
        if read_count(&self.ops, a) != 1 {
            return None;
        }
        Some(maker)
    }

    /// Number `i` of the arrays that operation `k` reads.
    fn input(&self, k: u32, i: usize) -> u32
        requires reader { k < length self.now.ops.items }
        requires within { i < length (reads_of (op_of (plan_view self.now) k)) }
        ensures { slice_get (reads_of (op_of (plan_view self.now) k)) i ≡ Some result }
    {
        self.ops[k as usize].op.reads()[i]
    }

    /// Makes an array where it is read.
    fn inline_array(&mut self, a: u32)
        requires { a < length self.old.arrays.items }
        ensures { plan_view self.new
            ≡ inlining (plan_view self.old) (λ b. b == a || is_inlined self.old.arrays.items b) }
    {
        self.arrays[a as usize].inlined = true;
    }

    /// Chooses whether input number `i` of operation `k` is inlined, where operation `k` needs
    /// `room`, and those before it need `rooms`.
    fn choose(&mut self, rooms: &[Room], room: Room, k: u32, i: usize) -> Room
        requires chosen { IsChosenTo (plan_view self.old) k i }
        requires reader { k < length self.old.ops.items }
        requires within { i < length (reads_of (op_of (plan_view self.old) k)) }
        requires room { room ≡ room_within (plan_view self.old) k }
        requires modest { IsModest room }
        requires rooms { rooms.now ≡ map (room_within (plan_view self.old)) (range_with_len 0 k) }
        requires modest_rooms { All IsModest rooms.now }
        ensures chosen { IsChosenTo (plan_view self.new) k (i + 1) }
        ensures plan { all_stored (plan_view self.new) ≡ all_stored (plan_view self.old) }
        ensures room { result ≡ room_within (plan_view self.new) k }
        ensures modest { IsModest result }
        ensures rooms { rooms.now ≡ map (room_within (plan_view self.new)) (range_with_len 0 k) }
    {
        let a = self.input(k, i);
        let Some(maker) = self.maker(k, a) else {
            return room;
        };
        let Some(both) = joined(room, rooms[maker as usize]) else {
            return room;
        };
        if !both.fits(self.allowed, self.reserved) {
            return room;
        }
        self.inline_array(a);
        both
    }

    /// Chooses which inputs of operation `k` are inlined, and says what it needs then.
    fn choose_inputs(&mut self, rooms: &[Room], k: u32) -> Room
        requires chosen { IsChosenTo (plan_view self.old) k 0 }
        requires reader { k < length self.old.ops.items }
        requires rooms { rooms.now ≡ map (room_within (plan_view self.old)) (range_with_len 0 k) }
        requires modest_rooms { All IsModest rooms.now }
        ensures chosen { IsChosenTo (plan_view self.new) (k + 1) 0 }
        ensures plan { all_stored (plan_view self.new) ≡ all_stored (plan_view self.old) }
        ensures room { result ≡ room_within (plan_view self.new) k }
        ensures modest { IsModest result }
        ensures rooms { rooms.now ≡ map (room_within (plan_view self.new)) (range_with_len 0 k) }
    {
        let count = self.ops[k as usize].op.reads().len();
        let mut room = own_room(&self.arrays, &self.ops[k as usize].op);
        for i in 0..count {
            let next = self.choose(rooms, room, k, i);
            room = next;
        }
        room
    }

    /// Chooses which arrays are inlined, and says what each operation needs then.
    pub(crate) fn choose_all(&mut self, alloc: Global) -> Result<Vec<Room>, AllocError>
        requires { IsChosenTo (plan_view self.old) 0 0 }
        ensures chosen { OnOk result
            (IsChosenTo (plan_view self.new) (length self.old.ops.items) 0) }
        ensures plan { OnOk result
            (all_stored (plan_view self.new) ≡ all_stored (plan_view self.old)) }
        ensures rooms { IfOk result (λ rooms. rooms.items
            ≡ map (room_within (plan_view self.new))
            (range_with_len 0 (length self.old.ops.items))) }
        ensures modest { IfOk result (λ rooms. All IsModest rooms.items) }
    {
        let mut rooms = Vec::new(alloc);
        for k in 0..self.ops.len() {
            let room = self.choose_inputs(&rooms, k as u32);
            rooms.push(room)?;
        }
        Ok(rooms)
    }

    /// Says what an operation needs.
    fn set_projected(&mut self, k: usize, projected: u64)
        requires { k < length self.old.ops.items }
        ensures { plan_view self.new ≡ record (plan_view self.old) {
          ops = set self.old.ops.items k
              (record (operation_at self.old.ops.items k) { projected = projected });
        } }
    {
        self.ops[k].projected = projected;
    }

    /// Gives each operation the memory that it needs.
    pub(crate) fn set_needs(&mut self, rooms: &[Room])
        requires rooms { rooms.now
            ≡ map (room_within (plan_view self.old))
            (range_with_len 0 (length self.old.ops.items)) }
        requires modest { All IsModest rooms.now }
        requires small { (k : ℕ) → k < length self.old.ops.items
            → projection (plan_view self.old) k < 2 ^ 64 }
        ensures { plan_view self.new ≡ record (plan_view self.old) {
          ops = map
              (λ k. record (operation_at self.old.ops.items k) {
                projected = projection (plan_view self.old) k;
              })
              (range_with_len 0 (length self.old.ops.items));
        } }
    {
        for k in 0..self.ops.len() {
            let needs = rooms[k].needs(self.reserved);
            let projected = needs as u64;
            self.set_projected(k, projected);
        }
    }

    /// Whether array `a` is made, stored, and not the output.
    fn is_numbered(&self, a: u32) -> bool
        requires { a < length self.now.arrays.items }
        ensures { result ≡ is_numbered (plan_view self.now) (is_inlined self.now.arrays.items) a }
    {
        let array = &self.arrays[a as usize];
        array.maker.is_some() && a != self.out && !array.inlined
    }

    /// Gives an array a name.
    fn set_prefix(&mut self, a: u32, prefix: Key)
        requires { a < length self.old.arrays.items }
        ensures { plan_view self.new ≡ record (plan_view self.old) {
          arrays = set self.old.arrays.items a
              (record (array_at self.old.arrays.items a) { prefix = prefix });
        } }
    {
        self.arrays[a as usize].prefix = prefix;
    }

    /// Gives an array its name by the count of those before it, where it has one, and counts on.
    fn rename_array(&mut self, name: &Key, others: u32, a: u32) -> u32
        requires array { a < length self.old.arrays.items }
        requires named { IsArrayName name.now }
        requires few { others + 1 < 2 ^ 32 }
        ensures arrays { plan_view self.new ≡ record (plan_view self.old) {
          arrays = set self.old.arrays.items a
              (record (array_at self.old.arrays.items a) {
                prefix = if is_numbered (plan_view self.old) (is_inlined self.old.arrays.items) a
                    then made_prefix_of name.now others
                    else (array_at self.old.arrays.items a).prefix;
              });
        } }
        ensures count { result ≡ (if is_numbered (plan_view self.old)
            (is_inlined self.old.arrays.items) a then (others + 1) else others) }
    {
        if !self.is_numbered(a) {
            return others;
        }
        let prefix = made_prefix(name, others);
        self.set_prefix(a, prefix);
        others + 1
    }

    /// Gives the stored made arrays but the output names that close up.
    pub(crate) fn rename(&mut self)
        requires few { length self.old.arrays.items < 2 ^ 32 }
        requires out { self.old.out < length self.old.arrays.items }
        requires named { IsArrayName (array_at self.old.arrays.items self.old.out).prefix }
        ensures { plan_view self.new ≡ record (plan_view self.old) {
          arrays = map
              (λ a. record (array_at self.old.arrays.items a) {
                prefix = prefix_where (plan_view self.old) (is_inlined self.old.arrays.items) a;
              })
              (range_with_len 0 (length self.old.arrays.items));
        } }
    {
        let name = self.arrays[self.out as usize].prefix;
        let mut others = 0;
        for a in 0..self.arrays.len() {
            let next = self.rename_array(&name, others, a as u32);
            others = next;
        }
    }
}
