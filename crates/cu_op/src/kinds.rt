//! What goes by the kind of an operation.
ghost use Rattle.std.specs.Prelude.{◌≡◌, ◌^◌, ◌<◌, ◌≤◌, ◌∷◌, [], All, IfSome, None, Some, length, map, pred};
ghost use Rattle.cu_shape.specs.Index.{IsInside};
ghost use Rattle.cu_grid.specs.Grid.{IsGrid};
ghost use Rattle.cu_op.specs.Along.{carried_reads};
ghost use Rattle.cu_op.specs.Cells.{task_grid};
ghost use Rattle.cu_op.specs.KindText.{kind_text};
ghost use Rattle.cu_op.specs.Kind.Map.{map_of};
ghost use Rattle.cu_op.specs.Kinds.{ReducesToValues, ReducesToPlaces};
ghost use Rattle.cu_op.specs.Numbers.{number_in};
ghost use Rattle.cu_op.specs.Operation.{Fits, reads_by_chunk, reads_of, writes_of, target_of};
ghost use Rattle.cu_op.specs.Operation.{compared_array, kernel_of, renumbered, value_array};
ghost use Rattle.cu_op.specs.Operation.{writes_one_chunk};
ghost use Rattle.cu_op.specs.Projection.{input_room, output_room, instruction_count};
ghost use Rattle.cu_op.specs.Walks.{region_walks};

mod along;
mod group_fold;
mod map;
mod mul;
mod pull;

use self::along::{carried_room, carry_walks, scan_walks};
use self::group_fold::{grouped_walk, labels_walk};
use self::map::map_walks;
use self::mul::{left_walk, right_walk};
use self::pull::{same_pull, whole_walks};
use crate::copies::same_list;
use crate::groups::{GroupedAxes, chunk_walk, merge_walk};
use crate::kernel::Kernel;
use crate::layout::{ArrayInfo, same_grid};
use crate::memory::{bytes_of, chunk_room, rooms, value_room};
use crate::numbers::{new_number, new_option, renumber_both, renumber_inputs, stands_in};
use crate::operation::Op;
use crate::walks::Walk;
use arrayvec::{ArrayString, ArrayVec};
use cu_grid::{Grid, Region};

impl Op {
    /// The map of this kernel over these arrays into another.
    pub fn map_of(kernel: Kernel, ins: ArrayVec<u32, 8>, out: u32) -> Op
        ensures { result ≡ map_of kernel.code.items ins.items out }
    {
        Op::Map { kernel, ins, out }
    }

    /// The arrays that it reads, in order; one that it reads twice stands twice.
    pub fn reads(&self) -> ArrayVec<u32, 8>
        ensures { result.items ≡ reads_of self.now }
    {
        match self {
            Op::Map { ins, .. } => same_list(ins),
            Op::Pull { ins, .. } => same_list(ins),
            Op::Copy { source, .. }
            | Op::Fold { source, .. }
            | Op::Merge { source, .. }
            | Op::PairFold { source, .. } => list_of(&[*source]),
            Op::PairMerge {
                value_source,
                place_source,
                ..
            } => list_of(&[*value_source, *place_source]),
            Op::Mul { left, right, .. } => list_of(&[*left, *right]),
            Op::Carry { sums, above, .. } => with_carried(*sums, *above),
            Op::Scan { source, carry, .. } => with_carried(*source, *carry),
            Op::GroupFold { source, labels, .. } => list_of(&[*source, *labels]),
        }
    }

    /// The arrays that it writes, in order.
    pub fn writes(&self) -> ArrayVec<u32, 2>
        ensures { result.items ≡ writes_of self.now }
    {
        match self {
            Op::PairFold {
                values: Some(values),
                out,
                ..
            }
            | Op::PairMerge {
                values: Some(values),
                out,
                ..
            } => list_of(&[*values, *out]),
            other => list_of(&[other.target()]),
        }
    }

    /// The array that its tasks go over: its result.
    pub fn target(&self) -> u32
        ensures { result ≡ target_of self.now }
    {
        match self {
            Op::Map { out, .. }
            | Op::Pull { out, .. }
            | Op::Copy { out, .. }
            | Op::Fold { out, .. }
            | Op::Merge { out, .. }
            | Op::PairFold { out, .. }
            | Op::PairMerge { out, .. }
            | Op::Mul { out, .. }
            | Op::Carry { out, .. }
            | Op::Scan { out, .. }
            | Op::GroupFold { out, .. } => *out,
        }
    }

    /// Whether each of its tasks writes one chunk, and nothing else.
    pub fn writes_one_chunk(&self) -> bool
        ensures { result ≡ writes_one_chunk self.now }
    {
        match self {
            Op::Map { .. }
            | Op::Pull { .. }
            | Op::Fold { .. }
            | Op::Merge { .. }
            | Op::Mul { .. }
            | Op::Scan { .. }
            | Op::GroupFold { .. } => true,
            Op::Copy { .. } | Op::PairFold { .. } | Op::PairMerge { .. } | Op::Carry { .. } => {
                false
            }
        }
    }

    /// Whether each of its tasks reads one chunk of the array.
    pub fn reads_by_chunk(&self, arrays: &[ArrayInfo], array: u32) -> bool
        requires array { array < length arrays.now }
        requires target { target_of self.now < length arrays.now }
        ensures { result ≡ reads_by_chunk arrays.now self.now array }
    {
        match self {
            Op::Map { ins, out, .. } => {
                stands_in(ins.as_slice(), array) && same_grid(arrays, array, *out)
            }
            Op::Fold { source, .. }
            | Op::PairFold { source, .. }
            | Op::Scan { source, .. }
            | Op::GroupFold { source, .. } => array == *source,
            _ => false,
        }
    }

    /// The kernel of a map; no other operation has one.
    pub fn kernel(&self) -> Option<&Kernel>
        ensures kernel { IfSome result
            (λ kernel. kernel_of self.now ≡ Some kernel.now.code.items) }
        ensures none { result ≡ None → kernel_of self.now ≡ None }
    {
        match self {
            Op::Map { kernel, .. } => Some(kernel),
            _ => None,
        }
    }

    /// The number of steps of its kernel, 0 where it has none.
    pub fn steps(&self) -> u32
        ensures count { result ≡ instruction_count self.now }
        ensures few { result ≤ 32 }
    {
        match self.kernel() {
            Some(kernel) => kernel.code.len() as u32,
            None => 0,
        }
    }

    /// Gives each of its arrays its place in `numbers` as its number.
    pub fn renumber(&mut self, numbers: &[u32])
        requires { length numbers.now < 2 ^ 32 }
        ensures { self.new ≡ renumbered (number_in numbers.now) self.old }
    {
        match self {
            Op::Map { ins, out, .. } => renumber_inputs(numbers, ins, out),
            Op::Pull { ins, out, .. } => renumber_inputs(numbers, ins, out),
            Op::Copy { source, out, .. } => renumber_both(numbers, source, out),
            Op::Fold { source, out, .. } => renumber_both(numbers, source, out),
            Op::Merge { source, out, .. } => renumber_both(numbers, source, out),
            Op::PairFold {
                source,
                values,
                out,
                ..
            } => {
                renumber_both(numbers, source, out);
                *values = new_option(numbers, *values);
            }
            Op::PairMerge {
                value_source,
                place_source,
                values,
                out,
                ..
            } => {
                renumber_both(numbers, value_source, place_source);
                *values = new_option(numbers, *values);
                *out = new_number(numbers, *out);
            }
            Op::Mul { left, right, out } => {
                renumber_both(numbers, left, right);
                *out = new_number(numbers, *out);
            }
            Op::Carry {
                sums,
                above,
                out,
                ..
            } => {
                renumber_both(numbers, sums, out);
                *above = new_option(numbers, *above);
            }
            Op::Scan {
                source,
                carry,
                out,
                ..
            } => {
                renumber_both(numbers, source, out);
                *carry = new_option(numbers, *carry);
            }
            Op::GroupFold {
                source,
                labels,
                out,
                ..
            } => {
                renumber_both(numbers, source, labels);
                *out = new_number(numbers, *out);
            }
        }
    }

    /// The array whose elements a search compares.
    pub fn compared(&self) -> Option<u32>
        ensures { result ≡ compared_array self.now }
    {
        match self {
            Op::PairFold { source, .. } => Some(*source),
            Op::PairMerge { value_source, .. } => Some(*value_source),
            _ => None,
        }
    }

    /// The array in which a search stores the values.
    pub fn stored(&self) -> Option<u32>
        ensures { result ≡ value_array self.now }
    {
        match self {
            Op::PairFold { values, .. } | Op::PairMerge { values, .. } => *values,
            _ => None,
        }
    }
}

/// The list of these arrays.
fn list_of<const CAP: usize>(arrays: &[u32]) -> ArrayVec<u32, CAP>
    requires { length arrays.now ≤ CAP }
    ensures { result.items ≡ arrays.now }
{
    let mut list = ArrayVec::new();
    match list.try_extend_from_slice(arrays) {
        Ok(()) => list,
        Err(_) => unreachable!(),
    }
}

/// The list of an array and of what is carried in beside it.
fn with_carried(array: u32, carry: Option<u32>) -> ArrayVec<u32, 8>
    ensures { result.items ≡ array ∷ carried_reads carry }
{
    match carry {
        None => list_of(&[array]),
        Some(carry) => list_of(&[array, carry]),
    }
}

/// The name of a kind of operation.
pub type KindText = ArrayString<12>;

/// The name of the operation's kind, as a plan is printed.
pub fn kind_name(op: &Op) -> KindText
    ensures { result.bytes ≡ kind_text op.now }
{
    let mut text = KindText::new();
    match op {
        Op::Map { .. } => text.push_str("map"),
        Op::Pull { .. } => text.push_str("pull"),
        Op::Copy { .. } => text.push_str("copy"),
        Op::Fold { .. } => text.push_str("fold"),
        Op::Merge { .. } => text.push_str("merge"),
        Op::PairFold { .. } => text.push_str("pairfold"),
        Op::PairMerge { .. } => text.push_str("pairmerge"),
        Op::Mul { .. } => text.push_str("mul"),
        Op::Carry { .. } => text.push_str("carry"),
        Op::Scan { .. } => text.push_str("scan"),
        Op::GroupFold { .. } => text.push_str("groupfold"),
    }
    text
}

/// The grid each of whose chunks is the region of a task.
pub(crate) fn grid_of_tasks(arrays: &[ArrayInfo], op: &Op) -> Grid
    requires target { target_of op.now < length arrays.now }
    requires regions { IsGrid (task_grid arrays.now op.now) }
    ensures { result ≡ task_grid arrays.now op.now }
{
    match op {
        Op::Copy { region, out, .. } => {
            Grid::make_middle(*arrays[*out as usize].layout.grid.shape(), *region)
        }
        other => arrays[other.target() as usize].layout.grid,
    }
}

/// Of each array that the operation reads the region from which a region of the result is computed, which has elements.
pub(crate) fn read_walks(arrays: &[ArrayInfo], op: &Op, region: &Region) -> ArrayVec<Walk, 8>
    requires reads { All (λ a. a < length arrays.now) (reads_of op.now) }
    requires target { target_of op.now < length arrays.now }
    requires fits { Fits arrays.now op.now }
    requires first { IsInside (task_grid arrays.now op.now).shape region.now.lo }
    requires last { IsInside (task_grid arrays.now op.now).shape (map pred region.now.hi) }
    ensures walks { result.items ≡ region_walks arrays.now op.now region.now.lo region.now.hi }
    ensures few { length result.items ≤ 8 }
{
    match op {
        Op::Map { ins, .. } => map_walks(arrays, ins.as_slice(), region),
        Op::Pull { ins, .. } => whole_walks(arrays, ins.as_slice()),
        Op::Copy { source, .. } => one_walk(Walk {
            array: *source,
            region: *region,
        }),
        Op::Fold {
            axes,
            source,
            out,
            ..
        } => one_walk(chunk_walk(arrays, GroupedAxes::Named(*axes), *source, *out, region)),
        Op::PairFold {
            axis,
            source,
            out,
            ..
        } => one_walk(chunk_walk(arrays, GroupedAxes::Sought(*axis), *source, *out, region)),
        Op::Merge {
            axis,
            group,
            source,
            out,
            ..
        } => one_walk(merge_walk(arrays, *axis, *group, *source, *out, region)),
        Op::PairMerge {
            axis,
            group,
            value_source,
            place_source,
            out,
            ..
        } => two_walks(
            merge_walk(arrays, *axis, *group, *value_source, *out, region),
            merge_walk(arrays, *axis, *group, *place_source, *out, region),
        ),
        Op::Mul { left, right, .. } => two_walks(
            left_walk(arrays, *left, *right, region),
            right_walk(arrays, *left, *right, region),
        ),
        Op::Carry {
            axis,
            group,
            sums,
            above,
            ..
        } => carry_walks(*axis, *group, *sums, *above, region),
        Op::Scan {
            axis,
            source,
            carry,
            ..
        } => scan_walks(arrays, *axis, *source, *carry, region),
        Op::GroupFold {
            axis,
            source,
            labels,
            ..
        } => two_walks(
            grouped_walk(arrays, *axis, *source, region),
            labels_walk(arrays, *axis, *source, *labels, region),
        ),
    }
}

/// A list of one walk.
pub(crate) fn one_walk(walk: Walk) -> ArrayVec<Walk, 8>
    ensures { result.items ≡ walk ∷ [] }
{
    let mut walks = ArrayVec::new();
    walks.push(walk);
    walks
}

/// A list of two.
pub(crate) fn two_walks(first: Walk, second: Walk) -> ArrayVec<Walk, 8>
    ensures { result.items ≡ first ∷ second ∷ [] }
{
    let mut walks = ArrayVec::new();
    walks.push(first);
    walks.push(second);
    walks
}

/// The bytes of the regions that a task of the operation reads before it computes.
pub fn input_room(arrays: &[ArrayInfo], op: &Op) -> u64
    requires within { All (λ a. a < length arrays.now) (reads_of op.now) }
    requires small { input_room arrays.now op.now < 2 ^ 64 }
    ensures { result ≡ input_room arrays.now op.now }
{
    match op {
        Op::Map { ins, .. } => rooms(arrays, ins.as_slice()),
        Op::Pull { .. } => 0,
        Op::Copy { region, source, .. } => bytes_of(arrays, *source, region),
        Op::Fold { source, .. } | Op::PairFold { source, .. } => chunk_room(arrays, *source),
        Op::Merge { group, source, .. } => u64::from(*group) * chunk_room(arrays, *source),
        Op::PairMerge {
            group,
            value_source,
            place_source,
            ..
        } => u64::from(*group)
            * (chunk_room(arrays, *value_source) + chunk_room(arrays, *place_source)),
        Op::Mul { left, right, .. } => chunk_room(arrays, *left) + chunk_room(arrays, *right),
        Op::Carry { group, sums, .. } => (u64::from(*group) + 1) * chunk_room(arrays, *sums),
        Op::Scan { source, carry, .. } => chunk_room(arrays, *source)
            + carried_room(arrays, *carry),
        Op::GroupFold { source, labels, .. } => chunk_room(arrays, *source)
            + chunk_room(arrays, *labels),
    }
}

/// The bytes of the regions that a task of the operation computes.
pub fn output_room(arrays: &[ArrayInfo], op: &Op) -> u64
    requires reads { All (λ a. a < length arrays.now) (reads_of op.now) }
    requires target { target_of op.now < length arrays.now }
    ensures { result ≡ output_room arrays.now op.now }
{
    match op {
        Op::Copy { .. } => 0,
        Op::PairFold { source, out, .. } => value_room(arrays, *source, *out)
            + chunk_room(arrays, *out),
        Op::PairMerge {
            value_source,
            out,
            ..
        } => value_room(arrays, *value_source, *out) + chunk_room(arrays, *out),
        other => chunk_room(arrays, other.target()),
    }
}

/// The same operation.
pub(crate) fn same_op(op: &Op) -> Op
    ensures { result ≡ op.now }
{
    match op {
        Op::Map { kernel, ins, out } => Op::Map {
            kernel: Kernel {
                code: same_list(&kernel.code),
            },
            ins: same_list(ins),
            out: *out,
        },
        Op::Pull { pull, ins, out } => Op::Pull {
            pull: same_pull(pull),
            ins: same_list(ins),
            out: *out,
        },
        &Op::Copy {
            region,
            source,
            out,
        } => Op::Copy {
            region,
            source,
            out,
        },
        &Op::Mul { left, right, out } => Op::Mul { left, right, out },
        &Op::Carry {
            axis,
            group,
            sums,
            above,
            out,
        } => Op::Carry {
            axis,
            group,
            sums,
            above,
            out,
        },
        &Op::Scan {
            axis,
            source,
            carry,
            out,
        } => Op::Scan {
            axis,
            source,
            carry,
            out,
        },
        &Op::GroupFold {
            kind,
            axis,
            groups,
            source,
            labels,
            out,
        } => Op::GroupFold {
            kind,
            axis,
            groups,
            source,
            labels,
            out,
        },
        Op::Fold { .. } | Op::Merge { .. } => same_fold(op),
        Op::PairFold { .. } | Op::PairMerge { .. } => same_search(op),
    }
}

/// The same reduction to values.
fn same_fold(op: &Op) -> Op
    requires { ReducesToValues op.now }
    ensures { result ≡ op.now }
{
    match op {
        &Op::Fold {
            kind,
            axes,
            source,
            out,
        } => Op::Fold {
            kind,
            axes,
            source,
            out,
        },
        &Op::Merge {
            kind,
            axis,
            group,
            source,
            out,
        } => Op::Merge {
            kind,
            axis,
            group,
            source,
            out,
        },
        _ => unreachable!(),
    }
}

/// The same search for places.
fn same_search(op: &Op) -> Op
    requires { ReducesToPlaces op.now }
    ensures { result ≡ op.now }
{
    match op {
        &Op::PairFold {
            least,
            axis,
            source,
            values,
            out,
        } => Op::PairFold {
            least,
            axis,
            source,
            values,
            out,
        },
        &Op::PairMerge {
            least,
            axis,
            group,
            value_source,
            place_source,
            values,
            out,
        } => Op::PairMerge {
            least,
            axis,
            group,
            value_source,
            place_source,
            values,
            out,
        },
        _ => unreachable!(),
    }
}
