ghost use Rattle.std.specs.Prelude.{◌≡◌, ◌^◌, ◌*◌, ◌<◌, ◌≤◌, All, length, map, sum_by};
ghost use Rattle.cu_num.specs.Dtype.{size_of};
ghost use Rattle.cu_shape.specs.Index.{product};
ghost use Rattle.cu_op.specs.Arrays.{type_at, chunk_room};
ghost use Rattle.cu_op.specs.Operation.{reads_of, writes_of};
ghost use Rattle.cu_op.specs.Projection.{own_projection, scratch_room};
ghost use Rattle.cu_op.specs.Places.{value_room};
ghost use Rattle.cu_shape.specs.Counts.{largest};

use crate::kinds::{input_room, output_room};
use crate::layout::ArrayInfo;
use crate::operation::Op;
use cu_num::size;
use cu_shape::Dims;

/// The bytes of memory that a worker needs for a task of an operation alone over these arrays, the
/// `reserved` ones counted: what `Planned::projected` has to be where all that the operation reads
/// is stored.
pub fn own_projection(arrays: &[ArrayInfo], reserved: u64, op: &Op) -> u64
    requires reads { All (λ a. a < length arrays.now) (reads_of op.now) }
    requires writes { All (λ a. a < length arrays.now) (writes_of op.now) }
    requires small { own_projection arrays.now reserved op.now < 2 ^ 64 }
    ensures { result ≡ own_projection arrays.now reserved op.now }
{
    let code = 512 * u64::from(op.steps());
    let scratch = scratch_room(arrays, op);
    let inputs = input_room(arrays, op);
    let outputs = output_room(arrays, op);
    reserved + scratch + inputs + outputs + code
}

/// The bytes of the greatest chunk that the operation reads or writes.
pub fn scratch_room(arrays: &[ArrayInfo], op: &Op) -> u64
    requires reads { All (λ a. a < length arrays.now) (reads_of op.now) }
    requires writes { All (λ a. a < length arrays.now) (writes_of op.now) }
    ensures { result ≡ scratch_room arrays.now op.now }
{
    let read = greatest_room(arrays, op.reads().as_slice());
    let written = greatest_room(arrays, op.writes().as_slice());
    read.max(written)
}

/// The bytes of a chunk of an array.
pub fn chunk_room(arrays: &[ArrayInfo], array: u32) -> u64
    requires { array < length arrays.now }
    ensures room { result ≡ chunk_room arrays.now array }
    ensures small { result ≤ 2 ^ 43 }
{
    let layout = &arrays[array as usize].layout;
    layout.grid.chunk().product() * size(layout.dtype)
}

/// The greatest of the chunks of these arrays, in bytes.
fn greatest_room(arrays: &[ArrayInfo], numbers: &[u32]) -> u64
    requires { All (λ a. a < length arrays.now) numbers.now }
    ensures { result ≡ largest (map (chunk_room arrays.now) numbers.now) }
{
    let mut room = 0;
    for number in numbers {
        room = chunk_room(arrays, *number).max(room);
    }
    room
}

/// The bytes of a region of these sizes, in the type of an array.
pub(crate) fn bytes_of(arrays: &[ArrayInfo], array: u32, sizes: &Dims) -> u64
    requires within { array < length arrays.now }
    requires small { product sizes.now * size_of (type_at arrays.now array) < 2 ^ 64 }
    ensures { result ≡ product sizes.now * size_of (type_at arrays.now array) }
{
    sizes.product() * size(arrays[array as usize].layout.dtype)
}

/// The bytes of the values of a chunk of `out`, whose elements are those of `source`.
pub(crate) fn value_room(arrays: &[ArrayInfo], source: u32, out: u32) -> u64
    requires source { source < length arrays.now }
    requires out { out < length arrays.now }
    ensures room { result ≡ value_room arrays.now source out }
    ensures small { result ≤ 2 ^ 43 }
{
    bytes_of(arrays, source, arrays[out as usize].layout.grid.chunk())
}

/// The bytes of a chunk of each of these arrays together.
pub(crate) fn rooms(arrays: &[ArrayInfo], numbers: &[u32]) -> u64
    requires within { All (λ a. a < length arrays.now) numbers.now }
    requires small { sum_by (chunk_room arrays.now) numbers.now < 2 ^ 64 }
    ensures { result ≡ sum_by (chunk_room arrays.now) numbers.now }
{
    let mut room = 0;
    for number in numbers {
        room += chunk_room(arrays, *number);
    }
    room
}
