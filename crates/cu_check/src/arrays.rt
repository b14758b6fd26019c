//! Stored arrays, read into memory: as bytes, or element by element.
ghost use Rattle.std.specs.Prelude.{◌≡◌, ◌+◌, ◌*◌, ◌≤◌, ◌^◌, ◌++◌, ◌∷◌, [], true, length, IfErr, IfOk, OnOk};
ghost use Rattle.cu_num.specs.Dtype.{size_of};
ghost use Rattle.cu_name.specs.Name.{is_name};
ghost use Rattle.cu_shape.specs.Index.{product};
ghost use Rattle.cu_store.specs.Steps.{Shown, NoChange, OnceEach};
ghost use Rattle.cu_command.specs.Seen.{Stepped, WithinCalls};
ghost use Rattle.cu_command.specs.Stored.{IsArrayLayout};
ghost use Rattle.cu_check.specs.Arrays.{input_chunk_count};
ghost use Rattle.cu_check.specs.Chunks.{HasAllSteady, AtEachEntry, IsArrayFault};
ghost use Rattle.cu_check.specs.Plains.{AreNumbers, IsReadArray};

use crate::chunks::read_chunks;
use cu_codec::chunk_bytes;
use cu_command::{Status, zeros};
use cu_expr::InputInfo;
use cu_mean::Plain;
use cu_name::key_of_name;
use cu_num::{Dtype, load, size};
use cu_op::{ArrayInfo, Layout};
use cu_store::{NoMemory, PutStore};
use std::alloc::Global;

/// The number of elements of a stored array.
#[tactic(auto, using(crate::proofs::Layouts::few_elements))]
pub(crate) fn element_count(layout: &Layout) -> u64
    requires { IsArrayLayout layout.now }
    ensures value { result ≡ product layout.now.grid.shape }
    ensures few { result ≤ 2 ^ 40 }
{
    match layout.grid.shape().elements() {
        Some(count) => count,
        None => unreachable!(),
    }
}

/// All elements of a stored array, row-major and little-endian. Each chunk is read once, in row-major order, with at most
/// `retries + 1` calls.
pub(crate) fn read_array<D: PutStore>(
    alloc: Global,
    depot: &mut D,
    array: &InputInfo,
    retries: u32,
) -> Result<Vec<u8>, Status>
    requires name { is_name array.now.name ≡ true }
    requires layout { IsArrayLayout array.now.layout }
    ensures length { IfOk result (λ bytes. length bytes.items ≡ product array.now.layout.grid.shape * size_of array.now.layout.dtype) }
    ensures read { IfOk result (λ bytes. AtEachEntry (D.shown depot.old) (HasAllSteady array.now bytes.items)) }
    ensures step { Stepped NoChange (D.shown depot.old) (D.shown depot.new) }
    ensures cause { IfErr result (IsArrayFault (retries + 1) (D.shown depot.old) (D.shown depot.new) array.now) }
    ensures calls { WithinCalls (input_chunk_count array.now * (retries + 1)) (D.shown depot.old) (D.shown depot.new) }
    ensures once { OnceEach (input_chunk_count array.now) (D.shown depot.old) (D.shown depot.new) }
{
    let layout = &array.layout;
    let bytes = element_count(layout) * u64::from(size(layout.dtype));
    let Ok(mut all) = zeros(alloc, bytes as usize) else {
        return Err(Status::NoMemory);
    };
    let Ok(mut chunk) = zeros(alloc, chunk_bytes(&layout.grid, layout.dtype)) else {
        return Err(Status::NoMemory);
    };
    let info = ArrayInfo {
        prefix: key_of_name(&array.name),
        layout: *layout,
        maker: None,
        inlined: false,
    };
    match read_chunks(depot, &info, retries, &mut chunk, &mut all) {
        Ok(()) => Ok(all),
        Err(status) => Err(status),
    }
}

/// Appends a number.
fn push_number(numbers: &mut Vec<i128>, number: i128) -> Result<(), NoMemory>
    ensures { OnOk result (numbers.new.items ≡ numbers.old.items ++ number ∷ []) }
{
    match numbers.push(number) {
        Ok(()) => Ok(()),
        Err(_) => Err(NoMemory),
    }
}

/// The elements of little-endian bytes.
fn numbers_of(
    alloc: Global,
    dtype: Dtype,
    bytes: &[u8],
    count: usize,
) -> Result<Vec<i128>, NoMemory>
    requires { length bytes.now ≡ count * size_of dtype }
    ensures { IfOk result (λ numbers. AreNumbers dtype bytes.now count numbers.items) }
{
    let Ok(mut numbers) = Vec::with_capacity(alloc, count) else {
        return Err(NoMemory);
    };
    for at in 0..count {
        let number = load(dtype, bytes, at);
        match push_number(&mut numbers, number) {
            Ok(()) => {}
            Err(_) => return Err(NoMemory),
        }
    }
    Ok(numbers)
}

/// Reads a stored array element by element.
pub(crate) fn read_plain<D: PutStore>(
    alloc: Global,
    depot: &mut D,
    array: &InputInfo,
    retries: u32,
) -> Result<Plain, Status>
    requires name { is_name array.now.name ≡ true }
    requires layout { IsArrayLayout array.now.layout }
    ensures read { IfOk result (λ p. (entry : Shown) → Stepped NoChange entry (D.shown depot.old) → IsReadArray entry array.now p) }
    ensures step { Stepped NoChange (D.shown depot.old) (D.shown depot.new) }
    ensures cause { IfErr result (IsArrayFault (retries + 1) (D.shown depot.old) (D.shown depot.new) array.now) }
    ensures calls { WithinCalls (input_chunk_count array.now * (retries + 1)) (D.shown depot.old) (D.shown depot.new) }
    ensures once { OnceEach (input_chunk_count array.now) (D.shown depot.old) (D.shown depot.new) }
{
    let bytes = match read_array(alloc, depot, array, retries) {
        Ok(bytes) => bytes,
        Err(status) => return Err(status),
    };
    let layout = &array.layout;
    let count = element_count(layout) as usize;
    match numbers_of(alloc, layout.dtype, &bytes, count) {
        Ok(numbers) => Ok(Plain::make(layout.dtype, *layout.grid.shape(), numbers)),
        Err(_) => Err(Status::NoMemory),
    }
}
