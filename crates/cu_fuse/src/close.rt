//! The plan of the operations that are left: its arrays and operations are numbered anew.
ghost use Rattle.std.specs.Prelude.{◌≡◌, ◌<◌, ◌^◌, All, IfOk, length, map};
ghost use Rattle.cu_name.specs.Name.{IsArrayName};
ghost use Rattle.cu_op.specs.Arrays.{array_at, maker_at};
ghost use Rattle.cu_op.specs.Sound.{Sound};
ghost use Rattle.cu_fuse.specs.Close.{closed, remains, remaining_array, remaining_arrays};
ghost use Rattle.cu_fuse.specs.Close.{remaining_numbers, renumbered_planned};
ghost use Rattle.cu_op.specs.Numbers.{number_in};

use crate::merge::maker_of;
use crate::setting::MergeSetting;
use cu_name::made_prefix;
use cu_op::{ArrayInfo, Plan, Planned, new_number};
use std::alloc::{AllocError, Global};

/// Whether an array is left: an input, or an array that one of the operations writes.
fn remains(ops: &[Planned], a: u32, maker: Option<u32>) -> bool
    ensures { result ≡ remains ops.now a maker }
{
    match maker {
        None => true,
        Some(_) => maker_of(ops, a) < ops.len(),
    }
}

/// The numbers of the arrays that are left.
fn remaining_numbers(
    alloc: Global,
    setting: &MergeSetting,
    ops: &[Planned],
) -> Result<Vec<u32>, AllocError>
    requires few { length setting.now.arrays < 2 ^ 32 }
    ensures { IfOk result (λ numbers. numbers.items
        ≡ remaining_numbers setting.now.arrays ops.now) }
{
    let mut numbers = Vec::new(alloc);
    for a in 0..setting.arrays.len() {
        if remains(ops, a as u32, setting.arrays[a].maker) {
            numbers.push(a as u32)?;
        }
    }
    Ok(numbers)
}

/// An array that is left, where `others` made arrays but the output come before it.
fn remaining_array(setting: &MergeSetting, ops: &[Planned], others: u32, a: u32) -> ArrayInfo
    requires array { a < length setting.now.arrays }
    requires out { setting.now.out < length setting.now.arrays }
    requires named { IsArrayName (array_at setting.now.arrays setting.now.out).prefix }
    requires few { length ops.now < 2 ^ 32 }
    ensures { result ≡ remaining_array setting.now ops.now others a
        (maker_at setting.now.arrays a) }
{
    let array = setting.arrays[a as usize];
    match array.maker {
        None => array,
        Some(_) => ArrayInfo {
            prefix: if a == setting.out {
                array.prefix
            } else {
                made_prefix(&setting.arrays[setting.out as usize].prefix, others)
            },
            layout: array.layout,
            maker: Some(maker_of(ops, a) as u32),
            inlined: array.inlined,
        },
    }
}

/// The arrays that are left, which have these numbers.
fn remaining_arrays(
    alloc: Global,
    setting: &MergeSetting,
    ops: &[Planned],
    numbers: &[u32],
) -> Result<Vec<ArrayInfo>, AllocError>
    requires numbers { All (λ a. a < length setting.now.arrays) numbers.now }
    requires out { setting.now.out < length setting.now.arrays }
    requires named { IsArrayName (array_at setting.now.arrays setting.now.out).prefix }
    requires few { length ops.now < 2 ^ 32 }
    requires few_numbers { length numbers.now < 2 ^ 32 }
    ensures { IfOk result (λ arrays. arrays.items
        ≡ remaining_arrays setting.now ops.now 0 numbers.now) }
{
    let mut arrays = Vec::new(alloc);
    let mut others = 0;
    for a in numbers {
        arrays.push(remaining_array(setting, ops, others, *a))?;
        if setting.arrays[*a as usize].maker.is_some() && *a != setting.out {
            others += 1;
        }
    }
    Ok(arrays)
}

/// Gives the arrays of all operations their new numbers.
fn renumber_all(numbers: &[u32], ops: &mut Vec<Planned>)
    requires { length numbers.now < 2 ^ 32 }
    ensures { ops.new.items ≡ map (renumbered_planned (number_in numbers.now)) ops.old.items }
{
    for planned in ops.iter_mut() {
        planned.op.renumber(numbers);
    }
}

/// The plan of these operations, with the arrays that are left.
pub(crate) fn close(
    alloc: Global,
    setting: &MergeSetting,
    mut ops: Vec<Planned>,
) -> Result<Plan, AllocError>
    requires few { length setting.now.arrays < 2 ^ 32 }
    requires few_ops { length ops.items < 2 ^ 32 }
    requires out { setting.now.out < length setting.now.arrays }
    requires named { IsArrayName (array_at setting.now.arrays setting.now.out).prefix }
    requires sound { Sound (closed setting.now ops.items) }
    ensures { IfOk result (λ plan. plan ≡ closed setting.now ops.items) }
{
    let numbers = remaining_numbers(alloc, setting, &ops)?;
    let arrays = remaining_arrays(alloc, setting, &ops, &numbers)?;
    renumber_all(&numbers, &mut ops);
    let out = new_number(&numbers, setting.out);
    Ok(Plan::make(arrays, ops, out, setting.allowed, setting.reserved))
}
