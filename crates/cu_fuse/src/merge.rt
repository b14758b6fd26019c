//! The merges of a plan's maps, one array after another.
ghost use Rattle.std.specs.Prelude.{◌≡◌, ◌<◌, ◌≤◌, ◌&&◌, ◌^◌, All, IfOk, IfSome, OnOk, OnSome};
ghost use Rattle.std.specs.Prelude.{None, [], false, true, length};
ghost use Rattle.cu_op.specs.Layout.{IsArray};
ghost use Rattle.cu_op.specs.Numbers.{stands_in};
ghost use Rattle.cu_op.specs.Operation.{reads_of, writes_of};
ghost use Rattle.cu_fuse.specs.Close.{maker_of};
ghost use Rattle.cu_fuse.specs.Fused.{fused_ops, has_one_reader, is_map, joint, map_inputs};
ghost use Rattle.cu_fuse.specs.Fused.{may_merge, merged_all, merged_away, reader_of};
ghost use Rattle.cu_fuse.specs.Runs.{CanRun, IsOverArrays};

use crate::inputs::stands_once;
use crate::join::join;
use crate::once::load_all_once;
use crate::setting::MergeSetting;
use cu_op::{Op, Planned, same_grid, stands_in};
use std::alloc::{AllocError, Global};

/// Whether an operation reads the array.
fn reads(op: &Op, a: u32) -> bool
    ensures { result ≡ stands_in (reads_of op.now) a }
{
    stands_in(op.reads().as_slice(), a)
}

/// Whether an operation writes the array.
fn writes(op: &Op, a: u32) -> bool
    ensures { result ≡ stands_in (writes_of op.now) a }
{
    stands_in(op.writes().as_slice(), a)
}

/// The number of the first operation that writes the array, and how many operations there are where
/// none does.
pub(crate) fn maker_of(ops: &[Planned], a: u32) -> usize
    ensures number { result ≡ maker_of ops.now a }
    ensures within { result ≤ length ops.now }
{
    let mut number = 0;
    for planned in ops {
        if writes(&planned.op, a) {
            return number;
        }
        number += 1;
    }
    number
}

/// The number of the first operation that reads the array, and how many operations there are where
/// none does.
pub(crate) fn reader_of(ops: &[Planned], a: u32) -> usize
    ensures number { result ≡ reader_of ops.now a }
    ensures within { result ≤ length ops.now }
{
    let mut number = 0;
    for planned in ops {
        if reads(&planned.op, a) {
            return number;
        }
        number += 1;
    }
    number
}

/// Whether the operation is a map of which one input alone reads the array, where these operations
/// stand behind it.
fn has_one_reader(reader: &Planned, behind: &[Planned], a: u32) -> bool
    ensures { result ≡ (is_map reader.now.op && has_one_reader reader.now behind.now a) }
{
    reader.op.kernel().is_some()
        && stands_once(reader.op.reads().as_slice(), a)
        && reader_of(behind, a) == behind.len()
}

/// The reader of array `a` with its maker merged in, where these operations stand behind it; none
/// where they aren't to be merged.
fn merged_reader(
    setting: &MergeSetting,
    maker: &Planned,
    reader: &Planned,
    behind: &[Planned],
    a: u32,
) -> Option<Planned>
    requires arrays { All IsArray setting.now.arrays }
    requires maker { IsOverArrays setting.now.arrays maker.now.op }
    requires reader { IsOverArrays setting.now.arrays reader.now.op }
    requires array { a < length setting.now.arrays }
    requires read { stands_in (reads_of reader.now.op) a ≡ true }
    ensures joint { IfSome result (λ both. both ≡ joint setting.now maker.now reader.now a) }
    ensures merges { OnSome result
        (may_merge setting.now maker.now reader.now behind.now a ≡ true) }
    ensures none { result ≡ None → may_merge setting.now maker.now reader.now behind.now a ≡ false }
{
    if a == setting.out || !has_one_reader(reader, behind, a) {
        return None;
    }
    if !same_grid(&setting.arrays, a, reader.op.target()) {
        return None;
    }
    join(setting, maker, reader, a)
}

/// Merges the maker of array `a` into its reader, where it is to be merged.
fn merge_away(setting: &MergeSetting, a: u32, ops: &mut Vec<Planned>)
    requires arrays { All IsArray setting.now.arrays }
    requires array { a < length setting.now.arrays }
    requires over { All (λ o. IsOverArrays setting.now.arrays o.op) ops.old.items }
    ensures { ops.new.items ≡ merged_away setting.now a ops.old.items }
{
    let maker = maker_of(ops, a);
    if maker >= ops.len() {
        return;
    }
    let reader = maker + 1 + reader_of(&ops[maker + 1..], a);
    if reader >= ops.len() {
        return;
    }
    let merged = merged_reader(setting, &ops[maker], &ops[reader], &ops[reader + 1..], a);
    if let Some(both) = merged {
        ops[reader] = both;
        ops.remove(maker);
    }
}

/// The inputs of the maps, in order.
fn map_inputs(alloc: Global, ops: &[Planned]) -> Result<Vec<u32>, AllocError>
    ensures { IfOk result (λ inputs. inputs.items ≡ map_inputs ops.now) }
{
    let mut inputs = Vec::new(alloc);
    for planned in ops {
        if planned.op.kernel().is_some() {
            inputs.extend_from_slice(planned.op.reads().as_slice())?;
        }
    }
    Ok(inputs)
}

/// Merges makers into their readers, where they are to be merged: the inputs of the maps are taken
/// in order.
fn merge_all(
    alloc: Global,
    setting: &MergeSetting,
    ops: &mut Vec<Planned>,
) -> Result<(), AllocError>
    requires arrays { All IsArray setting.now.arrays }
    requires run { CanRun setting.now.arrays setting.now.reserved [] ops.old.items }
    requires allowed { setting.now.allowed < 2 ^ 64 }
    ensures { OnOk result (ops.new.items
        ≡ merged_all setting.now (map_inputs ops.old.items) ops.old.items) }
{
    let inputs = map_inputs(alloc, ops)?;
    for a in &inputs {
        merge_away(setting, *a, ops);
    }
    Ok(())
}

/// Gives each operation one load of each array, where maps load an array once, and merges makers
/// into their readers.
pub(crate) fn merge_maps(
    alloc: Global,
    setting: &MergeSetting,
    ops: &mut Vec<Planned>,
) -> Result<(), AllocError>
    requires arrays { All IsArray setting.now.arrays }
    requires run { CanRun setting.now.arrays setting.now.reserved [] ops.old.items }
    requires allowed { setting.now.allowed < 2 ^ 64 }
    ensures { OnOk result (ops.new.items ≡ fused_ops setting.now ops.old.items) }
{
    if setting.once {
        load_all_once(setting, ops);
    }
    merge_all(alloc, setting, ops)
}
