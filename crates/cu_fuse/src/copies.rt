//! Copies in one pass: a copy joined with the one that made its source, so that nothing is stored
//! between.
ghost use Rattle.std.specs.Prelude.{◌≡◌, ◌<◌, ◌≤◌, ◌&&◌, ◌^◌, All, IfOk, IfSome, OnOk, OnSome};
ghost use Rattle.std.specs.Prelude.{None, [], false, true, length};
ghost use Rattle.cu_grid.specs.Grid.{IsGrid};
ghost use Rattle.cu_op.specs.Arrays.{grid_at, grid_counts, AllStored};
ghost use Rattle.cu_op.specs.Kind.Copy.{region_grid};
ghost use Rattle.cu_op.specs.Layout.{IsArray};
ghost use Rattle.cu_op.specs.Numbers.{stands_in};
ghost use Rattle.cu_op.specs.Operation.{reads_of, writes_of};
ghost use Rattle.cu_op.specs.Sound.{Sound};
ghost use Rattle.cu_shape.specs.Index.{product};
ghost use Rattle.cu_fuse.specs.Close.{HasMadeNames};
ghost use Rattle.cu_fuse.specs.Copies.{are_copies, copies_joined, copy_sources, has_region};
ghost use Rattle.cu_fuse.specs.Copies.{is_copy_op, is_one_pass, joined_copies, joint_copy};
ghost use Rattle.cu_fuse.specs.Copies.{joint_region, may_join};
ghost use Rattle.cu_fuse.specs.Fused.{has_one_reader};
ghost use Rattle.cu_fuse.specs.Runs.{CanRun, IsOverArrays};
ghost use Rattle.cu_fuse.specs.Together.{put_together};

use crate::close::close;
use crate::copy_laws::copies_joined_law;
use crate::join::within_allowed;
use crate::least::least_region;
use crate::merge::{maker_of, reader_of};
use crate::setting::MergeSetting;
use cu_grid::Grid;
use cu_num::size;
use cu_op::{Op, Plan, Planned, one_map_law};
use cu_rechunk::stages;
use cu_shape::{Dims, is_above};
use cu_store::NoMemory;
use std::alloc::{AllocError, Global};

/// The most elements of an array whose copies are joined, an axis of size 0 counting as one.
const MOST_ELEMENTS: u64 = 0x100_0000_0000;

/// The region of a joint copy from array `source` to array `out`: the least one that is whole
/// chunks of both, made larger as far as the array and the memory allow; none where that least one
/// doesn't fit.
fn joint_region(setting: &MergeSetting, source: u32, out: u32) -> Option<Dims>
    requires source { source < length setting.now.arrays }
    requires out { out < length setting.now.arrays }
    requires shape { (grid_at setting.now.arrays source).shape
        ≡ (grid_at setting.now.arrays out).shape }
    ensures region { IfSome result (λ region. region ≡ joint_region setting.now source out) }
    ensures grid { IfSome result
        (λ region. IsGrid (region_grid (grid_at setting.now.arrays out) region)) }
    ensures fits { OnSome result (has_region setting.now source out ≡ true) }
    ensures none { result ≡ None → has_region setting.now source out ≡ false }
{
    let from = &setting.arrays[source as usize].layout.grid;
    let to = &setting.arrays[out as usize].layout;
    let shape = to.grid.shape();
    if is_above(shape, MOST_ELEMENTS) {
        return None;
    }
    let least = least_region(shape, from.chunk(), to.grid.chunk());
    let most = setting.allowed.saturating_sub(setting.reserved) / 2;
    match stages(shape, &least, &least, size(to.dtype), most) {
        Ok(staging) => Some(staging.write),
        Err(_) => None,
    }
}

/// How many regions of these sizes an array has.
fn region_count(setting: &MergeSetting, region: Dims, out: u32) -> u64
    requires out { out < length setting.now.arrays }
    requires grid { IsGrid (region_grid (grid_at setting.now.arrays out) region) }
    ensures count { result
        ≡ product (grid_counts (region_grid (grid_at setting.now.arrays out) region)) }
    ensures small { result ≤ 2 ^ 56 }
{
    Grid::make_middle(*setting.arrays[out as usize].layout.grid.shape(), region).count()
}

/// The second copy with the first, which makes its source; none where they aren't both copies, or
/// it would have no region, more tasks than both have, or need more than is allowed.
fn joint_copy(setting: &MergeSetting, maker: &Planned, reader: &Planned, a: u32) -> Option<Planned>
    requires arrays { All IsArray setting.now.arrays }
    requires maker { IsOverArrays setting.now.arrays maker.now.op }
    requires reader { IsOverArrays setting.now.arrays reader.now.op }
    requires written { stands_in (writes_of maker.now.op) a ≡ true }
    requires read { stands_in (reads_of reader.now.op) a ≡ true }
    ensures joint { IfSome result (λ both. both ≡ joint_copy setting.now maker.now reader.now) }
    ensures copies { OnSome result (are_copies maker.now reader.now ≡ true) }
    ensures fits { OnSome result (is_one_pass setting.now maker.now reader.now ≡ true) }
    ensures none { result ≡ None
        → (are_copies maker.now reader.now && is_one_pass setting.now maker.now reader.now)
        ≡ false }
{
    one_map_law();
    match &maker.op {
        Op::Copy {
            region: first,
            source,
            out: between,
        } => match &reader.op {
            Op::Copy {
                region: second,
                out,
                ..
            } => {
                let region = joint_region(setting, *source, *out)?;
                let both = region_count(setting, *first, *between)
                    + region_count(setting, *second, *out);
                if region_count(setting, region, *out) > both {
                    return None;
                }
                let op = Op::Copy {
                    region,
                    source: *source,
                    out: *out,
                };
                within_allowed(setting, op, reader.node)
            }
            _ => None,
        },
        _ => None,
    }
}

/// Whether the operation is a copy that alone reads the array, where these operations stand behind
/// it.
fn is_only_copy(reader: &Planned, behind: &[Planned], a: u32) -> bool
    ensures { result ≡ (is_copy_op reader.now.op && has_one_reader reader.now behind.now a) }
{
    match &reader.op {
        Op::Copy { source, .. } => *source == a && reader_of(behind, a) == behind.len(),
        _ => false,
    }
}

/// The reader of array `a` with its maker, where these operations stand behind it; none where they
/// aren't to be joined.
fn joined_reader(
    setting: &MergeSetting,
    maker: &Planned,
    reader: &Planned,
    behind: &[Planned],
    a: u32,
) -> Option<Planned>
    requires arrays { All IsArray setting.now.arrays }
    requires maker { IsOverArrays setting.now.arrays maker.now.op }
    requires reader { IsOverArrays setting.now.arrays reader.now.op }
    requires written { stands_in (writes_of maker.now.op) a ≡ true }
    requires read { stands_in (reads_of reader.now.op) a ≡ true }
    ensures joint { IfSome result (λ both. both ≡ joint_copy setting.now maker.now reader.now) }
    ensures joins { OnSome result (may_join setting.now maker.now reader.now behind.now a ≡ true) }
    ensures none { result ≡ None → may_join setting.now maker.now reader.now behind.now a ≡ false }
{
    if a == setting.out || !is_only_copy(reader, behind, a) {
        return None;
    }
    joint_copy(setting, maker, reader, a)
}

/// Joins the copy that makes array `a` with the one that reads it, where they are to be joined.
fn join_at(setting: &MergeSetting, a: u32, ops: &mut Vec<Planned>)
    requires arrays { All IsArray setting.now.arrays }
    requires over { All (λ o. IsOverArrays setting.now.arrays o.op) ops.old.items }
    ensures { ops.new.items
        ≡ put_together (may_join setting.now)
        (λ maker reader b. joint_copy setting.now maker reader) a ops.old.items }
{
    let maker = maker_of(ops, a);
    if maker >= ops.len() {
        return;
    }
    let reader = maker + 1 + reader_of(&ops[maker + 1..], a);
    if reader >= ops.len() {
        return;
    }
    let joined = joined_reader(setting, &ops[maker], &ops[reader], &ops[reader + 1..], a);
    if let Some(both) = joined {
        ops[reader] = both;
        ops.remove(maker);
    }
}

/// What the copies copy, in order.
fn copy_sources(alloc: Global, ops: &[Planned]) -> Result<Vec<u32>, AllocError>
    ensures { IfOk result (λ sources. sources.items ≡ copy_sources ops.now) }
{
    let mut sources = Vec::new(alloc);
    for planned in ops {
        if let Op::Copy { source, .. } = &planned.op {
            sources.push(*source)?;
        }
    }
    Ok(sources)
}

/// Joins copies with those that made their sources, where they are to be joined: the copies are
/// taken in order.
fn join_all(alloc: Global, setting: &MergeSetting, ops: &mut Vec<Planned>) -> Result<(), AllocError>
    requires arrays { All IsArray setting.now.arrays }
    requires run { CanRun setting.now.arrays setting.now.reserved [] ops.old.items }
    requires allowed { setting.now.allowed < 2 ^ 64 }
    ensures { OnOk result (ops.new.items ≡ joined_copies setting.now ops.old.items) }
{
    let sources = copy_sources(alloc, ops)?;
    for a in &sources {
        join_at(setting, *a, ops);
    }
    Ok(())
}

/// The plan whose copies are made in one pass where that fits the memory (this project's own rule).
/// The copies are taken in order. One is joined with the copy that made its source if that array
/// isn't the output, this copy alone reads it, and a region of whole chunks of both sides has at
/// most half of the bytes that are allowed but not reserved: on each axis the least common multiple
/// of the chunks' sizes, each cut to the array's, or the axis if that is less. The joint copy
/// belongs to the second one's node and reads the first one's source; its region is that least
/// region made larger from the last axis on, as far as the array and those bytes allow. It has no
/// more tasks than both, and needs at most what is allowed. (An array of more than 2^40 elements
/// stays between its copies.) So each chunk of the source is read once and each of the result is
/// written once, with nothing stored between. The numbers of arrays and operations close up, and so
/// do the names of the made arrays but the output: `_cubed/NAME/K`, where K counts them from 0. The
/// plan's output has the name NAME, and its other made arrays have such names already. Each array
/// is stored, before and after.
pub fn join_copies(alloc: Global, plan: Plan) -> Result<Plan, NoMemory>
    requires names { HasMadeNames plan }
    requires stored { AllStored plan.arrays }
    ensures plan { IfOk result (λ joined. joined ≡ copies_joined plan) }
    ensures sound { IfOk result Sound }
    ensures stored { IfOk result (λ joined. AllStored joined.arrays) }
{
    copies_joined_law();
    joined_plan(alloc, plan).map_err(|_| NoMemory)
}

fn joined_plan(alloc: Global, plan: Plan) -> Result<Plan, AllocError>
    requires output { HasMadeNames plan }
    requires stored { AllStored plan.arrays }
    requires sound { Sound (copies_joined plan) }
    ensures { IfOk result (λ joined. joined ≡ copies_joined plan) }
{
    let out = plan.out();
    let allowed = plan.allowed();
    let reserved = plan.reserved();
    let (arrays, mut ops) = plan.parts();
    let setting = MergeSetting {
        arrays,
        out,
        allowed,
        reserved,
        once: false,
    };
    join_all(alloc, &setting, &mut ops)?;
    close(alloc, &setting, ops)
}
