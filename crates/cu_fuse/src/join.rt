//! A map with the maker of one of its inputs merged in.
ghost use Rattle.std.specs.Prelude.{◌≡◌, ◌<◌, ◌≤◌, ◌&&◌, ◌^◌, All, IfSome, OnSome, None, false};
ghost use Rattle.std.specs.Prelude.{true, length};
ghost use Rattle.cu_op.specs.Layout.{IsArray};
ghost use Rattle.cu_op.specs.Numbers.{stands_in};
ghost use Rattle.cu_op.specs.Operation.{reads_of, writes_of};
ghost use Rattle.cu_op.specs.Projection.{own_projection};
ghost use Rattle.cu_fuse.specs.Fused.{are_maps, is_small, joint};
ghost use Rattle.cu_fuse.specs.Runs.{IsOverArrays};

use crate::inputs::put_in;
use crate::once::loaded_map;
use crate::setting::MergeSetting;
use crate::splice::{Inner, spliced};
use cu_op::{Op, Planned, number_in, one_map_law, own_projection};

/// An operation that belongs to this node; none where it needs more than is allowed.
pub(crate) fn within_allowed(setting: &MergeSetting, op: Op, node: u32) -> Option<Planned>
    requires reads { All (λ a. a < length setting.now.arrays) (reads_of op) }
    requires writes { All (λ a. a < length setting.now.arrays) (writes_of op) }
    requires room { own_projection setting.now.arrays 0 op < 2 ^ 64 }
    ensures planned { IfSome result (λ o. o ≡ record {
      op = op;
      node = node;
      projected = own_projection setting.now.arrays setting.now.reserved op;
    }) }
    ensures within { OnSome result
        (own_projection setting.now.arrays setting.now.reserved op ≤ setting.now.allowed) }
    ensures over { result ≡ None
        → setting.now.allowed < own_projection setting.now.arrays setting.now.reserved op }
{
    let allowed = setting.allowed;
    let own = own_projection(&setting.arrays, 0, &op);
    let Some(projected) = setting.reserved.checked_add(own) else {
        return None;
    };
    if projected > allowed {
        return None;
    }
    Some(Planned {
        op,
        node,
        projected,
    })
}

/// The reader of array `a` with its maker merged in; none where they aren't both maps, or are too
/// much together.
pub(crate) fn join(
    setting: &MergeSetting,
    maker: &Planned,
    reader: &Planned,
    a: u32,
) -> Option<Planned>
    requires arrays { All IsArray setting.now.arrays }
    requires maker { IsOverArrays setting.now.arrays maker.now.op }
    requires reader { IsOverArrays setting.now.arrays reader.now.op }
    requires read { stands_in (reads_of reader.now.op) a ≡ true }
    ensures joint { IfSome result (λ both. both ≡ joint setting.now maker.now reader.now a) }
    ensures maps { OnSome result (are_maps maker.now reader.now ≡ true) }
    ensures small { OnSome result
        (is_small setting.now (joint setting.now maker.now reader.now a) ≡ true) }
    ensures none { result ≡ None
        → (are_maps maker.now reader.now
        && is_small setting.now (joint setting.now maker.now reader.now a)) ≡ false }
{
    one_map_law();
    let inner = maker.op.kernel()?;
    let outer = reader.op.kernel()?;
    let inner_ins = maker.op.reads();
    let outer_ins = reader.op.reads();
    let j = number_in(outer_ins.as_slice(), a);
    let inside = Inner {
        input: j as u32,
        width: inner_ins.len() as u32,
        code: inner.code.as_slice(),
    };
    let code = spliced(inside, outer.code.as_slice());
    let ins = put_in(j, inner_ins.as_slice(), outer_ins.as_slice());
    let out = reader.op.target();
    let op = loaded_map(setting.once, code.as_slice(), ins.as_slice(), out)?;
    within_allowed(setting, op, reader.node)
}
